ghost use Rattle.std.specs.Prelude.{◌≡◌, ◌≤◌, ◌<◌, ◌+◌, length, drop, Ok, IfOk};
ghost use Rattle.byteorder.specs.Endian.{big_number};
ghost use Rattle.wire_frames.specs.declared.frame.Frame.{Frame};
ghost use Rattle.wire_frames.specs.Messages.{Obeys};
ghost use Rattle.wire_frames.specs.Frames.{IsFrame, frame_spelling, HasPlaces, all_of, ends_of, sized_of, second_version_of, frame_of, Answers};

use crate::error::FrameError;
use crate::frame::Frame;
use crate::message::Message;
use crate::take_kinds::take_message;
use byteorder::{BigEndian, ByteOrder};
use fields::FieldError;
use std::alloc::Global;

/// The length of the header, in bytes.
const HEADER: usize = 14;

/// The most bytes of a body.
const LONGEST: usize = 4096;

/// Returns the frame of the message that was read, if it takes all `size` bytes.
fn if_all(
    from: u32,
    to: u32,
    size: usize,
    read: Result<(Message, usize), FieldError>,
) -> Result<Frame, FrameError>
    requires { HasPlaces read }
    ensures { result ≡ all_of from to size read }
{
    match read {
        Ok((message, end)) => {
            if end == size {
                Ok(Frame { from, to, message })
            } else {
                Err(FrameError::Field(end as u32))
            }
        }
        Err(FieldError::Short(at)) => Err(FrameError::Field(at as u32)),
        Err(FieldError::Rule(at)) => Err(FrameError::Field(at as u32)),
        Err(FieldError::Memory) => Err(FrameError::Memory),
    }
}

/// Reads the numbers of sender and receiver, and then the body.
fn read_ends(alloc: Global, kind: u8, bytes: &[u8]) -> Result<Frame, FrameError>
    requires long { 14 ≤ length bytes.now }
    requires small { length bytes.now ≤ 4110 }
    ensures { Answers result (ends_of (big_number 4 (drop 4 bytes.now)) (big_number 4 (drop 8 bytes.now)) kind bytes.now) }
{
    let from = BigEndian::read_u32(&bytes[4..]);
    let to = BigEndian::read_u32(&bytes[8..]);
    if from < 1 || from > 63 {
        return Err(FrameError::Field(4));
    }
    if to < 1 || to > 63 {
        return Err(FrameError::Field(8));
    }
    let read = take_message(alloc, kind, bytes, HEADER);
    if_all(from, to, bytes.len(), read)
}

/// Reads a frame of this kind, whose header announces a body of `size` bytes.
fn read_sized(alloc: Global, kind: u8, size: usize, bytes: &[u8]) -> Result<Frame, FrameError>
    requires long { 14 ≤ length bytes.now }
    requires small { size < 65536 }
    ensures { Answers result (sized_of kind size bytes.now) }
{
    if size > LONGEST {
        return Err(FrameError::Length);
    }
    if bytes.len() < HEADER + size {
        return Err(FrameError::Short);
    }
    if bytes.len() > HEADER + size {
        return Err(FrameError::Trailing);
    }
    read_ends(alloc, kind, bytes)
}

/// Reads a frame of the second version of the format.
#[tactic(auto, unfolding(crate::specs::Frames::second_version_of))]
fn read_second_version(alloc: Global, bytes: &[u8]) -> Result<Frame, FrameError>
    requires { 14 ≤ length bytes.now }
    ensures { Answers result (second_version_of bytes.now) }
{
    let kind = bytes[3];
    if kind < 1 || kind > 19 {
        return Err(FrameError::Kind);
    }
    let size = BigEndian::read_u16(&bytes[12..]) as usize;
    read_sized(alloc, kind, size, bytes)
}

#[tactic(auto, unfolding(crate::specs::Frames::frame_of))]
fn read_frame(alloc: Global, bytes: &[u8]) -> Result<Frame, FrameError>
    ensures { Answers result (frame_of bytes.now) }
{
    if bytes.len() < HEADER {
        return Err(FrameError::Short);
    }
    if bytes[0] != 0x52 || bytes[1] != 0x45 {
        return Err(FrameError::Magic);
    }
    match bytes[2] {
        2 => read_second_version(alloc, bytes),
        _ => Err(FrameError::Version),
    }
}

/// Returns the frame that the bytes spell, all of them, or the first fault.
pub fn decode_frame(alloc: Global, bytes: &[u8]) -> Result<Frame, FrameError>
    // What is read was spelled so.
    ensures found { IfOk result (λ f. IsFrame f × (bytes.now ≡ frame_spelling f)) }
    // A peer may be given it.
    ensures obeys { IfOk result (λ f. Obeys f.message) }
    // What is spelled so is read, unless memory runs out.
    ensures only { (f : Frame) → IsFrame f → bytes.now ≡ frame_spelling f → Answers result (Ok f) }
    // Which fault it is.
    ensures exact { Answers result (frame_of bytes.now) }
{
    read_frame(alloc, bytes)
}
