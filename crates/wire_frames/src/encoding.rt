ghost use Rattle.std.specs.Prelude.{◌≡◌, ◌≤◌, ◌++◌, ◌∷◌, [], length, Ok, IfOk, IfErr, OnOk};
ghost use Rattle.byteorder.specs.Endian.{big_bytes};
ghost use Rattle.wire_frames.specs.Messages.{kind_of as kind, Obeys};
ghost use Rattle.wire_frames.specs.Frames.{IsEnd, frame_spelling, frame_of};

use crate::error::FrameError;
use crate::frame::Frame;
use crate::message::Message;
use crate::put_kinds::append_message;
use fields::{FieldError, put_u8, put_u16, put_u32};
use std::alloc::Global;

/// The kind of the message, from 1 to 19.
fn kind_of(x: &Message) -> u8
    ensures { result ≡ kind x.now }
{
    match x {
        Message::Probe => 1,
        Message::ProbeReply(_) => 2,
        Message::Prepare(_) => 3,
        Message::Promise(_, _) => 4,
        Message::Nack(_, _) => 5,
        Message::NewEpoch(_) => 6,
        Message::Accepted(_, _) => 7,
        Message::Get(_, _, _) => 8,
        Message::GetReply(_, _, _, _, _) => 9,
        Message::Put(_, _) => 10,
        Message::PutReply(_, _, _) => 11,
        Message::Check(_, _) => 12,
        Message::CheckReply(_, _) => 13,
        Message::TreeAsk(_, _, _) => 14,
        Message::TreeGive(_, _, _, _, _) => 15,
        Message::Commit(_) => 16,
        Message::Beat(_) => 17,
        Message::CallFrame(_, _, _) => 18,
        Message::AnswerFrame(_, _) => 19,
    }
}

/// Appends the header and the body. Out of memory leaves a part of them.
fn append_frame(x: &Frame, body: &[u8], out: &mut Vec<u8>) -> Result<(), FieldError>
    requires { length body.now ≤ 4096 }
    ensures ok { OnOk result (out.new.items ≡ out.old.items
        ++ (0x52 ∷ 0x45 ∷ 2 ∷ kind x.now.message ∷ [] ++ big_bytes 4 x.now.from ++ big_bytes 4 x.now.to
        ++ big_bytes 2 (length body.now) ++ body.now)) }
    ensures memory { IfErr result (λ e. e ≡ FieldError.Memory) }
{
    let start = [0x52, 0x45, 2, kind_of(&x.message)];
    out.extend_from_slice(&start)?;
    put_u32(x.from, out)?;
    put_u32(x.to, out)?;
    put_u16(body.len() as u16, out)?;
    out.extend_from_slice(body)?;
    Ok(())
}

/// The spelling of the frame, which [`decode_frame`] reads again.
pub fn encode_frame(alloc: Global, frame: &Frame) -> Result<Vec<u8>, FrameError>
    requires from { IsEnd frame.now.from }
    requires to { IsEnd frame.now.to }
    requires message { Obeys frame.now.message }
    ensures ok { IfOk result (λ v. v.items ≡ frame_spelling frame.now) }
    ensures again { IfOk result (λ v. frame_of v.items ≡ Ok frame.now) }
    ensures memory { IfErr result (λ e. e ≡ FrameError.Memory) }
{
    let mut body = Vec::new(alloc);
    match append_message(&frame.message, &mut body) {
        Ok(()) => {}
        Err(_) => return Err(FrameError::Memory),
    }
    let mut out = Vec::new(alloc);
    match append_frame(frame, &body, &mut out) {
        Ok(()) => Ok(out),
        Err(_) => Err(FrameError::Memory),
    }
}
