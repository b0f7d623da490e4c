ghost use Rattle.std.specs.Prelude.{◌+◌, ◌<◌, ◌^◌, ◌∷◌, [], All, length};
ghost use Rattle.cluster.specs.Sending.{HandsOn};
ghost use Rattle.network.specs.Mail.{MayBeSent};

use ens_base::Bytes;
use environment::{Link, LinkError};
use network::FrameIndex;
use std::alloc::Global;
use wire_frames::{Frame, encode_frame};

/// Hands a message to the link for the number of its receiver, and puts its number into the index.
fn hand_one_on<L: Link>(
    alloc: Global,
    frame: &Frame,
    number: u64,
    index: &mut FrameIndex,
    link: &mut L,
) -> Result<(), LinkError>
    requires { MayBeSent frame.now }
    ensures { HandsOn L.sent L.given L.fault_count (frame.now ∷ []) number link.old index.old result index.new link.new }
{
    let Ok(bytes) = encode_frame(alloc, frame) else {
        return Err(LinkError::Memory);
    };
    link.send(alloc, frame.to, &bytes)?;
    index.push(alloc, Bytes::new(bytes), number)?;
    Ok(())
}

/// Hands messages to the link, each for the number of its receiver, in the order of sending, and puts
/// their numbers into the index. `before` messages were sent before them.
///
/// # Errors
///
/// `Failed` only if the fault count of the link rose, and `Memory` when out of memory. A prefix of the
/// messages was handed to the link.
pub(crate) fn hand_on<L: Link>(
    alloc: Global,
    frames: &[Frame],
    before: u64,
    index: &mut FrameIndex,
    link: &mut L,
) -> Result<(), LinkError>
    requires may { All MayBeSent frames.now }
    requires few { before + length frames.now < 2 ^ 64 }
    ensures { HandsOn L.sent L.given L.fault_count frames.now (before + 1) link.old index.old result index.new link.new }
{
    let mut number = before;
    for frame in frames {
        number += 1;
        hand_one_on(alloc, frame, number, index, link)?;
    }
    Ok(())
}
