ghost use Rattle.std.specs.Prelude.{◌≡◌, ◌++◌, ℕ, take, IfOk, OnOk, OnErr};
ghost use Rattle.repeat_link.specs.Sendings.{datagrams_of, due_of, all_due, SentTo};

use crate::header::Header;
use crate::parts::{part_at, part_count};
use crate::send_queue::Queued;
use ens_base::Bytes;
use environment::{Link, LinkError};
use std::alloc::{AllocError, Global};

/// Appends the datagrams of a frame, one for each part. A frame of more than 255 parts has none.
fn push_parts(
    alloc: Global,
    out: &mut Vec<Bytes>,
    header: &Header,
    frame: &[u8],
) -> Result<(), AllocError>
    ensures { OnOk result (out.new.items ≡ out.old.items ++ datagrams_of header.now frame.now) }
{
    let Ok(parts) = u8::try_from(part_count(frame)) else {
        return Ok(());
    };
    for part in 0..parts {
        let header = Header {
            part,
            parts,
            ..*header
        };
        let datagram = header.datagram(alloc, part_at(frame, usize::from(part)))?;
        out.push(Bytes::new(datagram))?;
    }
    Ok(())
}

/// Appends the datagrams of a frame, if it is due.
fn push_due(
    alloc: Global,
    out: &mut Vec<Bytes>,
    header: &Header,
    one: &Queued,
    first: u64,
    now: u64,
) -> Result<(), AllocError>
    ensures { OnOk result (out.new.items ≡ out.old.items ++ due_of header.now first now one.now) }
{
    if !one.is_due(first, now) {
        return Ok(());
    }
    let header = Header {
        number: one.number,
        ..*header
    };
    push_parts(alloc, out, &header, one.frame.as_slice())
}

/// Returns the datagrams of the frames that are due, the oldest first.
#[tactic(auto, using(crate::proofs::SentLists::one_frame_more, crate::proofs::SentLists::no_frame_more))]
pub fn due_datagrams(
    alloc: Global,
    header: &Header,
    queued: &[Queued],
    first: u64,
    now: u64,
) -> Result<Vec<Bytes>, AllocError>
    ensures { IfOk result (λ v. v.items ≡ all_due header.now first now queued.now) }
{
    let mut out = Vec::new(alloc);
    for one in queued {
        push_due(alloc, &mut out, header, one, first, now)?;
    }
    Ok(out)
}

/// Sends the datagrams to a number. After an error the first of them were sent, and no others.
pub fn send_all<L: Link>(
    link: &mut L,
    alloc: Global,
    to: u32,
    datagrams: &[Bytes],
) -> Result<(), LinkError>
    ensures ok { OnOk result (SentTo (L.sent link.old) (L.sent link.new) to datagrams.now) }
    ensures err { OnErr result ((count : ℕ) × SentTo (L.sent link.old) (L.sent link.new) to (take count datagrams.now)) }
{
    for datagram in datagrams {
        link.send(alloc, to, datagram.as_slice())?;
    }
    Ok(())
}
