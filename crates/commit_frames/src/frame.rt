ghost use Rattle.std.specs.Prelude.{◌≡◌, ◌<◌, ◌^◌, length, OnOk};
ghost use Rattle.commit_frames.specs.Headers.{header_of};
ghost use Rattle.commit_frames.specs.Frames.{frame_bytes, IsFrame};

use crate::digits::put_digits;
use crate::header::{Header, check_of, put_front, zeros_of};
use crate::mark::Mark;
use std::alloc::AllocError;

/// Replaces the bytes by those of a frame. Serial numbers are below 2^63, and a payload is shorter than
/// 2^35 bytes. When out of memory, leaves other bytes.
pub fn put_frame(
    out: &mut Vec<u8>,
    mark: Mark,
    serial: u64,
    first: u64,
    payload: &[u8],
) -> Result<(), AllocError>
    ensures bytes { OnOk result (out.new.items ≡ frame_bytes (record { head = header_of mark serial first payload.now; payload = payload.now })) }
    ensures frame { OnOk result (serial < 2 ^ 63 → first < 2 ^ 63 → length payload.now < 2 ^ 35 → IsFrame (record { head = header_of mark serial first payload.now; payload = payload.now })) }
{
    out.clear();
    let header = Header {
        mark,
        serial,
        first,
        length: payload.len() as u64,
        zeros: zeros_of(payload) as u64,
        check: 0,
    };
    put_front(out, &header)?;
    let check = check_of(out, payload);
    put_digits(out, 5, check)?;
    out.extend_from_slice(payload)
}
