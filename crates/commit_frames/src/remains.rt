ghost use Rattle.std.specs.Prelude.{◌≡◌, ◌≤◌, ◌<◌, ◌^◌, length, IfSome, IsSomeAnd};
ghost use Rattle.commit_frames.specs.Headers.{header_bytes, FitsHeader};
ghost use Rattle.commit_frames.specs.Frames.{IsLostFrom};
ghost use Rattle.commit_frames.specs.declared.header.Header.{Header};

use crate::digits::{may_be, merged, number_of};
use crate::mark::Mark;

/// What is left of the header of a torn frame, of which each byte is there or 0.
#[derive(Clone, Copy, Debug, PartialEq, Eq)]
pub struct Remains {
    /// The greatest length that the header may have said.
    pub length: u64,
    /// The fewest zeros that the header may have said.
    pub zeros: u64,
}

impl Remains {
    /// Returns what the bytes of a header say, if they may be those of a frame with this serial number.
    pub fn of(bytes: &[u8], serial: u64) -> Option<Remains>
        requires size { length bytes.now ≡ 44 }
        requires serial { serial < 2 ^ 63 }
        ensures there { IfSome result (λ r. (h : Header) × FitsHeader h × (h.serial ≡ serial) × (h.length ≡ r.length) × (h.zeros ≡ r.zeros) × IsLostFrom (header_bytes h) bytes.now) }
        ensures each { (h : Header) → FitsHeader h → h.serial ≡ serial → IsLostFrom (header_bytes h) bytes.now → IsSomeAnd result (λ r. (h.length ≤ r.length) × (r.zeros ≤ h.zeros)) }
    {
        if bytes[0] != 0 {
            Mark::of(bytes[0])?;
        }
        if !may_be(&bytes[1..10], serial) {
            return None;
        }
        number_of(&bytes[10..19], 128)?;
        let length = number_of(&merged(&bytes[19..24], &bytes[29..34])?, 255)?;
        let zeros = number_of(&merged(&bytes[24..29], &bytes[34..39])?, 128)?;
        number_of(&bytes[39..44], 128)?;
        Some(Remains { length, zeros })
    }
}
