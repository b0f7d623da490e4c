ghost use Rattle.std.specs.Prelude.{◌≡◌, ◌+◌, ◌<◌, ◌^◌, ◌++◌, ◌↔◌, List, ℕ, length, take, drop, Some, OnOk, IfOk, IfSome, IsTrue, count_by, ◌==◌};
ghost use Rattle.commit_frames.specs.Headers.{front_bytes, header_bytes, header_of, rest_of, check_of, zeros_in, FitsHeader, IsWhole, IsSound};
ghost use Rattle.commit_frames.specs.declared.header.Header.{Header};

use crate::digits::{number_of, put_digits};
use crate::mark::Mark;
use md5::{Digest, Md5};
use std::alloc::{AllocError, Global};

/// The length of a header in bytes.
pub const HEADER_BYTES: usize = 44;

/// The length of a header in bytes without its check.
const FRONT_BYTES: usize = 39;

/// The greatest number of five digits.
const MOST: u64 = (1 << 35) - 1;

/// What a frame says of itself. Serial numbers are below 2^63, lengths in bytes below 2^35.
#[derive(Clone, Copy, Debug, PartialEq, Eq)]
pub struct Header {
    /// What the frame does.
    pub mark: Mark,
    /// The serial number of the frame.
    pub serial: u64,
    /// The serial number of the first frame that counts.
    pub first: u64,
    /// The length of the payload.
    pub length: u64,
    /// How many bytes of the payload are 0.
    pub zeros: u64,
    /// The first four bytes of the MD5 digest of the rest of the header and the payload.
    pub check: u64,
}

/// Returns how many bytes are 0.
pub fn zeros_of(bytes: &[u8]) -> usize
    ensures value { result ≡ zeros_in bytes.now }
{
    bytes.iter().filter(|byte| **byte == 0).count()
}

/// Returns the check of the front of a header and a payload.
pub(crate) fn check_of(front: &[u8], payload: &[u8]) -> u64
    ensures value { result ≡ check_of front.now payload.now }
    ensures below { result < 2 ^ 32 }
{
    let mut hasher = Md5::new();
    hasher.update(front);
    hasher.update(payload);
    let [a, b, c, d, ..] = hasher.finalize();
    u64::from(u32::from_be_bytes([a, b, c, d]))
}

/// Returns how much smaller a number is than the greatest of five digits.
fn rest_of(number: u64) -> u64
    ensures { result ≡ rest_of number }
{
    MOST.saturating_sub(number)
}

/// Returns whether this is the second spelling of a number.
fn is_twin(number: u64, twin: u64) -> bool
    ensures { IsTrue result ↔ twin ≡ rest_of number }
{
    twin == rest_of(number)
}

/// Appends the header up to its check.
pub(crate) fn put_front(out: &mut Vec<u8>, header: &Header) -> Result<(), AllocError>
    ensures { OnOk result (out.new.items ≡ out.old.items ++ front_bytes header.now.mark header.now.serial header.now.first header.now.length header.now.zeros) }
{
    out.push(header.mark.byte())?;
    put_digits(out, 9, header.serial)?;
    put_digits(out, 9, header.first)?;
    put_digits(out, 5, header.length)?;
    put_digits(out, 5, header.zeros)?;
    put_digits(out, 5, rest_of(header.length))?;
    put_digits(out, 5, rest_of(header.zeros))
}

impl Header {
    /// Returns the header at the front of the bytes, if there is one.
    pub fn of(bytes: &[u8]) -> Option<Header>
        ensures there { IfSome result (λ h. (take 44 bytes.now ≡ header_bytes h) × FitsHeader h) }
        ensures each { (h : Header) (rest : List ℕ) → FitsHeader h → bytes.now ≡ header_bytes h ++ rest → result ≡ Some h }
    {
        if bytes.len() < HEADER_BYTES {
            return None;
        }
        let mark = Mark::of(bytes[0])?;
        let serial = number_of(&bytes[1..10], 0)?;
        let first = number_of(&bytes[10..19], 0)?;
        let length = number_of(&bytes[19..24], 0)?;
        let zeros = number_of(&bytes[24..29], 0)?;
        let length_twin = number_of(&bytes[29..34], 0)?;
        let zeros_twin = number_of(&bytes[34..39], 0)?;
        if !is_twin(length, length_twin) {
            return None;
        }
        if !is_twin(zeros, zeros_twin) {
            return None;
        }
        let check = number_of(&bytes[39..44], 0)?;
        Some(Header {
            mark,
            serial,
            first,
            length,
            zeros,
            check,
        })
    }

    /// Returns whether no byte of this payload was lost.
    pub fn is_whole(&self, payload: &[u8]) -> bool
        ensures { IsTrue result ↔ IsWhole self.now payload.now }
    {
        self.length == payload.len() as u64 && self.zeros == zeros_of(payload) as u64
    }

    /// Returns whether the check fits the rest of the header and this payload. Fails only when out of
    /// memory.
    pub fn is_sound(&self, alloc: Global, payload: &[u8]) -> Result<bool, AllocError>
        ensures { IfOk result (λ sound. IsTrue sound ↔ IsSound self.now payload.now) }
    {
        let mut front = Vec::with_capacity(alloc, FRONT_BYTES)?;
        put_front(&mut front, self)?;
        Ok(self.check == check_of(&front, payload))
    }
}
