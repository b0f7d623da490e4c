ghost use Rattle.std.specs.Prelude.{◌≡◌, ◌+◌, ◌≤◌, ◌++◌, length, drop, IfOk};
ghost use Rattle.byteorder.specs.Endian.{big_number};
ghost use Rattle.repeat_link.specs.Headers.{header_bytes, header_in};

use crate::received::Received;
use byteorder::{BigEndian, ByteOrder};
use std::alloc::{AllocError, Global};

/// The length of a header in bytes.
pub const HEADER_LENGTH: usize = 50;

/// What stands before each part of a frame, its numbers high byte first: who sends to whom, the run of the
/// sender, the run of the receiver that the sender knows (0: none), the number of the frame (0: no frame),
/// which numbers of that run came, and which part of how many this is.
#[derive(Clone, Copy, Debug, PartialEq, Eq)]
pub struct Header {
    pub from: u32,
    pub to: u32,
    pub run: u64,
    pub known_run: u64,
    pub number: u64,
    pub received: Received,
    pub part: u8,
    pub parts: u8,
}

/// Reads the four bytes at a place.
fn u32_at(bytes: &[u8], at: usize) -> u32
    requires { at + 4 ≤ length bytes.now }
    ensures { result ≡ big_number 4 (drop at bytes.now) }
{
    BigEndian::read_u32(&bytes[at..])
}

/// Reads the eight bytes at a place.
fn u64_at(bytes: &[u8], at: usize) -> u64
    requires { at + 8 ≤ length bytes.now }
    ensures { result ≡ big_number 8 (drop at bytes.now) }
{
    BigEndian::read_u64(&bytes[at..])
}

impl Header {
    /// Returns the datagram of this header and these bytes.
    pub fn datagram(&self, alloc: Global, bytes: &[u8]) -> Result<Vec<u8>, AllocError>
        ensures { IfOk result (λ v. v.items ≡ header_bytes self.now ++ bytes.now) }
    {
        let mut front = [0; HEADER_LENGTH];
        BigEndian::write_u32(&mut front, self.from);
        BigEndian::write_u32(&mut front[4..], self.to);
        BigEndian::write_u64(&mut front[8..], self.run);
        BigEndian::write_u64(&mut front[16..], self.known_run);
        BigEndian::write_u64(&mut front[24..], self.number);
        BigEndian::write_u64(&mut front[32..], self.received.greatest);
        BigEndian::write_u64(&mut front[40..], self.received.bits);
        front[48] = self.part;
        front[49] = self.parts;
        let mut datagram = Vec::with_capacity(alloc, bytes.len().saturating_add(HEADER_LENGTH))?;
        datagram.extend_from_slice(&front)?;
        datagram.extend_from_slice(bytes)?;
        Ok(datagram)
    }

    /// Reads the header of a datagram, or returns `None` if it is too short for one. What follows byte 50 is
    /// the part of the frame.
    pub fn read(datagram: &[u8]) -> Option<Header>
        ensures { result ≡ header_in datagram.now }
    {
        if datagram.len() < HEADER_LENGTH {
            return None;
        }
        Some(Header {
            from: u32_at(datagram, 0),
            to: u32_at(datagram, 4),
            run: u64_at(datagram, 8),
            known_run: u64_at(datagram, 16),
            number: u64_at(datagram, 24),
            received: Received {
                greatest: u64_at(datagram, 32),
                bits: u64_at(datagram, 40),
            },
            part: datagram[48],
            parts: datagram[49],
        })
    }
}
