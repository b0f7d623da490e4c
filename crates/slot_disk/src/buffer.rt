ghost use Rattle.std.specs.Prelude.{◌≡◌, ◌≤◌, [], length, vec_capacity, IfOk};
ghost use Rattle.slot_disk.specs.Slots.{body};

use std::alloc::{AllocError, Global};

/// A buffer of bytes with capacity for a slot, allocated when it is made.
#[derive(Debug, Drop)]
pub(crate) struct Buffer {
    bytes: Vec<u8>,
    ghost room: { 490 ≤ vec_capacity bytes },
}

impl Buffer {
    /// Makes an empty buffer. Fails only when out of memory.
    pub fn new(alloc: Global) -> Result<Buffer, AllocError>
        ensures { IfOk result (λ b. b.bytes.items ≡ []) }
    {
        Ok(Buffer {
            bytes: Vec::with_capacity(alloc, 490)?,
        })
    }

    /// Makes a buffer that holds a copy of `bytes`. Fails only when out of memory.
    pub fn of(alloc: Global, bytes: &[u8]) -> Result<Buffer, AllocError>
        ensures { IfOk result (λ b. b.bytes.items ≡ bytes.now) }
    {
        let mut own = Vec::with_capacity(alloc, 490)?;
        own.extend_from_slice(bytes)?;
        Ok(Buffer { bytes: own })
    }

    /// Returns the bytes.
    pub fn as_slice(&self) -> &[u8]
        ensures { result.now ≡ self.now.bytes.items }
    {
        &self.bytes
    }

    /// Replaces the content by `bytes`, at most 490. Allocates nothing.
    pub fn set(&mut self, bytes: &[u8])
        requires { length bytes.now ≤ 490 }
        ensures { self.new.bytes.items ≡ bytes.now }
    {
        self.bytes.clear();
        self.bytes.extend_from_slice(bytes).unwrap();
    }

    /// Replaces the content by the encoding of a slot without its gate: serial number, length and
    /// record. Allocates nothing.
    pub fn set_body(&mut self, serial: u64, content: &[u8])
        requires { length content.now ≤ 480 }
        ensures { self.new.bytes.items ≡ body serial content.now }
    {
        self.bytes.clear();
        self.bytes.extend_from_slice(&serial.to_be_bytes()).unwrap();
        let size = content.len() as u16;
        self.bytes.extend_from_slice(&size.to_be_bytes()).unwrap();
        self.bytes.extend_from_slice(content).unwrap();
    }
}
