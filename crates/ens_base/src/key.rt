ghost use Rattle.std.specs.Prelude.{◌≡◌, ◌⊎◌, ◌<◌, length, IfOk, IfErr};
ghost use Rattle.ens_base.specs.Lengths.{IsKeyLength};

use crate::bytes::Bytes;
use crate::copy_error::{CopyError, LengthError};
use std::alloc::Global;
use std::marker::Model;

/// The key of an object: 1 to 64 bytes. Keys are ordered byte by byte. Contracts see the bytes.
#[derive(Debug, PartialEq, Eq, PartialOrd, Ord, Drop)]
pub struct Key {
    bytes: Bytes,
}

impl Model for Key {
    ghost use Rattle.std.specs.Prelude.{ℕ, List, length};
    ghost use Rattle.ens_base.specs.Lengths.{IsKeyLength};

    ghost Value = { List ℕ };

    ghost view = { λ k. k.bytes };

    ghost invariant = { λ k. IsKeyLength (length k.bytes) };

    ghost inverse = { λ bytes. record { bytes = bytes } };
}

impl Key {
    /// The shortest length of a key, in bytes.
    pub const LEAST: usize = 1;

    /// The greatest length of a key, in bytes.
    pub const MOST: usize = 64;

    /// Makes a key of a copy of `bytes`. Returns `Length` if there are not 1 to 64 bytes, `Memory`
    /// when out of memory.
    pub fn new(alloc: Global, bytes: &[u8]) -> Result<Key, LengthError>
        ensures ok { IfOk result (λ k. (k ≡ bytes.now) × IsKeyLength (length bytes.now)) }
        ensures length { IfErr result (λ e. (e ≡ LengthError.Memory) ⊎ ((e ≡ LengthError.Length (length bytes.now)) × ¬ IsKeyLength (length bytes.now))) }
    {
        if bytes.len() < Key::LEAST || bytes.len() > Key::MOST {
            return Err(LengthError::Length(bytes.len() as u64));
        }
        Ok(Key {
            bytes: Bytes::from_slice(alloc, bytes)?,
        })
    }

    /// Returns the bytes, 1 to 64 of them.
    pub fn bytes(&self) -> &[u8]
        ensures bytes { result.now ≡ self.now }
        ensures length { IsKeyLength (length self.now) }
    {
        self.bytes.as_slice()
    }

    /// Returns a copy. Fails only when out of memory.
    pub fn copy(&self, alloc: Global) -> Result<Key, CopyError>
        ensures { IfOk result (λ k. k ≡ self.now) }
    {
        Ok(Key {
            bytes: self.bytes.copy(alloc)?,
        })
    }
}

/// Returns a copy of the key, if there is one. Fails only when out of memory.
pub fn copy_key(alloc: Global, key: &Option<Key>) -> Result<Option<Key>, CopyError>
    ensures { IfOk result (λ k. k ≡ key.now) }
{
    match key {
        None => Ok(None),
        Some(key) => Ok(Some(key.copy(alloc)?)),
    }
}
