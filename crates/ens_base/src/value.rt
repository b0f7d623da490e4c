ghost use Rattle.std.specs.Prelude.{◌≡◌, ◌⊎◌, ◌<◌, length, IfOk, IfErr};
ghost use Rattle.ens_base.specs.Lengths.{IsValueLength};

use crate::bytes::Bytes;
use crate::copy_error::{CopyError, LengthError};
use std::alloc::Global;
use std::marker::Model;

/// The content of an object: 0 to 1,024 bytes. Contracts see the bytes.
#[derive(Debug, PartialEq, Eq, Drop)]
pub struct Value {
    bytes: Bytes,
}

impl Model for Value {
    ghost use Rattle.std.specs.Prelude.{ℕ, List, length};
    ghost use Rattle.ens_base.specs.Lengths.{IsValueLength};

    ghost Value = { List ℕ };

    ghost view = { λ v. v.bytes };

    ghost invariant = { λ v. IsValueLength (length v.bytes) };

    ghost inverse = { λ bytes. record { bytes = bytes } };
}

impl Value {
    /// The greatest length of a value, in bytes.
    pub const MOST: usize = 1024;

    /// Makes a value of a copy of `bytes`. Returns `Length` if there are more than 1,024 bytes,
    /// `Memory` when out of memory.
    pub fn new(alloc: Global, bytes: &[u8]) -> Result<Value, LengthError>
        ensures ok { IfOk result (λ v. (v ≡ bytes.now) × IsValueLength (length bytes.now)) }
        ensures length { IfErr result (λ e. (e ≡ LengthError.Memory) ⊎ ((e ≡ LengthError.Length (length bytes.now)) × ¬ IsValueLength (length bytes.now))) }
    {
        if bytes.len() > Value::MOST {
            return Err(LengthError::Length(bytes.len() as u64));
        }
        Ok(Value {
            bytes: Bytes::from_slice(alloc, bytes)?,
        })
    }

    /// Returns the bytes, at most 1,024.
    pub fn bytes(&self) -> &[u8]
        ensures bytes { result.now ≡ self.now }
        ensures length { IsValueLength (length self.now) }
    {
        self.bytes.as_slice()
    }

    /// Returns a copy. Fails only when out of memory.
    pub fn copy(&self, alloc: Global) -> Result<Value, CopyError>
        ensures { IfOk result (λ v. v ≡ self.now) }
    {
        Ok(Value {
            bytes: self.bytes.copy(alloc)?,
        })
    }
}
