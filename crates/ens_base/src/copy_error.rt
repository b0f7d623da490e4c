ghost use Rattle.std.specs.Prelude.{◌≡◌};
ghost use Rattle.ens_base.specs.declared.copy_error.CopyError.TheVariants.{Memory};
ghost use Rattle.ens_base.specs.declared.copy_error.LengthError.TheVariants.{Memory as NoMemory};

use std::alloc::{AllocError, AllocFailed};
use thiserror::Error;

/// The error of a copy.
#[derive(Clone, Copy, Debug, PartialEq, Eq, Error)]
pub enum CopyError {
    /// Out of memory.
    #[error("out of memory")]
    Memory,
}

impl From<AllocError> for CopyError {
    ghost from_gives = { λ _ e. e ≡ Memory };

    fn from(_e: AllocError) -> CopyError {
        CopyError::Memory
    }
}

impl<T: Drop> From<AllocFailed<T>> for CopyError {
    ghost from_gives = { λ _ e. e ≡ Memory };

    fn from(_e: AllocFailed<T>) -> CopyError {
        CopyError::Memory
    }
}

impl From<CopyError> for AllocError {
    fn from(_e: CopyError) -> AllocError {
        AllocError
    }
}

/// Why bytes were rejected as a key or a value.
#[derive(Clone, Copy, Debug, PartialEq, Eq, Error)]
pub enum LengthError {
    /// The length in bytes is out of range for the type. Holds that length.
    #[error("{0} bytes are too few or too many")]
    Length(u64),
    /// Out of memory.
    #[error("out of memory")]
    Memory,
}

impl From<AllocError> for LengthError {
    ghost from_gives = { λ _ e. e ≡ NoMemory };

    fn from(_e: AllocError) -> LengthError {
        LengthError::Memory
    }
}
