ghost use Rattle.std.specs.Prelude.{◌≡◌};
ghost use Rattle.fields.specs.declared.field_error.FieldError.TheVariants.{Memory};

use std::alloc::{AllocError, AllocFailed};
use thiserror::Error;

/// Why a field was not read or written. A place is an index into the bytes that are read: it is where
/// the first number or run of bytes begins that is cut short or breaks its rule.
#[derive(Clone, Copy, Debug, PartialEq, Eq, Error)]
pub enum FieldError {
    /// The bytes end before the part at this place does.
    #[error("the bytes end inside the part at byte {0}")]
    Short(usize),
    /// The part at this place breaks its rule.
    #[error("the part at byte {0} breaks its rule")]
    Rule(usize),
    /// Memory ran out.
    #[error("out of memory")]
    Memory,
}

impl From<AllocError> for FieldError {
    ghost from_gives = { λ _ e. e ≡ Memory };

    fn from(_e: AllocError) -> FieldError {
        FieldError::Memory
    }
}

impl<T: Drop> From<AllocFailed<T>> for FieldError {
    ghost from_gives = { λ _ e. e ≡ Memory };

    fn from(_e: AllocFailed<T>) -> FieldError {
        FieldError::Memory
    }
}
