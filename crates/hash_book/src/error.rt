ghost use Rattle.std.specs.Prelude.{◌≡◌};
ghost use Rattle.hash_book.specs.declared.error.HashError.TheVariants.{Memory};

use std::alloc::{AllocError, AllocFailed};

/// Why a string was rejected.
#[derive(Debug, PartialEq, Eq, Drop)]
pub enum HashError {
    /// Two different strings have the same digest: `first` is the kept one, `second` the new one.
    Clash { first: Vec<u8>, second: Vec<u8> },
    /// The new string would exceed the limit. Holds the number of bytes kept.
    BookFull(u64),
    /// Out of memory.
    Memory,
}

impl From<AllocError> for HashError {
    ghost from_gives = { λ _ e. e ≡ Memory };

    fn from(_e: AllocError) -> HashError {
        HashError::Memory
    }
}

impl<T: Drop> From<AllocFailed<T>> for HashError {
    ghost from_gives = { λ _ e. e ≡ Memory };

    fn from(_e: AllocFailed<T>) -> HashError {
        HashError::Memory
    }
}
