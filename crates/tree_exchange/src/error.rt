ghost use Rattle.std.specs.Prelude.{◌≡◌};
ghost use Rattle.tree_exchange.specs.declared.error.AskError.TheVariants.{Memory};

use ens_base::CopyError;
use std::alloc::{AllocError, AllocFailed};

/// Why a call of the exchange failed.
#[derive(Debug, PartialEq, Eq, Drop)]
pub enum AskError {
    /// The store of the tree failed: its count of faults rose.
    Store,
    /// Two different strings have the same digest: the one kept, and the new one.
    Clash { first: Vec<u8>, second: Vec<u8> },
    /// The book of hashes would pass its limit with the new string. Holds the number of bytes kept.
    BookFull(u64),
    /// Out of memory.
    Memory,
}

impl From<AllocError> for AskError {
    ghost from_gives = { λ _ e. e ≡ Memory };

    fn from(_e: AllocError) -> AskError {
        AskError::Memory
    }
}

impl<T: Drop> From<AllocFailed<T>> for AskError {
    ghost from_gives = { λ _ e. e ≡ Memory };

    fn from(_e: AllocFailed<T>) -> AskError {
        AskError::Memory
    }
}

impl From<CopyError> for AskError {
    ghost from_gives = { λ _ e. e ≡ Memory };

    fn from(_e: CopyError) -> AskError {
        AskError::Memory
    }
}
