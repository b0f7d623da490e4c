ghost use Rattle.std.specs.Prelude.{◌≡◌};
ghost use Rattle.world_model.specs.declared.error.WorldError.TheVariants.{Memory};

use ens_base::{Bytes, CopyError};
use network::SendError;
use std::alloc::{AllocError, AllocFailed};

/// Why a world did not open, or did not apply a line.
#[derive(Debug, PartialEq, Eq, Drop)]
pub enum WorldError {
    /// Two different strings have the same digest: the one kept, and the new one.
    Clash { first: Bytes, second: Bytes },
    /// The book of hashes would pass its limit with the new string. Holds the number of bytes kept.
    BookFull(u64),
    /// More than 500,000 messages would be sent.
    MessageLimit,
    /// Out of memory.
    Memory,
}

impl From<AllocError> for WorldError {
    ghost from_gives = { λ _ e. e ≡ Memory };

    fn from(_e: AllocError) -> WorldError {
        WorldError::Memory
    }
}

impl<T: Drop> From<AllocFailed<T>> for WorldError {
    ghost from_gives = { λ _ e. e ≡ Memory };

    fn from(_e: AllocFailed<T>) -> WorldError {
        WorldError::Memory
    }
}

impl From<CopyError> for WorldError {
    ghost from_gives = { λ _ e. e ≡ Memory };

    fn from(_e: CopyError) -> WorldError {
        WorldError::Memory
    }
}

impl From<SendError> for WorldError {
    ghost use Rattle.world_model.specs.Refusals.{of_send};

    ghost from_gives = { λ e r. r ≡ of_send e };

    fn from(e: SendError) -> WorldError {
        match e {
            SendError::Limit => WorldError::MessageLimit,
            SendError::Memory => WorldError::Memory,
        }
    }
}
