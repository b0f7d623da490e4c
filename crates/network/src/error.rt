ghost use Rattle.std.specs.Prelude.{◌≡◌};
ghost use Rattle.network.specs.declared.error.SendError.TheVariants.{Memory};

use std::alloc::{AllocError, AllocFailed};

/// Why a message was not sent.
#[derive(Clone, Copy, Debug, PartialEq, Eq)]
pub enum SendError {
    /// 500,000 messages were sent already.
    Limit,
    /// Out of memory.
    Memory,
}

impl From<AllocError> for SendError {
    ghost from_gives = { λ _ e. e ≡ Memory };

    fn from(_e: AllocError) -> SendError {
        SendError::Memory
    }
}

impl<T: Drop> From<AllocFailed<T>> for SendError {
    ghost from_gives = { λ _ e. e ≡ Memory };

    fn from(_e: AllocFailed<T>) -> SendError {
        SendError::Memory
    }
}
