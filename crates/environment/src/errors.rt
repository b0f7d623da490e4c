ghost use Rattle.std.specs.Prelude.{◌≡◌};
ghost use Rattle.environment.specs.declared.errors.StoreError.TheVariants.{Memory};
ghost use Rattle.environment.specs.declared.errors.LinkError.TheVariants.{Memory as NoMemory};

use ens_base::CopyError;
use std::alloc::{AllocError, AllocFailed};

/// Why a store did not do what it was asked.
#[derive(Clone, Copy, Debug, PartialEq, Eq)]
pub enum StoreError {
    /// The store failed. Its fault count has risen.
    Failed,
    /// Out of memory. The fault count is unchanged.
    Memory,
}

impl From<AllocError> for StoreError {
    ghost from_gives = { λ _ e. e ≡ Memory };

    fn from(_e: AllocError) -> StoreError {
        StoreError::Memory
    }
}

impl<T: Drop> From<AllocFailed<T>> for StoreError {
    ghost from_gives = { λ _ e. e ≡ Memory };

    fn from(_e: AllocFailed<T>) -> StoreError {
        StoreError::Memory
    }
}

impl From<CopyError> for StoreError {
    ghost from_gives = { λ _ e. e ≡ Memory };

    fn from(_e: CopyError) -> StoreError {
        StoreError::Memory
    }
}

/// Why a frame was not sent, or a look failed.
#[derive(Clone, Copy, Debug, PartialEq, Eq)]
pub enum LinkError {
    /// The link failed. Its fault count has risen.
    Failed,
    /// Out of memory. The fault count is unchanged.
    Memory,
}

impl From<AllocError> for LinkError {
    ghost from_gives = { λ _ e. e ≡ NoMemory };

    fn from(_e: AllocError) -> LinkError {
        LinkError::Memory
    }
}

impl<T: Drop> From<AllocFailed<T>> for LinkError {
    ghost from_gives = { λ _ e. e ≡ NoMemory };

    fn from(_e: AllocFailed<T>) -> LinkError {
        LinkError::Memory
    }
}
