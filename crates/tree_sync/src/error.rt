ghost use Rattle.std.specs.Prelude.{◌≡◌};
ghost use Rattle.tree_sync.specs.declared.error.SyncError.TheVariants.{Memory};

use ens_base::CopyError;
use std::alloc::{AllocError, AllocFailed};

/// Why a call of a sync failed.
#[derive(Clone, Copy, Debug, PartialEq, Eq)]
pub enum SyncError {
    /// Out of memory.
    Memory,
}

impl From<AllocError> for SyncError {
    ghost from_gives = { λ _ e. e ≡ Memory };

    fn from(_e: AllocError) -> SyncError {
        SyncError::Memory
    }
}

impl<T: Drop> From<AllocFailed<T>> for SyncError {
    ghost from_gives = { λ _ e. e ≡ Memory };

    fn from(_e: AllocFailed<T>) -> SyncError {
        SyncError::Memory
    }
}

impl From<CopyError> for SyncError {
    ghost from_gives = { λ _ e. e ≡ Memory };

    fn from(_e: CopyError) -> SyncError {
        SyncError::Memory
    }
}
