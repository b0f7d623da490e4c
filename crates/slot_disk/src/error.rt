ghost use Rattle.std.specs.Prelude.{◌≡◌};
ghost use Rattle.slot_disk.specs.declared.error.SlotError.TheVariants.{Failed as DiskFailed, Memory as NoMemory};

use ens_base::Failed;
use std::alloc::AllocError;

/// Why a slot file rejected a call.
#[derive(Clone, Copy, Debug, PartialEq, Eq)]
pub enum SlotError {
    /// The disk failed: its fault count rose in this call.
    Failed,
    /// The record has more than 480 bytes.
    TooLong,
    /// No slot holds a record.
    NoRecord,
    /// Out of memory.
    Memory,
    /// The last serial number is the greatest u64, so no further save is possible.
    Spent,
}

impl From<Failed> for SlotError {
    ghost from_gives = { λ _ e. e ≡ DiskFailed };

    fn from(_e: Failed) -> SlotError {
        SlotError::Failed
    }
}

impl From<AllocError> for SlotError {
    ghost from_gives = { λ _ e. e ≡ NoMemory };

    fn from(_e: AllocError) -> SlotError {
        SlotError::Memory
    }
}
