ghost use Rattle.std.specs.Prelude.{◌≡◌};

use ens_base::CopyError;
use register_checker::RunError;
use schedule_text::ScheduleError;
use std::alloc::{AllocError, AllocFailed};

/// Why a text was not read as a record, or a record not audited.
#[derive(Clone, Copy, Debug, PartialEq, Eq)]
pub enum AuditError {
    /// A line is bad: the number of the first bad line, counted from 1, and its cause, from 1 to 16.
    Bad { line: u32, cause: u8 },
    /// Line 200,001 begins and is not `answers`, and no line before it is bad.
    Lines,
    /// Out of memory.
    Memory,
}

impl From<ScheduleError> for AuditError {
    ghost use Rattle.history_record.specs.Reading.{of_schedule};

    ghost from_gives = { λ e r. r ≡ of_schedule e };

    fn from(e: ScheduleError) -> AuditError {
        match e {
            ScheduleError::Bad { line, cause } => AuditError::Bad { line, cause },
            ScheduleError::Lines => AuditError::Lines,
            ScheduleError::Memory => AuditError::Memory,
        }
    }
}

impl From<CopyError> for AuditError {
    ghost use Rattle.history_record.specs.declared.error.AuditError.TheVariants.{Memory};

    ghost from_gives = { λ _ e. e ≡ Memory };

    fn from(_e: CopyError) -> AuditError {
        AuditError::Memory
    }
}

impl From<RunError> for AuditError {
    ghost use Rattle.history_record.specs.declared.error.AuditError.TheVariants.{Memory};

    ghost from_gives = { λ _ e. e ≡ Memory };

    fn from(_e: RunError) -> AuditError {
        AuditError::Memory
    }
}

impl From<AllocError> for AuditError {
    ghost use Rattle.history_record.specs.declared.error.AuditError.TheVariants.{Memory};

    ghost from_gives = { λ _ e. e ≡ Memory };

    fn from(_e: AllocError) -> AuditError {
        AuditError::Memory
    }
}

impl<T: Drop> From<AllocFailed<T>> for AuditError {
    ghost use Rattle.history_record.specs.declared.error.AuditError.TheVariants.{Memory};

    ghost from_gives = { λ _ e. e ≡ Memory };

    fn from(_e: AllocFailed<T>) -> AuditError {
        AuditError::Memory
    }
}
