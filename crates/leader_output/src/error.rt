ghost use Rattle.std.specs.Prelude.{◌≡◌};
ghost use Rattle.leader_output.specs.declared.error.LeadError.TheVariants.{Memory};

use object_commands::{CommandError, CopyError};
use std::alloc::{AllocError, AllocFailed};

/// Why a rule of a leader failed.
#[derive(Clone, Copy, Debug, PartialEq, Eq)]
pub enum LeadError {
    /// Out of memory.
    Memory,
}

impl From<AllocError> for LeadError {
    ghost from_gives = { λ _ e. e ≡ Memory };

    fn from(_e: AllocError) -> LeadError {
        LeadError::Memory
    }
}

impl<T: Drop> From<AllocFailed<T>> for LeadError {
    ghost from_gives = { λ _ e. e ≡ Memory };

    fn from(_e: AllocFailed<T>) -> LeadError {
        LeadError::Memory
    }
}

impl From<CopyError> for LeadError {
    ghost from_gives = { λ _ e. e ≡ Memory };

    fn from(_e: CopyError) -> LeadError {
        LeadError::Memory
    }
}

impl From<CommandError> for LeadError {
    ghost from_gives = { λ _ e. e ≡ Memory };

    fn from(_e: CommandError) -> LeadError {
        LeadError::Memory
    }
}
