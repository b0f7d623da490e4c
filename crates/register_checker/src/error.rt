ghost use Rattle.std.specs.Prelude.{◌≡◌};
ghost use Rattle.register_checker.specs.declared.error.RunError.TheVariants.{Memory};

use ens_base::CopyError;
use object_commands::CommandError;
use std::alloc::{AllocError, AllocFailed};

/// Why an order was not tested.
#[derive(Clone, Copy, Debug, PartialEq, Eq)]
pub enum RunError {
    /// Out of memory.
    Memory,
}

impl From<CopyError> for RunError {
    ghost from_gives = { λ _ e. e ≡ Memory };

    fn from(_e: CopyError) -> RunError {
        RunError::Memory
    }
}

impl From<CommandError> for RunError {
    ghost from_gives = { λ _ e. e ≡ Memory };

    fn from(_e: CommandError) -> RunError {
        RunError::Memory
    }
}

impl From<AllocError> for RunError {
    ghost from_gives = { λ _ e. e ≡ Memory };

    fn from(_e: AllocError) -> RunError {
        RunError::Memory
    }
}

impl<T: Drop> From<AllocFailed<T>> for RunError {
    ghost from_gives = { λ _ e. e ≡ Memory };

    fn from(_e: AllocFailed<T>) -> RunError {
        RunError::Memory
    }
}
