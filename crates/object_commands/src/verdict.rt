ghost use Rattle.std.specs.Prelude.{◌≡◌};
ghost use Rattle.object_commands.specs.declared.verdict.CommandError.TheVariants.{Memory};

use ens_base::{CopyError, Reply, Value};
use std::alloc::{AllocError, AllocFailed};

/// The outcome of a command.
#[derive(Debug, PartialEq, Eq, Drop)]
pub enum Verdict {
    /// The command leaves the register unchanged, and this is its reply.
    Answer(Reply),
    /// The command writes this value, or a tombstone if there is none.
    Write(Option<Value>),
}

/// Why a command was not applied.
#[derive(Clone, Copy, Debug, PartialEq, Eq)]
pub enum CommandError {
    /// Out of memory.
    Memory,
}

impl From<CopyError> for CommandError {
    ghost from_gives = { λ _ e. e ≡ Memory };

    fn from(_e: CopyError) -> CommandError {
        CommandError::Memory
    }
}

impl From<AllocError> for CommandError {
    ghost from_gives = { λ _ e. e ≡ Memory };

    fn from(_e: AllocError) -> CommandError {
        CommandError::Memory
    }
}

impl<T: Drop> From<AllocFailed<T>> for CommandError {
    ghost from_gives = { λ _ e. e ≡ Memory };

    fn from(_e: AllocFailed<T>) -> CommandError {
        CommandError::Memory
    }
}
