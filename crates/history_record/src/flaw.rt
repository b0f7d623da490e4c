ghost use Rattle.std.specs.Prelude.{◌≡◌};
ghost use Rattle.history_record.specs.Flaws.{flaw_number};

use lexemes::{Cause, WordError};
use std::alloc::{AllocError, AllocFailed};

/// Why a line behind the line `answers` is rejected. The flaws are numbered from 10 in this order, and the
/// first that applies is named.
#[derive(Clone, Copy, Debug, PartialEq, Eq)]
pub(crate) enum Flaw {
    /// The line has more than 8,388,608 bytes, or the input ends inside it.
    Cut,
    /// The first word is not `answer`, `change` or `history`, or a history line came before and it is not
    /// `history`.
    Keyword,
    /// The number of words is wrong, or a word is empty.
    Words,
    /// A number, stamp, byte string or fixed word is malformed or out of range.
    Form,
    /// No call without an answer has the id; or no change without a line is at this event and peer.
    Subject,
    /// The event is before that of the call or of the line before, or after the last event.
    Time,
    /// The key is not the next key of the calls, or the input ends where a line is missing.
    Key,
}

impl Flaw {
    /// The number by which the flaw is printed, from 10 to 16.
    pub(crate) fn number(self) -> u8
        ensures { result ≡ flaw_number self }
    {
        match self {
            Flaw::Cut => 10,
            Flaw::Keyword => 11,
            Flaw::Words => 12,
            Flaw::Form => 13,
            Flaw::Subject => 14,
            Flaw::Time => 15,
            Flaw::Key => 16,
        }
    }
}

/// Why a line was not read.
#[derive(Clone, Copy, Debug, PartialEq, Eq)]
pub(crate) enum LineError {
    /// The line is rejected, for this flaw.
    Flawed(Flaw),
    /// Out of memory.
    Memory,
}

impl From<Flaw> for LineError {
    ghost use Rattle.history_record.specs.declared.flaw.LineError.TheVariants.{Flawed};

    ghost from_gives = { λ flaw e. e ≡ Flawed flaw };

    fn from(flaw: Flaw) -> LineError {
        LineError::Flawed(flaw)
    }
}

impl From<WordError> for LineError {
    ghost use Rattle.history_record.specs.Flaws.{form_error};

    ghost from_gives = { λ e r. r ≡ form_error e };

    fn from(e: WordError) -> LineError {
        match e {
            WordError::Bad(_) => LineError::Flawed(Flaw::Form),
            WordError::Memory => LineError::Memory,
        }
    }
}

impl From<Cause> for LineError {
    ghost use Rattle.history_record.specs.declared.flaw.Flaw.TheVariants.{Form};
    ghost use Rattle.history_record.specs.declared.flaw.LineError.TheVariants.{Flawed};

    ghost from_gives = { λ _ e. e ≡ Flawed Form };

    fn from(_cause: Cause) -> LineError {
        LineError::Flawed(Flaw::Form)
    }
}

impl From<AllocError> for LineError {
    ghost use Rattle.history_record.specs.declared.flaw.LineError.TheVariants.{Memory};

    ghost from_gives = { λ _ e. e ≡ Memory };

    fn from(_e: AllocError) -> LineError {
        LineError::Memory
    }
}

impl<T: Drop> From<AllocFailed<T>> for LineError {
    ghost use Rattle.history_record.specs.declared.flaw.LineError.TheVariants.{Memory};

    ghost from_gives = { λ _ e. e ≡ Memory };

    fn from(_e: AllocFailed<T>) -> LineError {
        LineError::Memory
    }
}
