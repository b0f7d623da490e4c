ghost use Rattle.std.specs.Prelude.{◌≡◌, ◌↔◌, ◌⊎◌, ◌<◌, IfSome, IsNone};
ghost use Rattle.lexemes.specs.Causes.{cause_number};

use ens_base::LengthError;
use std::alloc::{AllocError, AllocFailed};
use thiserror::Error;

/// Why a line of a schedule is rejected. The causes are numbered from 1 in this order.
#[derive(Clone, Copy, Debug, PartialEq, Eq, Error)]
pub enum Cause {
    /// The line has more than 4,400 bytes.
    #[error("the line has more than 4400 bytes")]
    TooLong,
    /// The input ends inside the line.
    #[error("the input ends inside the line")]
    Unfinished,
    /// One of the first three lines does not have its form, or the input ends before it.
    #[error("one of the three lines of the heading is missing or malformed")]
    Heading,
    /// The first word, or the command of a call, is unknown.
    #[error("the first word or the command of a call is unknown")]
    Unknown,
    /// The number of words is wrong, or a word is empty.
    #[error("the number of words is wrong, or a word is empty")]
    Words,
    /// A number, version, level, index or fixed word is malformed or out of range.
    #[error("a number, version, level, index or fixed word is malformed or out of range")]
    Number,
    /// Bytes are malformed, or their length is out of range.
    #[error("bytes are malformed, or their length is out of range")]
    Bytes,
    /// The number of a peer or a list of members is malformed or out of range.
    #[error("the number of a peer or a list of members is malformed or out of range")]
    Peers,
    /// An earlier call has the same id.
    #[error("an earlier call has the same id")]
    Repeated,
}

impl Cause {
    /// The number by which the cause is printed, from 1 to 9.
    pub fn number(self) -> u8
        ensures { result ≡ cause_number self }
    {
        match self {
            Cause::TooLong => 1,
            Cause::Unfinished => 2,
            Cause::Heading => 3,
            Cause::Unknown => 4,
            Cause::Words => 5,
            Cause::Number => 6,
            Cause::Bytes => 7,
            Cause::Peers => 8,
            Cause::Repeated => 9,
        }
    }

    /// The cause with this number, if there is one.
    pub fn from_number(number: u8) -> Option<Cause>
        ensures known { IfSome result (λ cause. cause_number cause ≡ number) }
        ensures unknown { IsNone result ↔ ((number < 1) ⊎ (9 < number)) }
    {
        match number {
            1 => Some(Cause::TooLong),
            2 => Some(Cause::Unfinished),
            3 => Some(Cause::Heading),
            4 => Some(Cause::Unknown),
            5 => Some(Cause::Words),
            6 => Some(Cause::Number),
            7 => Some(Cause::Bytes),
            8 => Some(Cause::Peers),
            9 => Some(Cause::Repeated),
            _ => None,
        }
    }
}

/// Why a word was not read.
#[derive(Clone, Copy, Debug, PartialEq, Eq, Error)]
pub enum WordError {
    /// The word is rejected, for this cause.
    #[error("{0}")]
    Bad(Cause),
    /// Memory ran out.
    #[error("out of memory")]
    Memory,
}

impl From<Cause> for WordError {
    ghost use Rattle.lexemes.specs.declared.cause.WordError.TheVariants.{Bad};

    ghost from_gives = { λ cause e. e ≡ Bad cause };

    fn from(cause: Cause) -> WordError {
        WordError::Bad(cause)
    }
}

impl From<AllocError> for WordError {
    ghost use Rattle.lexemes.specs.declared.cause.WordError.TheVariants.{Memory};

    ghost from_gives = { λ _ e. e ≡ Memory };

    fn from(_e: AllocError) -> WordError {
        WordError::Memory
    }
}

impl<T: Drop> From<AllocFailed<T>> for WordError {
    ghost use Rattle.lexemes.specs.declared.cause.WordError.TheVariants.{Memory};

    ghost from_gives = { λ _ e. e ≡ Memory };

    fn from(_e: AllocFailed<T>) -> WordError {
        WordError::Memory
    }
}

impl From<LengthError> for WordError {
    ghost use Rattle.lexemes.specs.Causes.{length_cause};

    ghost from_gives = { λ e w. w ≡ length_cause e };

    fn from(e: LengthError) -> WordError {
        match e {
            LengthError::Length(_) => WordError::Bad(Cause::Bytes),
            LengthError::Memory => WordError::Memory,
        }
    }
}
