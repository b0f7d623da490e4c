ghost use Rattle.std.specs.Prelude.{◌≡◌};
ghost use Rattle.schedule_text.specs.Errors.{error_at};

use ens_base::MAX_LINES;
use lexemes::{Cause, WordError};
use std::error::Error;
use std::fmt;

/// Why a text was not read as a schedule, or a schedule was not written.
#[derive(Clone, Copy, Debug, PartialEq, Eq)]
pub enum ScheduleError {
    /// A line is bad: the number of the first bad line, counted from 1, and its cause, from 1 to 9.
    Bad { line: u32, cause: u8 },
    /// Line 200,001 begins, and no line before it is bad.
    Lines,
    /// Memory ran out.
    Memory,
}

impl fmt::Display for ScheduleError {
    fn fmt<W: fmt::Write>(&self, f: &mut fmt::Formatter<W>) -> fmt::Result {
        match self {
            ScheduleError::Bad { line, cause } => match Cause::from_number(*cause) {
                Some(cause) => write!(f, "line {line}: {cause}"),
                None => write!(f, "line {line} is bad"),
            },
            ScheduleError::Lines => write!(f, "the schedule has more than {MAX_LINES} lines"),
            ScheduleError::Memory => write!(f, "out of memory"),
        }
    }
}

impl Error for ScheduleError {}

impl ScheduleError {
    /// The error of the line with this number.
    pub(crate) fn at(line: u32, e: WordError) -> ScheduleError
        ensures { result ≡ error_at line e }
    {
        match e {
            WordError::Bad(cause) => ScheduleError::Bad {
                line,
                cause: cause.number(),
            },
            WordError::Memory => ScheduleError::Memory,
        }
    }
}
