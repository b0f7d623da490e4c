ghost use Rattle.std.specs.Prelude.{◌≡◌};
ghost use Rattle.schedule_text.specs.Errors.{error_at};
ghost use Rattle.scripts.specs.Refusals.{HasCause, line_in};

use lexemes::{Cause, WordError};
use schedule_text::ScheduleError;

/// The error of the line with this number.
pub(crate) fn at_line(line: u32, e: WordError) -> ScheduleError
    ensures { result ≡ error_at line e }
{
    match e {
        WordError::Bad(cause) => ScheduleError::Bad {
            line,
            cause: cause.number(),
        },
        WordError::Memory => ScheduleError::Memory,
    }
}

/// What is wrong with a line, from the error that names the line.
pub(crate) fn without_line(e: ScheduleError) -> WordError
    requires { HasCause e }
    ensures { e ≡ error_at (line_in e) result }
{
    match e {
        ScheduleError::Bad { cause, .. } => match Cause::from_number(cause) {
            Some(cause) => WordError::Bad(cause),
            None => unreachable!(),
        },
        ScheduleError::Lines => unreachable!(),
        ScheduleError::Memory => WordError::Memory,
    }
}
