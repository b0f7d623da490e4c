ghost use Rattle.std.specs.Prelude.{◌≡◌, ◌≢◌, ℕ, List, Option, None, IfOk, MatchOption, string_bytes};
ghost use Rattle.ens_base.specs.declared.status.Status.{Status};
ghost use Rattle.schedule_input.specs.Premise.{first_unsound};
ghost use Rattle.schedule_text.specs.Progress.{Blank};
ghost use Rattle.schedule_text.specs.Spelling.{IsSchedule};
ghost use Rattle.schedule_input.specs.Endings.{IsPremiseText, IsUnread};
ghost use Rattle.schedule_input.specs.Reading.{Refuses};

use crate::read::ReadError;
use crate::search::premise;
use crate::text::write_premise;
use ens_base::Status;
use schedule_text::Schedule;
use std::alloc::{AllocError, Global};

/// The end of a job: its status, and the text that it prints.
#[derive(Drop)]
pub struct Ending {
    /// The status.
    pub status: Status,
    /// The text to print.
    pub text: String,
}

impl Ending {
    /// Makes an ending with a copy of this text.
    pub fn new(alloc: Global, status: Status, text: &str) -> Result<Ending, AllocError>
        ensures { IfOk result (λ e. (e.status ≡ status) × (string_bytes e.text ≡ text.now)) }
    {
        let text = String::from_str(alloc, text)?;
        Ok(Ending { status, text })
    }

    /// Returns the ending of a job that could not read a schedule. Fails when out of memory, and
    /// for `ReadError::Memory`.
    pub fn unread(alloc: Global, error: ReadError) -> Result<Ending, AllocError>
        ensures printed { IfOk result (λ e. (source : Option (List ℕ)) → Refuses source Blank error → IsUnread source e.status (string_bytes e.text)) }
        ensures status { IfOk result (λ e. (e.status ≢ Status.Done) × (e.status ≡ Status.ReadFault → error ≡ ReadError.Failed)) }
    {
        match error {
            ReadError::Failed => Ending::new(alloc, Status::ReadFault, "read fault\n"),
            ReadError::Bad { line, cause } => Ok(Ending {
                status: Status::Schedule,
                text: format!(in alloc; "schedule {line} {cause}\n")?,
            }),
            ReadError::Lines => Ending::new(alloc, Status::Limit, "limit lines 200000\n"),
            ReadError::Memory => Err(AllocError),
        }
    }

    /// Returns the ending of a job whose schedule fails the premise on reverted trees: the line that
    /// reports the first such view. Returns `None` for a sound schedule.
    pub fn unsound(alloc: Global, schedule: &Schedule) -> Result<Option<Ending>, AllocError>
        requires { IsSchedule schedule.now }
        ensures { IfOk result (λ o. MatchOption o (first_unsound schedule.now ≡ None) (λ e. (e.status ≡ Status.Premise) × IsPremiseText schedule.now (string_bytes e.text))) }
    {
        match premise(schedule) {
            Some(unsound) => Ok(Some(Ending {
                status: Status::Premise,
                text: write_premise(alloc, &unsound)?,
            })),
            None => Ok(None),
        }
    }
}
