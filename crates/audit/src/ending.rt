ghost use Rattle.std.specs.Prelude.{◌≡◌, ◌≢◌, ℕ, List, Option, IfOk, string_bytes};
ghost use Rattle.ens_base.specs.declared.status.Status.{Status};
ghost use Rattle.history_record.specs.Reading.{first_stage};
ghost use Rattle.audit.specs.Endings.{IsUnread};
ghost use Rattle.audit.specs.Reading.{Refuses};

use crate::read::ReadError;
use ens_base::Status;
use schedule_input::Ending;
use std::alloc::{AllocError, Global};

/// Returns the ending of an audit that could not read a record. Fails when out of memory, and for
/// `ReadError::Memory`.
pub fn unread(alloc: Global, error: ReadError) -> Result<Ending, AllocError>
    ensures printed { IfOk result (λ e. (source : Option (List ℕ)) → Refuses source first_stage error → IsUnread source e.status (string_bytes e.text)) }
    ensures status { IfOk result (λ e. (e.status ≢ Status.Done) × (e.status ≡ Status.ReadFault → error ≡ ReadError.Failed)) }
{
    match error {
        ReadError::Failed => Ending::new(alloc, Status::ReadFault, "read fault\n"),
        ReadError::Bad { line, cause } => Ok(Ending {
            status: Status::Schedule,
            text: format!(in alloc; "schedule {line} {cause}\n")?,
        }),
        ReadError::Lines => Ending::new(alloc, Status::Limit, "limit lines 200000\n"),
        ReadError::Memory => Err(AllocError),
    }
}
