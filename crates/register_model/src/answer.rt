ghost use Rattle.std.specs.Prelude.{◌≡◌, IfOk};

use ens_base::{CopyError, Reply};
use std::alloc::Global;

/// The answer to a call. A call has at most one answer.
#[derive(Debug, PartialEq, Eq, Drop)]
pub struct Answer {
    /// The id of the call.
    pub id: u64,
    /// The number of the event at which the answer was given.
    pub event: u64,
    /// The reply to the call.
    pub reply: Reply,
}

impl Answer {
    /// Returns a copy. Fails only when out of memory.
    pub fn copy(&self, alloc: Global) -> Result<Answer, CopyError>
        ensures { IfOk result (λ a. a ≡ self.now) }
    {
        Ok(Answer {
            id: self.id,
            event: self.event,
            reply: self.reply.copy(alloc)?,
        })
    }
}
