ghost use Rattle.std.specs.Prelude.{◌≡◌, IfOk};

use crate::answer::Answer;
use ens_base::{CopyError, PeerId};
use std::alloc::Global;

/// An item that a run prints as it goes.
#[derive(Debug, PartialEq, Eq, Drop)]
pub enum Printed {
    /// The answer to a call.
    Answer(Answer),
    /// Whether the peer took the change of view that it was asked for at this event.
    Change {
        event: u64,
        peer: PeerId,
        taken: bool,
    },
}

impl Printed {
    /// Returns a copy. Fails only when out of memory.
    pub fn copy(&self, alloc: Global) -> Result<Printed, CopyError>
        ensures { IfOk result (λ p. p ≡ self.now) }
    {
        match self {
            Printed::Answer(answer) => Ok(Printed::Answer(answer.copy(alloc)?)),
            Printed::Change { event, peer, taken } => Ok(Printed::Change {
                event: *event,
                peer: *peer,
                taken: *taken,
            }),
        }
    }
}
