ghost use Rattle.std.specs.Prelude.{◌≡◌, ℕ, []};
ghost use Rattle.std.specs.BTreeSet.{contains};
ghost use Rattle.std.specs.List.{list_any};
ghost use Rattle.std.specs.Ordering.{nat_cmp};
ghost use Rattle.schedule_text.specs.Progress.{Logs, is_call};

use crate::event::ScheduleEvent;
use ens_base::Seq;
use lexemes::{Cause, WordError};
use std::alloc::Global;
use std::collections::BTreeSet;

/// Events in order, whose calls have distinct ids.
#[derive(Drop)]
pub(crate) struct Log {
    pub(crate) events: Vec<ScheduleEvent>,
    ids: BTreeSet<u64>,
    ghost known: { (id : ℕ) → contains nat_cmp ids id ≡ list_any (is_call id) events.items },
}

impl Log {
    /// No event.
    pub(crate) fn new(alloc: Global) -> Log
        ensures { result.events.items ≡ [] }
    {
        Log {
            events: Vec::new(alloc),
            ids: BTreeSet::new(alloc),
        }
    }

    /// Adds the event at the end, unless it is a call whose id came before.
    pub(crate) fn push(&mut self, event: ScheduleEvent) -> Result<(), WordError>
        ensures { Logs self.old.events.items event self.new.events.items result }
    {
        self.events.reserve(1)?;
        if let ScheduleEvent::Call { id, .. } = &event {
            let is_new = self.ids.insert(*id)?;
            if !is_new {
                return Err(WordError::Bad(Cause::Repeated));
            }
        }
        self.events.push(event).unwrap();
        Ok(())
    }

    /// The events.
    pub(crate) fn into_events(self) -> Seq<ScheduleEvent>
        ensures { result ≡ self.events.items }
    {
        let Log { events, ids: _ids } = self;
        Seq::new(events)
    }
}
