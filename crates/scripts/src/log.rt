ghost use Rattle.std.specs.Prelude.{◌≡◌, ◌≤◌, ◌+◌, ℕ, [], OnOk, vec_len, vec_capacity};
ghost use Rattle.std.specs.BTreeSet.{contains};
ghost use Rattle.std.specs.List.{list_any};
ghost use Rattle.std.specs.Ordering.{nat_cmp};
ghost use Rattle.scripts.specs.Progress.{Admits, Logs, has_id};

use crate::event::RootEvent;
use ens_base::Seq;
use lexemes::{Cause, WordError};
use std::alloc::Global;
use std::collections::BTreeSet;

/// Events in order, whose calls have distinct ids.
#[derive(Drop)]
pub(crate) struct RootLog {
    pub(crate) events: Vec<RootEvent>,
    ids: BTreeSet<u64>,
    ghost known: { (id : ℕ) → contains nat_cmp ids id ≡ list_any (has_id id) events.items },
}

// Makes room for one more event, and takes in the id of a call, unless it came before.
fn admit(
    events: &mut Vec<RootEvent>,
    ids: &mut BTreeSet<u64>,
    id: Option<u64>,
) -> Result<(), WordError>
    ensures events { events.new.items ≡ events.old.items }
    ensures room { OnOk result (vec_len events.new + 1 ≤ vec_capacity events.new) }
    ensures ids { Admits (contains nat_cmp ids.old) id (contains nat_cmp ids.new) result }
{
    events.reserve(1)?;
    if let Some(id) = id {
        let is_new = ids.insert(id)?;
        if !is_new {
            return Err(WordError::Bad(Cause::Repeated));
        }
    }
    Ok(())
}

impl RootLog {
    /// No event.
    pub(crate) fn new(alloc: Global) -> RootLog
        ensures { result.events.items ≡ [] }
    {
        RootLog {
            events: Vec::new(alloc),
            ids: BTreeSet::new(alloc),
        }
    }

    /// Adds the event at the end, unless it is a call whose id came before.
    pub(crate) fn push(&mut self, event: RootEvent) -> Result<(), WordError>
        ensures { Logs self.old.events.items event self.new.events.items result }
    {
        admit(&mut self.events, &mut self.ids, event.id())?;
        self.events.push(event).unwrap();
        Ok(())
    }

    /// The events.
    pub(crate) fn into_events(self) -> Seq<RootEvent>
        ensures { result ≡ self.events.items }
    {
        let RootLog { events, ids: _ids } = self;
        Seq::new(events)
    }
}
