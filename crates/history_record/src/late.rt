ghost use Rattle.std.specs.Prelude.{◌≡◌, ◌&&◌, ◌||◌, ◌==◌, ℕ, map, nat_eq};
ghost use Rattle.std.specs.List.{list_any};
ghost use Rattle.indexmap.specs.IndexMap.{get};
ghost use Rattle.ens_base.specs.Lists.{AreDistinct};
ghost use Rattle.register_checker.specs.Places.{ArePlaces};
ghost use Rattle.history_record.specs.Clauses.{first_late};
ghost use Rattle.history_record.specs.Lookups.{is_before};

use crate::answers::done_at;
use crate::stray::or_found;
use register_checker::{Places, call_of};
use register_model::{Answer, Call};

/// Returns the earlier of two events.
#[tactic(auto, using(crate::proofs::Walks::min_before, crate::proofs::Lookups::or_false))]
fn earlier(first: Option<u64>, second: Option<u64>) -> Option<u64>
    ensures { (event : ℕ) → is_before result event ≡ (is_before first event || is_before second event) }
{
    match (first, second) {
        (Some(a), Some(b)) => Some(a.min(b)),
        (Some(a), None) => Some(a),
        (None, _) => second,
    }
}

/// Returns whether there is an event, and it is before this one.
fn is_before(event: Option<u64>, limit: u64) -> bool
    ensures { result ≡ is_before event limit }
{
    match event {
        Some(event) => event < limit,
        None => false,
    }
}

/// Returns whether the call with this id began after the event.
fn began_after(calls: &[Call], places: &Places, id: u64, event: Option<u64>) -> bool
    requires places { ArePlaces (get nat_eq places.now.at) (map (λ c. c.id) calls.now) }
    requires once { AreDistinct (map (λ c. c.id) calls.now) }
    ensures { result ≡ list_any (λ c. c.id == id && is_before event c.event) calls.now }
{
    match call_of(calls, places, id) {
        Some(call) => is_before(event, call.event),
        None => false,
    }
}

/// Returns the first id of the order whose call began after a call behind it had been completed.
pub(crate) fn first_late(
    calls: &[Call],
    call_places: &Places,
    answers: &[Answer],
    answer_places: &Places,
    order: &[u64],
) -> Option<u64>
    requires calls { AreDistinct (map (λ c. c.id) calls.now) }
    requires answers { AreDistinct (map (λ a. a.id) answers.now) }
    requires call_places { ArePlaces (get nat_eq call_places.now.at) (map (λ c. c.id) calls.now) }
    requires answer_places { ArePlaces (get nat_eq answer_places.now.at) (map (λ a. a.id) answers.now) }
    ensures { result ≡ first_late calls.now answers.now order.now }
{
    let mut earliest = None;
    let mut found = None;
    let mut place = order.len();
    while place > 0 {
        place -= 1;
        let id = order[place];
        let is_late = began_after(calls, call_places, id, earliest);
        found = or_found(is_late, id, found);
        earliest = earlier(done_at(answers, answer_places, id), earliest);
    }
    found
}
