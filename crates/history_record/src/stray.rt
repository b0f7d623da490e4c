ghost use Rattle.std.specs.Prelude.{◌≡◌, ◌||◌, not, Some, if◌then◌else◌, IfOk, map, nat_eq};
ghost use Rattle.indexmap.specs.IndexMap.{get};
ghost use Rattle.ens_base.specs.Lists.{AreDistinct};
ghost use Rattle.register_checker.specs.Places.{ArePlaces};
ghost use Rattle.history_record.specs.Clauses.{first_stray, is_call_on};

use crate::answers::is_call_on;
use ens_base::Key;
use register_checker::{Places, RunError};
use register_model::Call;
use std::alloc::Global;
use std::collections::BTreeSet;

/// Returns the id if it is the first so far, of a list that is walked from its end.
pub(crate) fn or_found(is_first: bool, id: u64, found: Option<u64>) -> Option<u64>
    ensures { result ≡ (if is_first then Some id else found) }
{
    if is_first { Some(id) } else { found }
}

/// Returns whether the id occurs again, or is not that of a call on the key.
fn is_stray(calls: &[Call], places: &Places, key: &Key, id: u64, is_last: bool) -> bool
    requires places { ArePlaces (get nat_eq places.now.at) (map (λ c. c.id) calls.now) }
    requires once { AreDistinct (map (λ c. c.id) calls.now) }
    ensures { result ≡ (not is_last || not (is_call_on calls.now key.now id)) }
{
    !is_last || !is_call_on(calls, places, key, id)
}

/// Returns the first id of the order that occurs again, or is not that of a call on the key. The calls must
/// have distinct ids. Fails only when out of memory.
pub fn first_stray(
    alloc: Global,
    calls: &[Call],
    places: &Places,
    key: &Key,
    order: &[u64],
) -> Result<Option<u64>, RunError>
    requires places { ArePlaces (get nat_eq places.now.at) (map (λ c. c.id) calls.now) }
    requires once { AreDistinct (map (λ c. c.id) calls.now) }
    ensures found { IfOk result (λ found. found ≡ first_stray calls.now key.now order.now) }
{
    let mut behind = BTreeSet::new(alloc);
    let mut found = None;
    let mut place = order.len();
    while place > 0 {
        place -= 1;
        let id = order[place];
        let is_last = behind.insert(id)?;
        found = or_found(is_stray(calls, places, key, id, is_last), id, found);
    }
    Ok(found)
}
