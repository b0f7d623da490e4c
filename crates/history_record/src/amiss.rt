ghost use Rattle.std.specs.Prelude.{◌≡◌, ℕ, List, IfOk, map, nat_eq};
ghost use Rattle.std.specs.BTreeSet.{contains};
ghost use Rattle.std.specs.Ordering.{nat_cmp};
ghost use Rattle.indexmap.specs.IndexMap.{get};
ghost use Rattle.ens_base.specs.Lists.{AreDistinct, is_in};
ghost use Rattle.register_checker.specs.Places.{ArePlaces};
ghost use Rattle.history_record.specs.Clauses.{first_amiss_in, is_amiss};

use crate::answers::{was_done, was_refused};
use register_checker::{Places, RunError};
use register_model::Answer;
use std::alloc::Global;
use std::collections::BTreeSet;

/// Returns the ids as a set.
fn set_of(alloc: Global, ids: &[u64]) -> Result<BTreeSet<u64>, RunError>
    ensures set { IfOk result (λ s. (id : ℕ) → contains nat_cmp s id ≡ is_in ids.now id) }
{
    let mut set = BTreeSet::new(alloc);
    for id in ids {
        set.insert(*id)?;
    }
    Ok(set)
}

/// Returns whether the call with this id was completed and does not occur, or was refused and occurs.
fn is_amiss(answers: &[Answer], places: &Places, occurs: bool, id: u64) -> bool
    requires places { ArePlaces (get nat_eq places.now.at) (map (λ a. a.id) answers.now) }
    requires once { AreDistinct (map (λ a. a.id) answers.now) }
    ensures { (order : List ℕ) → is_in order id ≡ occurs → result ≡ is_amiss answers.now order id }
{
    if occurs {
        was_refused(answers, places, id)
    } else {
        was_done(answers, places, id)
    }
}

/// Returns the first of these ids whose call was completed and does not occur in the order, or was refused
/// and occurs.
pub(crate) fn first_amiss(
    alloc: Global,
    answers: &[Answer],
    places: &Places,
    ids: &[u64],
    order: &[u64],
) -> Result<Option<u64>, RunError>
    requires places { ArePlaces (get nat_eq places.now.at) (map (λ a. a.id) answers.now) }
    requires once { AreDistinct (map (λ a. a.id) answers.now) }
    ensures found { IfOk result (λ found. found ≡ first_amiss_in answers.now order.now ids.now) }
{
    let occurring = set_of(alloc, order)?;
    for id in ids {
        if is_amiss(answers, places, occurring.contains(id), *id) {
            return Ok(Some(*id));
        }
    }
    Ok(None)
}
