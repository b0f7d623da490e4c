ghost use Rattle.std.specs.Prelude.{◌≡◌, ◌≤◌, ℕ, List, None, IfOk, IfNone, IfSome, length, map, nat_eq};
ghost use Rattle.indexmap.specs.IndexMap.{get};
ghost use Rattle.ens_base.specs.Lists.{AreDistinct, bytes_cmp};
ghost use Rattle.register_model.specs.Histories.{IsLegal};
ghost use Rattle.register_checker.specs.Places.{ArePlaces};
ghost use Rattle.history_record.specs.Clauses.{IsFault, KeepsThree, first_late, ids_on};
ghost use Rattle.history_record.specs.Faults.{AreFaults, ComeBefore, IsFaultOf, IsInNone};
ghost use Rattle.history_record.specs.Lookups.{list_at};

use crate::amiss::first_amiss;
use crate::fault::Fault;
use crate::groups::ids_by_key;
use crate::late::first_late;
use crate::lists::Lists;
use crate::stray::first_stray;
use ens_base::Key;
use register_checker::{Places, RunError, first_astray, places_of_answers, places_of_calls};
use register_model::{Answer, Call, History};
use std::alloc::Global;

/// Finds the calls and the answers by their ids, and the calls on each key.
#[derive(Drop)]
pub(crate) struct Index {
    pub(crate) calls: Places,
    pub(crate) answers: Places,
    pub(crate) ids: Lists<Key, u64>,
}

impl Index {
    /// Makes the index of the calls and the answers. Fails only when out of memory.
    fn new(alloc: Global, calls: &[Call], answers: &[Answer]) -> Result<Index, RunError>
        requires calls { AreDistinct (map (λ c. c.id) calls.now) }
        requires answers { AreDistinct (map (λ a. a.id) answers.now) }
        ensures call_places { IfOk result (λ i. ArePlaces (get nat_eq i.calls.at) (map (λ c. c.id) calls.now)) }
        ensures answer_places { IfOk result (λ i. ArePlaces (get nat_eq i.answers.at) (map (λ a. a.id) answers.now)) }
        ensures ids { IfOk result (λ i. (key : List ℕ) → list_at bytes_cmp i.ids.lists key ≡ ids_on calls.now key) }
    {
        Ok(Index {
            calls: places_of_calls(alloc, calls)?,
            answers: places_of_answers(alloc, answers)?,
            ids: ids_by_key(alloc, calls)?,
        })
    }
}

/// Returns the first clause that the history violates, and the id at which it does.
fn clause_of(
    alloc: Global,
    calls: &[Call],
    answers: &[Answer],
    index: &Index,
    history: &History,
) -> Result<Option<(u8, u64)>, RunError>
    requires calls { AreDistinct (map (λ c. c.id) calls.now) }
    requires answers { AreDistinct (map (λ a. a.id) answers.now) }
    requires call_places { ArePlaces (get nat_eq index.now.calls.at) (map (λ c. c.id) calls.now) }
    requires answer_places { ArePlaces (get nat_eq index.now.answers.at) (map (λ a. a.id) answers.now) }
    requires ids { (key : List ℕ) → list_at bytes_cmp index.now.ids.lists key ≡ ids_on calls.now key }
    ensures none { IfOk result (λ o. IfNone o (KeepsThree calls.now answers.now history.now.key history.now.calls × (first_late calls.now answers.now history.now.calls ≡ None))) }
    ensures some { IfOk result (λ o. IfSome o (λ x. IsFault calls.now answers.now history.now.key history.now.calls x.0 x.1)) }
{
    let order = history.calls.as_slice();
    if let Some(id) = first_stray(alloc, calls, &index.calls, &history.key, order)? {
        return Ok(Some((1, id)));
    }
    let on_key = index.ids.of(&history.key);
    if let Some(id) = first_amiss(alloc, answers, &index.answers, on_key, order)? {
        return Ok(Some((2, id)));
    }
    if let Some(place) = first_astray(alloc, calls, &index.calls, answers, &index.answers, order)? {
        return Ok(Some((3, order[place])));
    }
    match first_late(calls, &index.calls, answers, &index.answers, order) {
        Some(id) => Ok(Some((4, id))),
        None => Ok(None),
    }
}

/// Returns the fault of the history, if it is not legal.
fn fault_of(
    alloc: Global,
    calls: &[Call],
    answers: &[Answer],
    index: &Index,
    history: &History,
) -> Result<Option<Fault>, RunError>
    requires calls { AreDistinct (map (λ c. c.id) calls.now) }
    requires answers { AreDistinct (map (λ a. a.id) answers.now) }
    requires in_order { ComeBefore calls.now answers.now }
    requires call_places { ArePlaces (get nat_eq index.now.calls.at) (map (λ c. c.id) calls.now) }
    requires answer_places { ArePlaces (get nat_eq index.now.answers.at) (map (λ a. a.id) answers.now) }
    requires ids { (key : List ℕ) → list_at bytes_cmp index.now.ids.lists key ≡ ids_on calls.now key }
    ensures none { IfOk result (λ o. IfNone o (IsLegal calls.now answers.now history.now.key history.now.calls)) }
    ensures some { IfOk result (λ o. IfSome o (IsFaultOf calls.now answers.now history.now)) }
{
    match clause_of(alloc, calls, answers, index, history)? {
        Some((clause, id)) => {
            let key = history.key.copy(alloc)?;
            Ok(Some(Fault { key, clause, id }))
        }
        None => Ok(None),
    }
}

/// Returns the faults of the histories, in their order.
fn faults_in(
    alloc: Global,
    calls: &[Call],
    answers: &[Answer],
    index: &Index,
    histories: &[History],
) -> Result<Vec<Fault>, RunError>
    requires calls { AreDistinct (map (λ c. c.id) calls.now) }
    requires answers { AreDistinct (map (λ a. a.id) answers.now) }
    requires in_order { ComeBefore calls.now answers.now }
    requires call_places { ArePlaces (get nat_eq index.now.calls.at) (map (λ c. c.id) calls.now) }
    requires answer_places { ArePlaces (get nat_eq index.now.answers.at) (map (λ a. a.id) answers.now) }
    requires ids { (key : List ℕ) → list_at bytes_cmp index.now.ids.lists key ≡ ids_on calls.now key }
    ensures faults { IfOk result (λ faults. AreFaults calls.now answers.now histories.now faults.items) }
{
    let mut faults = Vec::new(alloc);
    for history in histories {
        if let Some(fault) = fault_of(alloc, calls, answers, index, history)? {
            faults.push(fault)?;
        }
    }
    Ok(faults)
}

/// Returns the faults of the histories, in their order: for each history that is not legal the first clause
/// that it violates, and the id at which it does. If each key has one history, the keys without a fault are
/// exactly those whose history is legal.
///
/// The calls must have distinct ids, and each at most one answer, which comes no earlier than its call. The
/// cost grows with the calls and the answers, and for each history with its length and the calls on its
/// key, beside that of `first_astray`. Fails only when out of memory.
pub fn faults_of(
    alloc: Global,
    calls: &[Call],
    answers: &[Answer],
    histories: &[History],
) -> Result<Vec<Fault>, RunError>
    requires calls { AreDistinct (map (λ c. c.id) calls.now) }
    requires answers { AreDistinct (map (λ a. a.id) answers.now) }
    requires in_order { ComeBefore calls.now answers.now }
    ensures faults { IfOk result (λ faults. AreFaults calls.now answers.now histories.now faults.items) }
    ensures few { IfOk result (λ faults. length faults.items ≤ length histories.now) }
    ensures legal { IfOk result (λ faults. IsInNone calls.now answers.now histories.now faults.items) }
{
    let index = Index::new(alloc, calls, answers)?;
    faults_in(alloc, calls, answers, &index, histories)
}
