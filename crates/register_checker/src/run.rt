ghost use Rattle.std.specs.Prelude.{◌↔◌, map, nat_eq, IsTrue, IfOk, IfNone, IfSome};
ghost use Rattle.indexmap.specs.IndexMap.{get};
ghost use Rattle.ens_base.specs.Lists.{AreDistinct};
ghost use Rattle.register_model.specs.Histories.{IsRun};
ghost use Rattle.register_checker.specs.Places.{ArePlaces};
ghost use Rattle.register_checker.specs.Prefixes.{StopsAt};

use crate::error::RunError;
use crate::places::{Places, call_of, places_of_answers, places_of_calls, reply_of};
use crate::walk::Walk;
use register_model::{Answer, Call};
use std::alloc::Global;

/// Returns the position in the order of the call at which it stops being a run of one register that is
/// absent at first: the calls before this one are a run, and those up to it are none. Returns `None` if
/// the whole order is a run.
///
/// The calls must have distinct ids, and each at most one answer; the places are those of their ids, so
/// that many orders can be tested over one set of calls. An id that no call has is in no run. Fails only
/// when out of memory.
pub fn first_astray(
    alloc: Global,
    calls: &[Call],
    call_places: &Places,
    answers: &[Answer],
    answer_places: &Places,
    order: &[u64],
) -> Result<Option<usize>, RunError>
    requires calls { AreDistinct (map (λ c. c.id) calls.now) }
    requires answers { AreDistinct (map (λ a. a.id) answers.now) }
    requires call_places { ArePlaces (get nat_eq call_places.now.at) (map (λ c. c.id) calls.now) }
    requires answer_places { ArePlaces (get nat_eq answer_places.now.at) (map (λ a. a.id) answers.now) }
    ensures none { IfOk result (λ o. IfNone o (IsRun calls.now answers.now order.now)) }
    ensures some { IfOk result (λ o. IfSome o (StopsAt calls.now answers.now order.now)) }
{
    let mut walk = Walk::new(alloc)?;
    for (place, id) in order.iter().enumerate() {
        match call_of(calls, call_places, *id) {
            None => return Ok(Some(place)),
            Some(call) => {
                let reply = reply_of(answers, answer_places, *id);
                walk.pass(alloc, &call.command, reply)?;
            }
        }
        if walk.possible.is_empty() {
            return Ok(Some(place));
        }
    }
    Ok(None)
}

/// Returns whether the calls with these ids, in this order, are a run of one register that is
/// absent at first. Each call must be a step by the definition of the register: with the reply of
/// its answer, if that completed the call (a value, not found, ok or failed), and otherwise with
/// any reply.
///
/// The calls must have distinct ids, and each at most one answer. An id that no call has is in no
/// run. Fails only when out of memory.
pub fn is_run(
    alloc: Global,
    calls: &[Call],
    answers: &[Answer],
    order: &[u64],
) -> Result<bool, RunError>
    requires calls { AreDistinct (map (λ c. c.id) calls.now) }
    requires answers { AreDistinct (map (λ a. a.id) answers.now) }
    ensures { IfOk result (λ b. IsTrue b ↔ IsRun calls.now answers.now order.now) }
{
    let call_places = places_of_calls(alloc, calls)?;
    let answer_places = places_of_answers(alloc, answers)?;
    let stop = first_astray(alloc, calls, &call_places, answers, &answer_places, order)?;
    match stop {
        None => Ok(true),
        Some(_place) => Ok(false),
    }
}
