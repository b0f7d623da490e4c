ghost use Rattle.std.specs.Prelude.{◌≡◌, ◌&&◌, nat_lt, ℕ, map, nat_eq};
ghost use Rattle.indexmap.specs.IndexMap.{get};
ghost use Rattle.ens_base.specs.Lists.{AreDistinct};
ghost use Rattle.register_model.specs.Histories.{is_done};
ghost use Rattle.register_checker.specs.Places.{ArePlaces};
ghost use Rattle.history_record.specs.Clauses.{is_call_on, was_done, was_done_before, was_refused};
ghost use Rattle.history_record.specs.Lookups.{is_before};

use ens_base::Key;
use register_checker::{Places, answer_of, call_of};
use register_model::{Answer, Call, is_done, is_refused};

/// Returns whether the call with this id was completed.
pub(crate) fn was_done(answers: &[Answer], places: &Places, id: u64) -> bool
    requires places { ArePlaces (get nat_eq places.now.at) (map (λ a. a.id) answers.now) }
    requires once { AreDistinct (map (λ a. a.id) answers.now) }
    ensures { result ≡ was_done answers.now id }
{
    match answer_of(answers, places, id) {
        Some(answer) => is_done(&answer.reply),
        None => false,
    }
}

/// Returns whether the call with this id was refused.
pub(crate) fn was_refused(answers: &[Answer], places: &Places, id: u64) -> bool
    requires places { ArePlaces (get nat_eq places.now.at) (map (λ a. a.id) answers.now) }
    requires once { AreDistinct (map (λ a. a.id) answers.now) }
    ensures { result ≡ was_refused answers.now id }
{
    match answer_of(answers, places, id) {
        Some(answer) => is_refused(&answer.reply),
        None => false,
    }
}

/// Returns the event at which the answer completed the call.
fn event_if_done(answer: &Answer) -> Option<u64>
    ensures { (event : ℕ) → is_before result event ≡ (is_done answer.now.reply && nat_lt answer.now.event event) }
{
    if is_done(&answer.reply) {
        Some(answer.event)
    } else {
        None
    }
}

/// Returns the event at which the call with this id was completed.
pub(crate) fn done_at(answers: &[Answer], places: &Places, id: u64) -> Option<u64>
    requires places { ArePlaces (get nat_eq places.now.at) (map (λ a. a.id) answers.now) }
    requires once { AreDistinct (map (λ a. a.id) answers.now) }
    ensures { (event : ℕ) → was_done_before answers.now event id ≡ is_before result event }
{
    match answer_of(answers, places, id) {
        Some(answer) => event_if_done(answer),
        None => None,
    }
}

/// Returns whether the id is that of a call on the key.
pub(crate) fn is_call_on(calls: &[Call], places: &Places, key: &Key, id: u64) -> bool
    requires places { ArePlaces (get nat_eq places.now.at) (map (λ c. c.id) calls.now) }
    requires once { AreDistinct (map (λ c. c.id) calls.now) }
    ensures { result ≡ is_call_on calls.now key.now id }
{
    match call_of(calls, places, id) {
        Some(call) => call.key == *key,
        None => false,
    }
}
