ghost use Rattle.std.specs.Prelude.{◌≡◌, ◌≢◌, ◌↔◌, nat_eq, map, IsTrue, IfOk, IfSome, IfNone};
ghost use Rattle.indexmap.specs.IndexMap.{get};
ghost use Rattle.ens_base.specs.Lists.{◌∈◌, AreDistinct};
ghost use Rattle.ens_base.specs.declared.reply.Reply.{Reply as AReply};
ghost use Rattle.register_model.specs.Histories.{IsDone, MayHave};
ghost use Rattle.register_model.specs.declared.answer.Answer.{Answer as AnAnswer};
ghost use Rattle.register_model.specs.declared.call.Call.{Call as ACall};
ghost use Rattle.register_checker.specs.Places.{ArePlaces};

use crate::error::RunError;
use ens_base::Reply;
use indexmap::{IndexMap, IndexSet};
use register_model::{Answer, Call};
use std::alloc::Global;

/// The positions of ids in a list.
#[derive(Drop)]
pub struct Places {
    at: IndexMap<u64, usize>,
}

impl Places {
    /// Finds the positions of these ids.
    pub fn of(alloc: Global, ids: &[u64]) -> Result<Places, RunError>
        ensures { IfOk result (λ p. ArePlaces (get nat_eq p.at) ids.now) }
    {
        let mut at = IndexMap::new(alloc);
        for (place, id) in ids.iter().enumerate() {
            at.insert(*id, place)?;
        }
        Ok(Places { at })
    }

    /// Returns the position of an id.
    fn find(&self, id: u64) -> Option<usize>
        ensures { result ≡ get nat_eq self.now.at id }
    {
        self.at.get(&id).copied()
    }
}

/// Finds the positions of the calls, by their ids.
pub fn places_of_calls(alloc: Global, calls: &[Call]) -> Result<Places, RunError>
    ensures { IfOk result (λ p. ArePlaces (get nat_eq p.at) (map (λ c. c.id) calls.now)) }
{
    let ids = calls.iter().map(|call| call.id).collect::<Vec<u64>>(alloc)?;
    Places::of(alloc, &ids)
}

/// Finds the positions of the answers, by the ids of their calls.
pub fn places_of_answers(alloc: Global, answers: &[Answer]) -> Result<Places, RunError>
    ensures { IfOk result (λ p. ArePlaces (get nat_eq p.at) (map (λ a. a.id) answers.now)) }
{
    let ids = answers
        .iter()
        .map(|answer| answer.id)
        .collect::<Vec<u64>>(alloc)?;
    Places::of(alloc, &ids)
}

/// Returns the call with this id.
pub fn call_of<'a>(calls: &'a [Call], places: &Places, id: u64) -> Option<&'a Call>
    requires { ArePlaces (get nat_eq places.now.at) (map (λ c. c.id) calls.now) }
    ensures found { IfSome result (λ c. (c.now ∈ calls.now) × (c.now.id ≡ id)) }
    ensures none { IfNone result ((c : ACall) → c ∈ calls.now → c.id ≢ id) }
{
    match places.find(id) {
        None => None,
        Some(place) => calls.get(place),
    }
}

/// Returns the answer to the call with this id.
pub fn answer_of<'a>(answers: &'a [Answer], places: &Places, id: u64) -> Option<&'a Answer>
    requires { ArePlaces (get nat_eq places.now.at) (map (λ a. a.id) answers.now) }
    ensures found { IfSome result (λ a. (a.now ∈ answers.now) × (a.now.id ≡ id)) }
    ensures none { IfNone result ((a : AnAnswer) → a ∈ answers.now → a.id ≢ id) }
{
    match places.find(id) {
        None => None,
        Some(place) => answers.get(place),
    }
}

/// Returns the reply of the answer, if it completes its call.
fn done(answer: &Answer) -> Option<&Reply>
    ensures found { IfSome result (λ r. (r.now ≡ answer.now.reply) × IsDone answer.now.reply) }
    ensures none { IfNone result (¬ (IsDone answer.now.reply)) }
{
    match answer.reply {
        Reply::Value(_, _) => Some(&answer.reply),
        Reply::NotFound => Some(&answer.reply),
        Reply::Ok(_) => Some(&answer.reply),
        Reply::Failed => Some(&answer.reply),
        Reply::Unavailable => None,
        Reply::Busy => None,
        Reply::Lost => None,
        Reply::Timeout => None,
    }
}

/// Returns the printed reply that completed the call with this id.
pub fn reply_of<'a>(answers: &'a [Answer], places: &Places, id: u64) -> Option<&'a Reply>
    requires places { ArePlaces (get nat_eq places.now.at) (map (λ a. a.id) answers.now) }
    requires once { AreDistinct (map (λ a. a.id) answers.now) }
    ensures found { IfSome result (λ r. (reply : AReply) → MayHave answers.now id reply ↔ (reply ≡ r.now)) }
    ensures none { IfNone result ((reply : AReply) → MayHave answers.now id reply) }
{
    match places.find(id) {
        None => None,
        Some(place) => match answers.get(place) {
            None => None,
            Some(answer) => done(answer),
        },
    }
}

/// Returns whether no id occurs twice.
pub fn are_distinct(alloc: Global, ids: &[u64]) -> Result<bool, RunError>
    ensures { IfOk result (λ b. IsTrue b ↔ AreDistinct ids.now) }
{
    let mut seen = IndexSet::new(alloc);
    for id in ids {
        if !seen.insert(*id)? {
            return Ok(false);
        }
    }
    Ok(true)
}
