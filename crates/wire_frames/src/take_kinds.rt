ghost use Rattle.std.specs.Prelude.{◌≡◌, ◌≤◌, length, IfOk};
ghost use Rattle.fields.specs.Reading.{Gives};
ghost use Rattle.wire_frames.specs.Messages.{probe_reply_at, prepare_at, promise_at, nack_at, new_epoch_at, accepted_at, get_at, get_reply_at, message_at};

use crate::message::Message;
use crate::take_late_kinds::take_late_message;
use crate::take_parts::{take_cause, take_optional_entry, take_optional_object};
use fields::{FieldError, take_epoch, take_key, take_u64};
use std::alloc::Global;
use stored_formats::take_fact;

#[tactic(auto, unfolding(crate::specs::Messages::probe_reply_at))]
fn take_probe_reply(bytes: &[u8], at: usize) -> Result<(Message, usize), FieldError>
    requires { at ≤ length bytes.now }
    ensures exact { probe_reply_at bytes.now at ≡ result }
    ensures within { IfOk result (λ x. x.1 ≤ length bytes.now) }
{
    match take_fact(bytes, at) {
        Ok((fact, after)) => Ok((Message::ProbeReply(fact), after)),
        Err(e) => Err(e),
    }
}

#[tactic(auto, unfolding(crate::specs::Messages::prepare_at))]
fn take_prepare(bytes: &[u8], at: usize) -> Result<(Message, usize), FieldError>
    requires { at ≤ length bytes.now }
    ensures exact { prepare_at bytes.now at ≡ result }
    ensures within { IfOk result (λ x. x.1 ≤ length bytes.now) }
{
    let (ballot, at) = take_epoch(bytes, at)?;
    Ok((Message::Prepare(ballot), at))
}

#[tactic(auto, unfolding(crate::specs::Messages::promise_at))]
fn take_promise(bytes: &[u8], at: usize) -> Result<(Message, usize), FieldError>
    requires { at ≤ length bytes.now }
    ensures exact { promise_at bytes.now at ≡ result }
    ensures within { IfOk result (λ x. x.1 ≤ length bytes.now) }
{
    let (ballot, at) = take_epoch(bytes, at)?;
    match take_fact(bytes, at) {
        Ok((fact, after)) => Ok((Message::Promise(ballot, fact), after)),
        Err(e) => Err(e),
    }
}

#[tactic(auto, unfolding(crate::specs::Messages::nack_at))]
fn take_nack(bytes: &[u8], at: usize) -> Result<(Message, usize), FieldError>
    requires { at ≤ length bytes.now }
    ensures exact { nack_at bytes.now at ≡ result }
    ensures within { IfOk result (λ x. x.1 ≤ length bytes.now) }
{
    let (ballot, at) = take_epoch(bytes, at)?;
    let (cause, at) = take_cause(bytes, at)?;
    Ok((Message::Nack(ballot, cause), at))
}

#[tactic(auto, unfolding(crate::specs::Messages::new_epoch_at))]
fn take_new_epoch(bytes: &[u8], at: usize) -> Result<(Message, usize), FieldError>
    requires { at ≤ length bytes.now }
    ensures exact { new_epoch_at bytes.now at ≡ result }
    ensures within { IfOk result (λ x. x.1 ≤ length bytes.now) }
{
    match take_fact(bytes, at) {
        Ok((fact, after)) => Ok((Message::NewEpoch(fact), after)),
        Err(e) => Err(e),
    }
}

#[tactic(auto, unfolding(crate::specs::Messages::accepted_at))]
fn take_accepted(bytes: &[u8], at: usize) -> Result<(Message, usize), FieldError>
    requires { at ≤ length bytes.now }
    ensures exact { accepted_at bytes.now at ≡ result }
    ensures within { IfOk result (λ x. x.1 ≤ length bytes.now) }
{
    let (epoch, at) = take_epoch(bytes, at)?;
    let (seq, at) = take_u64(bytes, at)?;
    Ok((Message::Accepted(epoch, seq), at))
}

#[tactic(auto, unfolding(crate::specs::Messages::get_at))]
fn take_get(alloc: Global, bytes: &[u8], at: usize) -> Result<(Message, usize), FieldError>
    requires { at ≤ length bytes.now }
    ensures exact { Gives result (get_at bytes.now at) }
    ensures within { IfOk result (λ x. x.1 ≤ length bytes.now) }
{
    let (epoch, at) = take_epoch(bytes, at)?;
    let (round, at) = take_u64(bytes, at)?;
    let (key, at) = take_key(alloc, bytes, at)?;
    Ok((Message::Get(epoch, round, key), at))
}

#[tactic(auto, unfolding(crate::specs::Messages::get_reply_at))]
fn take_get_reply(alloc: Global, bytes: &[u8], at: usize) -> Result<(Message, usize), FieldError>
    requires { at ≤ length bytes.now }
    ensures exact { Gives result (get_reply_at bytes.now at) }
    ensures within { IfOk result (λ x. x.1 ≤ length bytes.now) }
{
    let (epoch, at) = take_epoch(bytes, at)?;
    let (round, at) = take_u64(bytes, at)?;
    let (key, at) = take_key(alloc, bytes, at)?;
    let (entry, at) = take_optional_entry(alloc, bytes, at)?;
    let (object, at) = take_optional_object(alloc, bytes, at)?;
    Ok((Message::GetReply(epoch, round, key, entry, object), at))
}

/// Reads the body of a message of this kind at `at`. Returns the message and the place after it.
#[tactic(auto, unfolding(crate::specs::Messages::message_at))]
pub fn take_message(
    alloc: Global,
    kind: u8,
    bytes: &[u8],
    at: usize,
) -> Result<(Message, usize), FieldError>
    requires { at ≤ length bytes.now }
    ensures exact { Gives result (message_at kind bytes.now at) }
    ensures within { IfOk result (λ x. x.1 ≤ length bytes.now) }
{
    match kind {
        1 => Ok((Message::Probe, at)),
        2 => take_probe_reply(bytes, at),
        3 => take_prepare(bytes, at),
        4 => take_promise(bytes, at),
        5 => take_nack(bytes, at),
        6 => take_new_epoch(bytes, at),
        7 => take_accepted(bytes, at),
        8 => take_get(alloc, bytes, at),
        9 => take_get_reply(alloc, bytes, at),
        _ => take_late_message(alloc, kind, bytes, at),
    }
}
