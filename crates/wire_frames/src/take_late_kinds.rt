ghost use Rattle.std.specs.Prelude.{◌≡◌, ◌≤◌, length, IfOk};
ghost use Rattle.fields.specs.Reading.{Gives};
ghost use Rattle.wire_frames.specs.Messages.{put_at, put_reply_at, check_at, check_reply_at, tree_ask_at, tree_give_at, commit_at, beat_at, call_frame_at, answer_frame_at, late_message_at};

use crate::message::Message;
use crate::take_calls::{take_call, take_reply};
use crate::take_parts::{take_body, take_flag, take_option_key};
use fields::{FieldError, take_epoch, take_key, take_u64, take_version};
use std::alloc::Global;
use stored_formats::{take_fact, take_object};
use tree_node::{TreeVersion, take_position};

#[tactic(auto, unfolding(crate::specs::Messages::put_at))]
fn take_put(alloc: Global, bytes: &[u8], at: usize) -> Result<(Message, usize), FieldError>
    requires { at ≤ length bytes.now }
    ensures exact { Gives result (put_at bytes.now at) }
    ensures within { IfOk result (λ x. x.1 ≤ length bytes.now) }
{
    let (epoch, at) = take_epoch(bytes, at)?;
    let (object, at) = take_object(alloc, bytes, at)?;
    Ok((Message::Put(epoch, object), at))
}

#[tactic(auto, unfolding(crate::specs::Messages::put_reply_at))]
fn take_put_reply(alloc: Global, bytes: &[u8], at: usize) -> Result<(Message, usize), FieldError>
    requires { at ≤ length bytes.now }
    ensures exact { Gives result (put_reply_at bytes.now at) }
    ensures within { IfOk result (λ x. x.1 ≤ length bytes.now) }
{
    let (epoch, at) = take_epoch(bytes, at)?;
    let (key, at) = take_key(alloc, bytes, at)?;
    let (version, at) = take_version(bytes, at)?;
    Ok((Message::PutReply(epoch, key, version), at))
}

#[tactic(auto, unfolding(crate::specs::Messages::check_at))]
fn take_check(bytes: &[u8], at: usize) -> Result<(Message, usize), FieldError>
    requires { at ≤ length bytes.now }
    ensures exact { check_at bytes.now at ≡ result }
    ensures within { IfOk result (λ x. x.1 ≤ length bytes.now) }
{
    let (epoch, at) = take_epoch(bytes, at)?;
    let (round, at) = take_u64(bytes, at)?;
    Ok((Message::Check(epoch, round), at))
}

#[tactic(auto, unfolding(crate::specs::Messages::check_reply_at))]
fn take_check_reply(bytes: &[u8], at: usize) -> Result<(Message, usize), FieldError>
    requires { at ≤ length bytes.now }
    ensures exact { check_reply_at bytes.now at ≡ result }
    ensures within { IfOk result (λ x. x.1 ≤ length bytes.now) }
{
    let (epoch, at) = take_epoch(bytes, at)?;
    let (round, at) = take_u64(bytes, at)?;
    Ok((Message::CheckReply(epoch, round), at))
}

#[tactic(auto, unfolding(crate::specs::Messages::tree_ask_at))]
fn take_tree_ask(alloc: Global, bytes: &[u8], at: usize) -> Result<(Message, usize), FieldError>
    requires { at ≤ length bytes.now }
    ensures exact { Gives result (tree_ask_at bytes.now at) }
    ensures within { IfOk result (λ x. x.1 ≤ length bytes.now) }
{
    let (epoch, at) = take_epoch(bytes, at)?;
    let (position, at) = take_position(bytes, at, TreeVersion::Two)?;
    let (after, at) = take_option_key(alloc, bytes, at)?;
    Ok((Message::TreeAsk(epoch, position, after), at))
}

#[tactic(auto, unfolding(crate::specs::Messages::tree_give_at))]
fn take_tree_give(alloc: Global, bytes: &[u8], at: usize) -> Result<(Message, usize), FieldError>
    requires { at ≤ length bytes.now }
    ensures exact { Gives result (tree_give_at bytes.now at) }
    ensures within { IfOk result (λ x. x.1 ≤ length bytes.now) }
{
    let (epoch, at) = take_epoch(bytes, at)?;
    let (position, at) = take_position(bytes, at, TreeVersion::Two)?;
    let (after, at) = take_option_key(alloc, bytes, at)?;
    let (trusted, at) = take_flag(bytes, at)?;
    let (body, at) = take_body(alloc, bytes, at)?;
    Ok((Message::TreeGive(epoch, position, after, trusted, body), at))
}

#[tactic(auto, unfolding(crate::specs::Messages::commit_at))]
fn take_commit(bytes: &[u8], at: usize) -> Result<(Message, usize), FieldError>
    requires { at ≤ length bytes.now }
    ensures exact { commit_at bytes.now at ≡ result }
    ensures within { IfOk result (λ x. x.1 ≤ length bytes.now) }
{
    match take_fact(bytes, at) {
        Ok((fact, after)) => Ok((Message::Commit(fact), after)),
        Err(e) => Err(e),
    }
}

#[tactic(auto, unfolding(crate::specs::Messages::beat_at))]
fn take_beat(bytes: &[u8], at: usize) -> Result<(Message, usize), FieldError>
    requires { at ≤ length bytes.now }
    ensures exact { beat_at bytes.now at ≡ result }
    ensures within { IfOk result (λ x. x.1 ≤ length bytes.now) }
{
    let (epoch, at) = take_epoch(bytes, at)?;
    Ok((Message::Beat(epoch), at))
}

#[tactic(auto, unfolding(crate::specs::Messages::call_frame_at))]
fn take_call_frame(alloc: Global, bytes: &[u8], at: usize) -> Result<(Message, usize), FieldError>
    requires { at ≤ length bytes.now }
    ensures exact { Gives result (call_frame_at bytes.now at) }
    ensures within { IfOk result (λ x. x.1 ≤ length bytes.now) }
{
    let (id, at) = take_u64(bytes, at)?;
    let ((key, command), at) = take_call(alloc, bytes, at)?;
    Ok((Message::CallFrame(id, key, command), at))
}

#[tactic(auto, unfolding(crate::specs::Messages::answer_frame_at))]
fn take_answer_frame(alloc: Global, bytes: &[u8], at: usize) -> Result<(Message, usize), FieldError>
    requires { at ≤ length bytes.now }
    ensures exact { Gives result (answer_frame_at bytes.now at) }
    ensures within { IfOk result (λ x. x.1 ≤ length bytes.now) }
{
    let (id, at) = take_u64(bytes, at)?;
    let (reply, at) = take_reply(alloc, bytes, at)?;
    Ok((Message::AnswerFrame(id, reply), at))
}

/// Reads the body of a message of this kind, 10 or greater, at `at`. Returns the message and the place
/// after it.
#[tactic(auto, unfolding(crate::specs::Messages::late_message_at))]
pub fn take_late_message(
    alloc: Global,
    kind: u8,
    bytes: &[u8],
    at: usize,
) -> Result<(Message, usize), FieldError>
    requires { at ≤ length bytes.now }
    ensures exact { Gives result (late_message_at kind bytes.now at) }
    ensures within { IfOk result (λ x. x.1 ≤ length bytes.now) }
{
    match kind {
        10 => take_put(alloc, bytes, at),
        11 => take_put_reply(alloc, bytes, at),
        12 => take_check(bytes, at),
        13 => take_check_reply(bytes, at),
        14 => take_tree_ask(alloc, bytes, at),
        15 => take_tree_give(alloc, bytes, at),
        16 => take_commit(bytes, at),
        17 => take_beat(bytes, at),
        18 => take_call_frame(alloc, bytes, at),
        19 => take_answer_frame(alloc, bytes, at),
        _ => Err(FieldError::Rule(at)),
    }
}
