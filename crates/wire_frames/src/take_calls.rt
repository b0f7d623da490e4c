ghost use Rattle.std.specs.Prelude.{◌≡◌, ◌≤◌, length, IfOk};
ghost use Rattle.fields.specs.Reading.{Gives};
ghost use Rattle.wire_frames.specs.Calls.{once_at, update_at, append_at, add_at, swap_at, over_at, arguments_at, call_at, value_reply_at, ok_reply_at, tagged_reply_at, reply_at};

use ens_base::{Command, Key, Reply};
use fields::{FieldError, take_key, take_u8, take_u64, take_value, take_version};
use std::alloc::Global;

#[tactic(auto, unfolding(crate::specs::Calls::once_at))]
fn take_once(alloc: Global, bytes: &[u8], at: usize) -> Result<(Command, usize), FieldError>
    requires { at ≤ length bytes.now }
    ensures exact { Gives result (once_at bytes.now at) }
    ensures within { IfOk result (λ x. x.1 ≤ length bytes.now) }
{
    let (value, at) = take_value(alloc, bytes, at)?;
    Ok((Command::PutOnce(value), at))
}

#[tactic(auto, unfolding(crate::specs::Calls::append_at))]
fn take_append(alloc: Global, bytes: &[u8], at: usize) -> Result<(Command, usize), FieldError>
    requires { at ≤ length bytes.now }
    ensures exact { Gives result (append_at bytes.now at) }
    ensures within { IfOk result (λ x. x.1 ≤ length bytes.now) }
{
    let (value, at) = take_value(alloc, bytes, at)?;
    Ok((Command::Append(value), at))
}

#[tactic(auto, unfolding(crate::specs::Calls::over_at))]
fn take_over(alloc: Global, bytes: &[u8], at: usize) -> Result<(Command, usize), FieldError>
    requires { at ≤ length bytes.now }
    ensures exact { Gives result (over_at bytes.now at) }
    ensures within { IfOk result (λ x. x.1 ≤ length bytes.now) }
{
    let (value, at) = take_value(alloc, bytes, at)?;
    Ok((Command::Over(value), at))
}

#[tactic(auto, unfolding(crate::specs::Calls::update_at))]
fn take_update(alloc: Global, bytes: &[u8], at: usize) -> Result<(Command, usize), FieldError>
    requires { at ≤ length bytes.now }
    ensures exact { Gives result (update_at bytes.now at) }
    ensures within { IfOk result (λ x. x.1 ≤ length bytes.now) }
{
    let (stamp, at) = take_version(bytes, at)?;
    let (value, at) = take_value(alloc, bytes, at)?;
    Ok((Command::Update(stamp, value), at))
}

#[tactic(auto, unfolding(crate::specs::Calls::add_at))]
fn take_add(bytes: &[u8], at: usize) -> Result<(Command, usize), FieldError>
    requires { at ≤ length bytes.now }
    ensures exact { add_at bytes.now at ≡ result }
    ensures within { IfOk result (λ x. x.1 ≤ length bytes.now) }
{
    let (number, at) = take_u64(bytes, at)?;
    Ok((Command::Add(number), at))
}

#[tactic(auto, unfolding(crate::specs::Calls::swap_at))]
fn take_swap(alloc: Global, bytes: &[u8], at: usize) -> Result<(Command, usize), FieldError>
    requires { at ≤ length bytes.now }
    ensures exact { Gives result (swap_at bytes.now at) }
    ensures within { IfOk result (λ x. x.1 ≤ length bytes.now) }
{
    let (old, at) = take_value(alloc, bytes, at)?;
    let (new, at) = take_value(alloc, bytes, at)?;
    Ok((Command::Swap(old, new), at))
}

/// Reads the arguments of the command with this tag, which is at `start`.
#[tactic(auto, unfolding(crate::specs::Calls::arguments_at))]
fn take_arguments(
    alloc: Global,
    tag: u8,
    start: usize,
    bytes: &[u8],
    at: usize,
) -> Result<(Command, usize), FieldError>
    requires { at ≤ length bytes.now }
    ensures exact { Gives result (arguments_at tag start bytes.now at) }
    ensures within { IfOk result (λ x. x.1 ≤ length bytes.now) }
{
    match tag {
        1 => Ok((Command::Get, at)),
        2 => take_once(alloc, bytes, at),
        3 => take_update(alloc, bytes, at),
        4 => take_append(alloc, bytes, at),
        5 => take_add(bytes, at),
        6 => take_swap(alloc, bytes, at),
        7 => take_over(alloc, bytes, at),
        8 => Ok((Command::Delete, at)),
        _ => Err(FieldError::Rule(start)),
    }
}

/// Reads the tag of a command, a key, and the arguments of the command. Returns the key, the command and
/// the place after them.
#[tactic(auto, unfolding(crate::specs::Calls::call_at))]
pub fn take_call(
    alloc: Global,
    bytes: &[u8],
    at: usize,
) -> Result<((Key, Command), usize), FieldError>
    requires { at ≤ length bytes.now }
    ensures exact { Gives result (call_at bytes.now at) }
    ensures within { IfOk result (λ x. x.1 ≤ length bytes.now) }
{
    let (tag, start) = take_u8(bytes, at)?;
    if tag < 1 || tag > 8 {
        return Err(FieldError::Rule(at));
    }
    let (key, next) = take_key(alloc, bytes, start)?;
    let (command, after) = take_arguments(alloc, tag, at, bytes, next)?;
    Ok(((key, command), after))
}

#[tactic(auto, unfolding(crate::specs::Calls::value_reply_at))]
fn take_value_reply(alloc: Global, bytes: &[u8], at: usize) -> Result<(Reply, usize), FieldError>
    requires { at ≤ length bytes.now }
    ensures exact { Gives result (value_reply_at bytes.now at) }
    ensures within { IfOk result (λ x. x.1 ≤ length bytes.now) }
{
    let (stamp, at) = take_version(bytes, at)?;
    let (value, at) = take_value(alloc, bytes, at)?;
    Ok((Reply::Value(stamp, value), at))
}

#[tactic(auto, unfolding(crate::specs::Calls::ok_reply_at))]
fn take_ok_reply(bytes: &[u8], at: usize) -> Result<(Reply, usize), FieldError>
    requires { at ≤ length bytes.now }
    ensures exact { ok_reply_at bytes.now at ≡ result }
    ensures within { IfOk result (λ x. x.1 ≤ length bytes.now) }
{
    let (stamp, at) = take_version(bytes, at)?;
    Ok((Reply::Ok(stamp), at))
}

/// Reads what follows the tag of a reply, which is at `start`.
#[tactic(auto, unfolding(crate::specs::Calls::tagged_reply_at))]
fn take_tagged_reply(
    alloc: Global,
    tag: u8,
    start: usize,
    bytes: &[u8],
    at: usize,
) -> Result<(Reply, usize), FieldError>
    requires { at ≤ length bytes.now }
    ensures exact { Gives result (tagged_reply_at tag start bytes.now at) }
    ensures within { IfOk result (λ x. x.1 ≤ length bytes.now) }
{
    match tag {
        1 => take_value_reply(alloc, bytes, at),
        2 => Ok((Reply::NotFound, at)),
        3 => take_ok_reply(bytes, at),
        4 => Ok((Reply::Failed, at)),
        5 => Ok((Reply::Unavailable, at)),
        6 => Ok((Reply::Busy, at)),
        7 => Ok((Reply::Lost, at)),
        8 => Ok((Reply::Timeout, at)),
        _ => Err(FieldError::Rule(start)),
    }
}

/// Reads a reply at `at`. Returns it and the place after it.
#[tactic(auto, unfolding(crate::specs::Calls::reply_at))]
pub fn take_reply(alloc: Global, bytes: &[u8], at: usize) -> Result<(Reply, usize), FieldError>
    requires { at ≤ length bytes.now }
    ensures exact { Gives result (reply_at bytes.now at) }
    ensures within { IfOk result (λ x. x.1 ≤ length bytes.now) }
{
    let (tag, start) = take_u8(bytes, at)?;
    take_tagged_reply(alloc, tag, at, bytes, start)
}
