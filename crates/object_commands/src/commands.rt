ghost use Rattle.std.specs.Prelude.{◌≡◌, ◌≤◌, ◌+◌, ◌++◌, ◌^◌, ◌==◌, ◌&&◌, nat_lt, nat_le, length, if◌then◌else◌, IfOk, MatchOption, IfSome, Some, ℕ, List};
ghost use Rattle.byteorder.specs.Endian.{big_number, big_bytes};
ghost use Rattle.ens_base.specs.declared.reply.Reply.TheVariants.{Failed as failed};
ghost use Rattle.register_model.specs.Registers.{outcome};
ghost use Rattle.register_model.specs.declared.register.Register.{Register};
ghost use Rattle.register_model.specs.declared.register.Register.TheVariants.{Absent, Present};
ghost use Rattle.object_commands.specs.declared.verdict.Verdict.TheVariants as verdicts;
ghost use Rattle.object_commands.specs.Commands.{register_of, verdict_of, stamp_verdict, blind_verdict};

use crate::verdict::{CommandError, Verdict};
use byteorder::{BigEndian, ByteOrder};
use ens_base::{Command, LengthError, Reply, Value, Version};
use std::alloc::Global;
use stored_formats::Object;

/// Returns the verdict that writes a copy of this value.
fn write(alloc: Global, value: &Value) -> Result<Verdict, CommandError>
    ensures { IfOk result (λ v. v ≡ verdicts.Write (Some value.now)) }
{
    Ok(Verdict::Write(Some(value.copy(alloc)?)))
}

/// Returns the verdict that writes these bytes, at most 1,024.
fn write_bytes(alloc: Global, bytes: &[u8]) -> Result<Verdict, CommandError>
    requires { length bytes.now ≤ 1024 }
    ensures { IfOk result (λ v. v ≡ verdicts.Write (Some bytes.now)) }
{
    match Value::new(alloc, bytes) {
        Ok(value) => Ok(Verdict::Write(Some(value))),
        Err(LengthError::Length(_)) => Err(CommandError::Memory),
        Err(LengthError::Memory) => Err(CommandError::Memory),
    }
}

fn append(alloc: Global, value: &Value, tail: &Value) -> Result<Verdict, CommandError>
    ensures { IfOk result (λ v. v ≡ (if nat_le (length value.now + length tail.now) 1024 then verdicts.Write (Some (value.now ++ tail.now)) else verdicts.Answer failed)) }
{
    if value.bytes().len() + tail.bytes().len() > Value::MOST {
        return Ok(Verdict::Answer(Reply::Failed));
    }
    let mut bytes = Vec::from_slice(alloc, value.bytes())?;
    bytes.extend_from_slice(tail.bytes())?;
    write_bytes(alloc, &bytes)
}

fn add(alloc: Global, value: &Value, number: u64) -> Result<Verdict, CommandError>
    ensures { IfOk result (λ v. v ≡ (if length value.now == 8 && nat_lt (big_number 8 value.now + number) (2 ^ 64)
        then verdicts.Write (Some (big_bytes 8 (big_number 8 value.now + number))) else verdicts.Answer failed)) }
{
    let bytes = value.bytes();
    if bytes.len() != 8 {
        return Ok(Verdict::Answer(Reply::Failed));
    }
    match BigEndian::read_u64(bytes).checked_add(number) {
        None => Ok(Verdict::Answer(Reply::Failed)),
        Some(sum) => {
            let mut spelled = [0; 8];
            BigEndian::write_u64(&mut spelled, sum);
            write_bytes(alloc, &spelled)
        }
    }
}

/// Applies the command to an absent register. Fails only when out of memory.
pub fn on_absent(alloc: Global, command: &Command) -> Result<Verdict, CommandError>
    ensures { IfOk result (λ v. v ≡ verdict_of (outcome command.now Absent)) }
{
    match command {
        Command::Get => Ok(Verdict::Answer(Reply::NotFound)),
        Command::PutOnce(value) => write(alloc, value),
        Command::Over(value) => write(alloc, value),
        Command::Delete => Ok(Verdict::Write(None)),
        Command::Update(_, _) => Ok(Verdict::Answer(Reply::Failed)),
        Command::Append(_) => Ok(Verdict::Answer(Reply::Failed)),
        Command::Add(_) => Ok(Verdict::Answer(Reply::Failed)),
        Command::Swap(_, _) => Ok(Verdict::Answer(Reply::Failed)),
    }
}

/// Returns the verdict that writes the value if the condition of the command holds, and otherwise
/// answers `Failed`.
fn write_if(alloc: Global, holds: bool, value: &Value) -> Result<Verdict, CommandError>
    ensures { IfOk result (λ v. v ≡ (if holds then verdicts.Write (Some value.now) else verdicts.Answer failed)) }
{
    if holds {
        write(alloc, value)
    } else {
        Ok(Verdict::Answer(Reply::Failed))
    }
}

/// Applies the command to a register that holds this value under this stamp. Fails only when out of
/// memory.
pub fn on_present(
    alloc: Global,
    command: &Command,
    stamp: Version,
    value: &Value,
) -> Result<Verdict, CommandError>
    ensures { IfOk result (λ v. v ≡ verdict_of (outcome command.now (Present stamp value.now))) }
{
    match command {
        Command::Get => Ok(Verdict::Answer(Reply::Value(stamp, value.copy(alloc)?))),
        Command::PutOnce(_) => Ok(Verdict::Answer(Reply::Failed)),
        Command::Update(wanted, new) => write_if(alloc, *wanted == stamp, new),
        Command::Append(tail) => append(alloc, value, tail),
        Command::Add(number) => add(alloc, value, *number),
        Command::Swap(old, new) => write_if(alloc, value == old, new),
        Command::Over(new) => write(alloc, new),
        Command::Delete => Ok(Verdict::Write(None)),
    }
}

/// Applies the command to a register that holds some value under this stamp. Returns `None` if the
/// outcome depends on the value. Fails only when out of memory.
pub fn on_stamp(
    alloc: Global,
    command: &Command,
    stamp: Version,
) -> Result<Option<Verdict>, CommandError>
    ensures exact { IfOk result (λ v. v ≡ stamp_verdict command.now stamp) }
    ensures outcome { IfOk result (λ v. IfSome v (λ x. (bytes : List ℕ) → x ≡ verdict_of (outcome command.now (Present stamp bytes)))) }
{
    match command {
        Command::PutOnce(_) => Ok(Some(Verdict::Answer(Reply::Failed))),
        Command::Update(wanted, new) => Ok(Some(write_if(alloc, *wanted == stamp, new)?)),
        Command::Over(new) => Ok(Some(write(alloc, new)?)),
        Command::Delete => Ok(Some(Verdict::Write(None))),
        Command::Get | Command::Append(_) | Command::Add(_) | Command::Swap(_, _) => Ok(None),
    }
}

/// Applies the command to a register of which nothing is known. Returns `None` if the outcome depends
/// on the register. Fails only when out of memory.
pub fn on_any(alloc: Global, command: &Command) -> Result<Option<Verdict>, CommandError>
    ensures exact { IfOk result (λ v. v ≡ blind_verdict command.now) }
    ensures outcome { IfOk result (λ v. IfSome v (λ x. (register : Register) → x ≡ verdict_of (outcome command.now register))) }
{
    match command {
        Command::Over(new) => Ok(Some(write(alloc, new)?)),
        Command::Delete => Ok(Some(Verdict::Write(None))),
        _ => Ok(None),
    }
}

/// Applies the command to the object of its key, or to an absent register if there is no object.
/// Fails only when out of memory.
pub fn apply(
    alloc: Global,
    command: &Command,
    current: Option<&Object>,
) -> Result<Verdict, CommandError>
    ensures { IfOk result (λ v. MatchOption current.entry (v ≡ verdict_of (outcome command.now Absent)) (λ o. v ≡ verdict_of (outcome command.now (register_of o.now)))) }
{
    match current {
        None => on_absent(alloc, command),
        Some(object) => match &object.value {
            None => on_absent(alloc, command),
            Some(value) => on_present(alloc, command, object.stamp, value),
        },
    }
}
