ghost use Rattle.std.specs.Prelude.{◌≡◌, ◌≤◌, length, IfOk};
ghost use Rattle.fields.specs.Faults.{with_rule as named, Finds};
ghost use Rattle.fields.specs.Strings.{key_at, value_at};
ghost use Rattle.stored_formats.specs.Objects.{held_at as value_behind, content_at, object_at};
ghost use Rattle.tree_backup.specs.Readings.{held as held_of, Answers};

use crate::error::BackupError;
use ens_base::{Key, Value};
use fields::{Fault, plain, take_key, take_u8, take_value, take_version, with_rule};
use std::alloc::Global;
use stored_formats::{Object, ObjectError, ObjectRule};

fn read_key(alloc: Global, bytes: &[u8], at: usize) -> Result<(Key, usize), Fault<ObjectRule>>
    requires { at ≤ length bytes.now }
    ensures exact { Finds result (named ObjectRule.KeyLength (key_at bytes.now at)) }
    ensures within { IfOk result (λ x. x.1 ≤ length bytes.now) }
{
    with_rule(take_key(alloc, bytes, at), ObjectRule::KeyLength)
}

fn read_value(alloc: Global, bytes: &[u8], at: usize) -> Result<(Value, usize), Fault<ObjectRule>>
    requires { at ≤ length bytes.now }
    ensures exact { Finds result (named ObjectRule.ValueLength (value_at bytes.now at)) }
    ensures within { IfOk result (λ x. x.1 ≤ length bytes.now) }
{
    with_rule(take_value(alloc, bytes, at), ObjectRule::ValueLength)
}

#[tactic(auto, unfolding(stored_formats::specs::Objects::held_at))]
fn read_behind(
    alloc: Global,
    bytes: &[u8],
    at: usize,
) -> Result<(Option<Value>, usize), Fault<ObjectRule>>
    requires { at ≤ length bytes.now }
    ensures exact { Finds result (value_behind bytes.now at) }
    ensures within { IfOk result (λ x. x.1 ≤ length bytes.now) }
{
    let (value, at) = read_value(alloc, bytes, at)?;
    Ok((Some(value), at))
}

#[tactic(auto, unfolding(stored_formats::specs::Objects::content_at))]
fn read_content(
    alloc: Global,
    bytes: &[u8],
    at: usize,
) -> Result<(Option<Value>, usize), Fault<ObjectRule>>
    requires { at ≤ length bytes.now }
    ensures exact { Finds result (content_at bytes.now at) }
    ensures within { IfOk result (λ x. x.1 ≤ length bytes.now) }
{
    let (tag, start) = plain(take_u8(bytes, at))?;
    match tag {
        0 => Ok((None, start)),
        1 => read_behind(alloc, bytes, start),
        _ => Err(Fault::Broken(ObjectRule::Tag, at)),
    }
}

#[tactic(auto, unfolding(stored_formats::specs::Objects::object_at))]
fn read_fields(alloc: Global, bytes: &[u8], at: usize) -> Result<(Object, usize), Fault<ObjectRule>>
    requires { at ≤ length bytes.now }
    ensures exact { Finds result (object_at bytes.now at) }
    ensures within { IfOk result (λ x. x.1 ≤ length bytes.now) }
{
    let (version, at) = plain(take_version(bytes, at))?;
    let (stamp, at) = plain(take_version(bytes, at))?;
    let (key, at) = read_key(alloc, bytes, at)?;
    let (value, at) = read_content(alloc, bytes, at)?;
    Ok((
        Object {
            version,
            stamp,
            key,
            value,
        },
        at,
    ))
}

/// Turns the answer of an object into that of a backup.
fn held<T>(read: Result<T, Fault<ObjectRule>>) -> Result<T, BackupError>
    ensures { result ≡ held_of read }
{
    match read {
        Ok(value) => Ok(value),
        Err(Fault::Ended(_)) => Err(BackupError::Short),
        Err(Fault::Broken(ObjectRule::Tag, _)) => Err(BackupError::BadObject(ObjectError::BadTag)),
        Err(Fault::Broken(ObjectRule::KeyLength, _)) => {
            Err(BackupError::BadObject(ObjectError::KeyLength))
        }
        Err(Fault::Broken(ObjectRule::ValueLength, _)) => {
            Err(BackupError::BadObject(ObjectError::ValueLength))
        }
        Err(Fault::NoMemory) => Err(BackupError::Memory),
    }
}

/// Reads an object at `at`. Returns it and the place after it.
pub(crate) fn read_object(
    alloc: Global,
    bytes: &[u8],
    at: usize,
) -> Result<(Object, usize), BackupError>
    requires { at ≤ length bytes.now }
    ensures exact { Answers result (held_of (object_at bytes.now at)) }
    ensures within { IfOk result (λ x. x.1 ≤ length bytes.now) }
{
    held(read_fields(alloc, bytes, at))
}
