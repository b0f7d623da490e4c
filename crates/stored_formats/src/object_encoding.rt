ghost use Rattle.std.specs.Prelude.{◌≡◌, ◌≤◌, ◌++◌, take, length, Ok, IfOk, IfErr, OnOk, OnErr};
ghost use Rattle.fields.specs.Reading.{Gives};
ghost use Rattle.fields.specs.Faults.{with_rule as named, without_rule as unnamed, Finds};
ghost use Rattle.fields.specs.Strings.{key_at, value_at};
ghost use Rattle.stored_formats.specs.Objects.{IsObject, IsContent, content_spelling, object_spelling, held_at, content_at, object_at, all_of, object_of, Answers};

use crate::object::Object;
use crate::object_error::{ObjectError, ObjectRule};
use ens_base::{Key, Value};
use fields::{
    Fault, FieldError, plain, put_key, put_u8, put_value, put_version, take_key, take_u8,
    take_value, take_version, with_rule, without_rule,
};
use std::alloc::Global;

fn read_key(alloc: Global, bytes: &[u8], at: usize) -> Result<(Key, usize), Fault<ObjectRule>>
    requires { at ≤ length bytes.now }
    ensures exact { Finds result (named ObjectRule.KeyLength (key_at bytes.now at)) }
    ensures within { IfOk result (λ x. x.1 ≤ length bytes.now) }
{
    with_rule(take_key(alloc, bytes, at), ObjectRule::KeyLength)
}

fn read_value(alloc: Global, bytes: &[u8], at: usize) -> Result<(Value, usize), Fault<ObjectRule>>
    requires { at ≤ length bytes.now }
    ensures exact { Finds result (named ObjectRule.ValueLength (value_at bytes.now at)) }
    ensures within { IfOk result (λ x. x.1 ≤ length bytes.now) }
{
    with_rule(take_value(alloc, bytes, at), ObjectRule::ValueLength)
}

#[tactic(auto, unfolding(crate::specs::Objects::held_at))]
fn read_held(
    alloc: Global,
    bytes: &[u8],
    at: usize,
) -> Result<(Option<Value>, usize), Fault<ObjectRule>>
    requires { at ≤ length bytes.now }
    ensures exact { Finds result (held_at bytes.now at) }
    ensures within { IfOk result (λ x. x.1 ≤ length bytes.now) }
{
    let (value, at) = read_value(alloc, bytes, at)?;
    Ok((Some(value), at))
}

#[tactic(auto, unfolding(crate::specs::Objects::content_at))]
fn read_content(
    alloc: Global,
    bytes: &[u8],
    at: usize,
) -> Result<(Option<Value>, usize), Fault<ObjectRule>>
    requires { at ≤ length bytes.now }
    ensures exact { Finds result (content_at bytes.now at) }
    ensures within { IfOk result (λ x. x.1 ≤ length bytes.now) }
{
    let (tag, start) = plain(take_u8(bytes, at))?;
    match tag {
        0 => Ok((None, start)),
        1 => read_held(alloc, bytes, start),
        _ => Err(Fault::Broken(ObjectRule::Tag, at)),
    }
}

#[tactic(auto, unfolding(crate::specs::Objects::object_at))]
fn read_object(alloc: Global, bytes: &[u8], at: usize) -> Result<(Object, usize), Fault<ObjectRule>>
    requires { at ≤ length bytes.now }
    ensures exact { Finds result (object_at bytes.now at) }
    ensures within { IfOk result (λ x. x.1 ≤ length bytes.now) }
{
    let (version, at) = plain(take_version(bytes, at))?;
    let (stamp, at) = plain(take_version(bytes, at))?;
    let (key, at) = read_key(alloc, bytes, at)?;
    let (value, at) = read_content(alloc, bytes, at)?;
    Ok((
        Object {
            version,
            stamp,
            key,
            value,
        },
        at,
    ))
}

/// Reads an object at `at`. Returns it and the place after it.
pub fn take_object(alloc: Global, bytes: &[u8], at: usize) -> Result<(Object, usize), FieldError>
    requires { at ≤ length bytes.now }
    ensures exact { Gives result (unnamed (object_at bytes.now at)) }
    ensures within { IfOk result (λ x. x.1 ≤ length bytes.now) }
{
    without_rule(read_object(alloc, bytes, at))
}

fn append_content(value: &Option<Value>, out: &mut Vec<u8>) -> Result<(), FieldError>
    ensures ok { OnOk result (out.new.items ≡ out.old.items ++ content_spelling value.now) }
    ensures valid { OnOk result (IsContent value.now) }
    ensures kept { take (length out.old.items) out.new.items ≡ out.old.items }
    ensures memory { IfErr result (λ e. e ≡ FieldError.Memory) }
{
    match value {
        None => put_u8(0, out),
        Some(value) => {
            put_u8(1, out)?;
            put_value(value, out)
        }
    }
}

/// Appends the spelling. Out of memory leaves a part of it behind what `out` held.
fn append_object(x: &Object, out: &mut Vec<u8>) -> Result<(), FieldError>
    ensures ok { OnOk result (out.new.items ≡ out.old.items ++ object_spelling x.now) }
    ensures valid { OnOk result (IsObject x.now) }
    ensures kept { take (length out.old.items) out.new.items ≡ out.old.items }
    ensures memory { IfErr result (λ e. e ≡ FieldError.Memory) }
{
    put_version(&x.version, out)?;
    put_version(&x.stamp, out)?;
    put_key(&x.key, out)?;
    append_content(&x.value, out)
}

/// Appends the spelling of the object, or leaves `out` as it was.
pub fn put_object(x: &Object, out: &mut Vec<u8>) -> Result<(), FieldError>
    ensures ok { OnOk result (out.new.items ≡ out.old.items ++ object_spelling x.now) }
    ensures valid { OnOk result (IsObject x.now) }
    ensures err { OnErr result (out.new.items ≡ out.old.items) }
    ensures memory { IfErr result (λ e. e ≡ FieldError.Memory) }
{
    let size = out.len();
    match append_object(x, out) {
        Ok(()) => Ok(()),
        Err(e) => {
            out.truncate(size);
            Err(e)
        }
    }
}

/// Returns what was read, if it takes all `size` bytes.
fn if_all(
    read: Result<(Object, usize), Fault<ObjectRule>>,
    size: usize,
) -> Result<Object, ObjectError>
    ensures { result ≡ all_of read size }
{
    match read {
        Ok((object, end)) => {
            if end == size {
                Ok(object)
            } else {
                Err(ObjectError::Trailing)
            }
        }
        Err(Fault::Ended(_)) => Err(ObjectError::Short),
        Err(Fault::Broken(ObjectRule::Tag, _)) => Err(ObjectError::BadTag),
        Err(Fault::Broken(ObjectRule::KeyLength, _)) => Err(ObjectError::KeyLength),
        Err(Fault::Broken(ObjectRule::ValueLength, _)) => Err(ObjectError::ValueLength),
        Err(Fault::NoMemory) => Err(ObjectError::Memory),
    }
}

impl Object {
    /// The spelling of the object, which [`Object::decode`] reads again.
    pub fn encode(&self, alloc: Global) -> Result<Vec<u8>, ObjectError>
        ensures ok { IfOk result (λ v. v.items ≡ object_spelling self.now) }
        ensures again { IfOk result (λ v. object_of v.items ≡ Ok self.now) }
        ensures memory { IfErr result (λ e. e ≡ ObjectError.Memory) }
    {
        let mut out = Vec::new(alloc);
        match append_object(self, &mut out) {
            Ok(()) => Ok(out),
            Err(_) => Err(ObjectError::Memory),
        }
    }

    /// Returns the object that the bytes spell, all of them, or the first fault from the left.
    pub fn decode(alloc: Global, bytes: &[u8]) -> Result<Object, ObjectError>
        // What is read was spelled so.
        ensures found { IfOk result (λ o. IsObject o × (bytes.now ≡ object_spelling o)) }
        // What is spelled so is read, unless memory runs out.
        ensures only { (o : Object) → IsObject o → bytes.now ≡ object_spelling o → Answers result (Ok o) }
        // Which fault it is.
        ensures exact { Answers result (object_of bytes.now) }
    {
        let read = read_object(alloc, bytes, 0);
        if_all(read, bytes.len())
    }
}
