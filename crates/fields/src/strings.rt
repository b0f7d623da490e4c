ghost use Rattle.std.specs.Prelude.{◌≡◌, ◌≤◌, ◌++◌, length, IfOk, IfErr, OnOk, OnErr};
ghost use Rattle.fields.specs.Reading.{Gives};
ghost use Rattle.ens_base.specs.Limits.{IsKey, IsValue};
ghost use Rattle.fields.specs.Strings.{key_spelling, key_at, value_spelling, value_at};

use crate::field_error::FieldError;
use crate::numbers::{take_u8, take_u16};
use byteorder::{BigEndian, ByteOrder};
use ens_base::{Key, LengthError, Value};
use std::alloc::Global;

/// Reads a key at `at`: its length in one byte, and 1 to 64 bytes. Returns it and the place after it.
#[tactic(auto, unfolding(crate::specs::Strings::key_at))]
pub fn take_key(alloc: Global, bytes: &[u8], at: usize) -> Result<(Key, usize), FieldError>
    requires { at ≤ length bytes.now }
    ensures exact { Gives result (key_at bytes.now at) }
    ensures within { IfOk result (λ x. x.1 ≤ length bytes.now) }
{
    let (size, start) = take_u8(bytes, at)?;
    let size = size as usize;
    if size < Key::LEAST || size > Key::MOST {
        return Err(FieldError::Rule(at));
    }
    if bytes.len() - start < size {
        return Err(FieldError::Short(start));
    }
    match Key::new(alloc, &bytes[start..start + size]) {
        Ok(key) => Ok((key, start + size)),
        Err(LengthError::Memory) => Err(FieldError::Memory),
        Err(LengthError::Length(_)) => unreachable!(),
    }
}

/// Reads a value at `at`: its length in two bytes, and at most 1,024 bytes. Returns it and the place
/// after it.
#[tactic(auto, unfolding(crate::specs::Strings::value_at))]
pub fn take_value(alloc: Global, bytes: &[u8], at: usize) -> Result<(Value, usize), FieldError>
    requires { at ≤ length bytes.now }
    ensures exact { Gives result (value_at bytes.now at) }
    ensures within { IfOk result (λ x. x.1 ≤ length bytes.now) }
{
    let (size, start) = take_u16(bytes, at)?;
    let size = size as usize;
    if size > Value::MOST {
        return Err(FieldError::Rule(at));
    }
    if bytes.len() - start < size {
        return Err(FieldError::Short(start));
    }
    match Value::new(alloc, &bytes[start..start + size]) {
        Ok(value) => Ok((value, start + size)),
        Err(LengthError::Memory) => Err(FieldError::Memory),
        Err(LengthError::Length(_)) => unreachable!(),
    }
}

/// Appends the spelling of the key, or leaves `out` as it was.
pub fn put_key(x: &Key, out: &mut Vec<u8>) -> Result<(), FieldError>
    ensures ok { OnOk result (out.new.items ≡ out.old.items ++ key_spelling x.now) }
    ensures valid { IsKey x.now }
    ensures err { OnErr result (out.new.items ≡ out.old.items) }
    ensures memory { IfErr result (λ e. e ≡ FieldError.Memory) }
{
    let bytes = x.bytes();
    out.reserve(bytes.len() + 1)?;
    out.push(bytes.len() as u8).unwrap();
    out.extend_from_slice(bytes).unwrap();
    Ok(())
}

/// Appends the spelling of the value, or leaves `out` as it was.
pub fn put_value(x: &Value, out: &mut Vec<u8>) -> Result<(), FieldError>
    ensures ok { OnOk result (out.new.items ≡ out.old.items ++ value_spelling x.now) }
    ensures valid { IsValue x.now }
    ensures err { OnErr result (out.new.items ≡ out.old.items) }
    ensures memory { IfErr result (λ e. e ≡ FieldError.Memory) }
{
    let bytes = x.bytes();
    let mut size = [0u8; 2];
    BigEndian::write_u16(&mut size, bytes.len() as u16);
    out.reserve(bytes.len() + 2)?;
    out.extend_from_slice(&size).unwrap();
    out.extend_from_slice(bytes).unwrap();
    Ok(())
}
