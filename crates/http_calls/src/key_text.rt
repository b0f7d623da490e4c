ghost use Rattle.std.specs.Prelude.{◌≡◌, IfOk};
ghost use Rattle.http_calls.specs.Targets.{begins_with_digits, is_segment, decoded, value_of, key_of, escaped_value};
ghost use Rattle.http_calls.specs.Outcomes.{Gives};

use crate::problem::{CallError, Problem};
use ens_base::{Key, LengthError, Value};
use percent_encoding::percent_decode;
use std::alloc::{AllocError, Global};

fn begins_with_digits(text: &[u8]) -> bool
    ensures { result ≡ begins_with_digits text.now }
{
    match text {
        [high, low, ..] => high.is_ascii_hexdigit() && low.is_ascii_hexdigit(),
        _ => false,
    }
}

/// Whether the text is one segment of a path: no `/`, and two hexadecimal digits after each `%`.
fn is_segment(mut text: &[u8]) -> bool
    ensures { result ≡ is_segment text.entry.now }
{
    while let [first, rest @ ..] = text {
        if *first == b'/' || (*first == b'%' && !begins_with_digits(rest)) {
            return false;
        }
        text = rest;
    }
    true
}

fn decode(alloc: Global, text: &[u8]) -> Result<Vec<u8>, AllocError>
    ensures { IfOk result (λ v. v.items ≡ decoded text.now) }
{
    let mut bytes = Vec::new(alloc);
    percent_decode(text).append_to(&mut bytes)?;
    Ok(bytes)
}

/// The key that a segment spells.
pub(crate) fn read_key(alloc: Global, text: &[u8]) -> Result<Key, CallError>
    ensures { Gives (key_of text.now) result }
{
    if !is_segment(text) {
        return Err(CallError::Refused(Problem::BadKey));
    }
    let bytes = decode(alloc, text)?;
    match Key::new(alloc, &bytes) {
        Ok(key) => Ok(key),
        Err(LengthError::Length(_)) => Err(CallError::Refused(Problem::BadKey)),
        Err(LengthError::Memory) => Err(CallError::Memory),
    }
}

/// A value of these bytes.
pub(crate) fn read_value(alloc: Global, bytes: &[u8]) -> Result<Value, CallError>
    ensures { Gives (value_of bytes.now) result }
{
    match Value::new(alloc, bytes) {
        Ok(value) => Ok(value),
        Err(LengthError::Length(_)) => Err(CallError::Refused(Problem::TooLong)),
        Err(LengthError::Memory) => Err(CallError::Memory),
    }
}

/// The value that an escaped text spells.
pub(crate) fn read_escaped(alloc: Global, text: &[u8]) -> Result<Value, CallError>
    ensures { Gives (escaped_value text.now) result }
{
    if !is_segment(text) {
        return Err(CallError::Refused(Problem::BadParameter));
    }
    let bytes = decode(alloc, text)?;
    read_value(alloc, &bytes)
}
