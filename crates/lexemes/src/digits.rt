ghost use Rattle.std.specs.Prelude.{◌≡◌, ◌≤◌, length, IfOk, Ok, Err, Option, Some, None};
ghost use Rattle.std.specs.Char.{is_ascii_uppercase};
ghost use Rattle.std.specs.List.{list_any};
ghost use Rattle.std.specs.Result.{result_ok};
ghost use Rattle.hex.specs.Hex.{decode_of};
ghost use Rattle.lexemes.specs.Causes.{Gives, or_cause};
ghost use Rattle.lexemes.specs.Words.{bytes_within, key_of, value_of, content_of};

use crate::cause::{Cause, WordError};
use ens_base::{Bytes, Key, Value};
use hex::FromHexError;
use std::alloc::Global;

const NONE: &[u8; 1] = b"-";

/// The most bytes that a store is given in place of an object or a node.
pub const MOST_CONTENT: usize = 2000;

fn has_uppercase(word: &[u8]) -> bool
    ensures { result ≡ list_any is_ascii_uppercase word.now }
{
    word.iter().any(|b| b.is_ascii_uppercase())
}

fn decoded(alloc: Global, word: &[u8]) -> Result<Bytes, WordError>
    ensures { Gives (or_cause Cause.Bytes (result_ok (decode_of word.now))) result }
{
    match hex::decode(alloc, word) {
        Ok(bytes) => Ok(Bytes::new(bytes)),
        Err(FromHexError::OutOfMemory) => Err(WordError::Memory),
        Err(_) => Err(WordError::Bad(Cause::Bytes)),
    }
}

fn bytes_within(alloc: Global, word: &[u8], most: usize) -> Result<Bytes, WordError>
    ensures gives { Gives (or_cause Cause.Bytes (bytes_within 1 most word.now)) result }
    ensures length { IfOk result (λ bytes. (1 ≤ length bytes) × (length bytes ≤ most)) }
{
    if has_uppercase(word) {
        return Err(WordError::Bad(Cause::Bytes));
    }
    let bytes = decoded(alloc, word)?;
    let count = bytes.as_slice().len();
    if count < 1 || count > most {
        return Err(WordError::Bad(Cause::Bytes));
    }
    Ok(bytes)
}

/// Returns the key that the word spells: 1 to 64 bytes as pairs of lower-case hexadecimal digits. Rejects
/// any other word with the cause `Bytes`.
pub fn key(alloc: Global, word: &[u8]) -> Result<Key, WordError>
    ensures { Gives (key_of word.now) result }
{
    let bytes = bytes_within(alloc, word, Key::MOST)?;
    Ok(Key::new(alloc, bytes.as_slice())?)
}

/// Returns the value that the word spells: a dash for no bytes, or 1 to 1,024 bytes as pairs of
/// lower-case hexadecimal digits. Rejects any other word with the cause `Bytes`.
pub fn value(alloc: Global, word: &[u8]) -> Result<Value, WordError>
    ensures { Gives (value_of word.now) result }
{
    if word == NONE.as_slice() {
        return Ok(Value::new(alloc, &[])?);
    }
    let bytes = bytes_within(alloc, word, Value::MOST)?;
    Ok(Value::new(alloc, bytes.as_slice())?)
}

/// Returns what a store is to hold: 1 to 2,000 bytes as pairs of lower-case hexadecimal digits, or a dash
/// for nothing. Rejects any other word with the cause `Bytes`.
pub fn content(alloc: Global, word: &[u8]) -> Result<Option<Bytes>, WordError>
    ensures { Gives (content_of word.now) result }
{
    if word == NONE.as_slice() {
        return Ok(None);
    }
    Ok(Some(bytes_within(alloc, word, MOST_CONTENT)?))
}
