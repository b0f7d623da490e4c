ghost use Rattle.std.specs.Prelude.{◌≡◌, ◌<◌, ◌^◌, ◌-◌};
ghost use Rattle.lexemes.specs.Words.{number_of, number_within, peer_of};

use crate::cause::Cause;
use ens_base::PeerId;
use std::str;

fn numeral(word: &[u8]) -> Option<u64>
    ensures { result ≡ number_within 0 (2 ^ 64 - 1) word.now }
{
    let first = *word.first()?;
    if first == b'+' {
        return None;
    }
    if word.len() > 1 && first == b'0' {
        return None;
    }
    match str::from_utf8(word) {
        Ok(text) => text.parse().ok(),
        Err(_) => None,
    }
}

pub(crate) fn number_within(word: &[u8], low: u64, high: u64) -> Option<u64>
    ensures { result ≡ number_within low high word.now }
{
    let number = numeral(word)?;
    if low <= number && number <= high {
        Some(number)
    } else {
        None
    }
}

/// Returns the number from `low` to `high` that the word spells in decimal digits, with no zero in front
/// of another digit. Rejects any other word with the cause `Number`.
pub fn number(word: &[u8], low: u64, high: u64) -> Result<u64, Cause>
    ensures { result ≡ number_of low high word.now }
{
    number_within(word, low, high).ok_or(Cause::Number)
}

/// Returns the peer that the word names, from 1 to `peers`. Rejects any other word with the cause `Peers`.
pub fn peer(word: &[u8], peers: u32) -> Result<PeerId, Cause>
    ensures { result ≡ peer_of peers word.now }
{
    let number = number_within(word, 1, u64::from(peers)).ok_or(Cause::Peers)?;
    Ok(PeerId(number as u32))
}
