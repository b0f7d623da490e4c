ghost use Rattle.std.specs.Prelude.{◌≡◌, map};
ghost use Rattle.lexemes.specs.Causes.{Gives};
ghost use Rattle.lexemes.specs.Words.{version_from, version_of_parts, version_of};

use crate::cause::{Cause, WordError};
use crate::numbers::number;
use crate::splits::parts;
use ens_base::{Epoch, Version};
use std::alloc::Global;

fn from_numbers(count: &[u8], proposer: &[u8], seq: &[u8]) -> Result<Version, Cause>
    ensures { result ≡ version_from count.now proposer.now seq.now }
{
    let count = number(count, 0, u64::MAX)?;
    let proposer = number(proposer, 0, u64::from(u32::MAX))? as u32;
    let seq = number(seq, 0, u64::MAX)?;
    Ok(Version {
        epoch: Epoch { count, proposer },
        seq,
    })
}

fn from_parts(parts: &[&[u8]]) -> Result<Version, Cause>
    ensures { result ≡ version_of_parts (map (λ part. part.now) parts.now) }
{
    match parts {
        [count, proposer, seq] => from_numbers(count, proposer, seq),
        _ => Err(Cause::Number),
    }
}

/// Returns the version that the word spells: count, proposer and seq, with a dot between them. Rejects any
/// other word with the cause `Number`.
pub fn version(alloc: Global, word: &[u8]) -> Result<Version, WordError>
    ensures { Gives (version_of word.now) result }
{
    let parts = parts(alloc, word, b'.')?;
    Ok(from_parts(parts.as_slice())?)
}
