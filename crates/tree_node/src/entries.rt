ghost use Rattle.std.specs.Prelude.{◌≡◌, ◌≤◌, ◌++◌, take, length, IfOk, IfErr, OnOk};
ghost use Rattle.std.specs.List.{AllByRecursion};
ghost use Rattle.fields.specs.Reading.{Gives};
ghost use Rattle.fields.specs.Faults.{BreaksNoRule};
ghost use Rattle.fields.specs.Entries.{IsEntry};
ghost use Rattle.tree_node.specs.Entries.{last_key, rest_at, next_at, entries_at, entries_spelling, AreDigests, digests_at, digests_spelling};

use ens_base::{Digest, Entry, Key, Seq};
use fields::{FieldError, put_digest, put_entry, take_digest, take_key, take_version};
use std::alloc::Global;
use std::cmp::Ordering;

/// The key of the last entry, and no bytes where there is none.
fn key_of_last(entries: &[Entry]) -> &[u8]
    ensures { result.now ≡ last_key entries.now }
{
    match entries.last() {
        None => &[],
        Some(entry) => entry.key.bytes(),
    }
}

#[tactic(auto, unfolding(crate::specs::Entries::rest_at))]
fn take_rest(key: Key, bytes: &[u8], at: usize) -> Result<(Entry, usize), FieldError>
    requires { at ≤ length bytes.now }
    ensures exact { rest_at key bytes.now at ≡ result }
    ensures within { IfOk result (λ x. x.1 ≤ length bytes.now) }
{
    let (version, at) = take_version(bytes, at)?;
    let (digest, at) = take_digest(bytes, at)?;
    Ok((
        Entry {
            key,
            version,
            digest,
        },
        at,
    ))
}

#[tactic(auto, unfolding(crate::specs::Entries::next_at))]
fn take_next(
    alloc: Global,
    low: &[u8],
    bytes: &[u8],
    at: usize,
) -> Result<(Entry, usize), FieldError>
    requires { at ≤ length bytes.now }
    ensures exact { Gives result (next_at low.now bytes.now at) }
    ensures within { IfOk result (λ x. x.1 ≤ length bytes.now) }
{
    let (key, after) = take_key(alloc, bytes, at)?;
    match low.cmp(key.bytes()) {
        Ordering::Less => take_rest(key, bytes, after),
        Ordering::Equal => Err(FieldError::Rule(at)),
        Ordering::Greater => Err(FieldError::Rule(at)),
    }
}

/// Reads `count` entries at `at`, whose keys strictly ascend. Returns them and the place after them.
/// Memory is taken for no more entries than are read.
pub fn take_entries(
    alloc: Global,
    count: u32,
    bytes: &[u8],
    at: usize,
) -> Result<(Seq<Entry>, usize), FieldError>
    requires { at ≤ length bytes.now }
    ensures exact { Gives result (entries_at count bytes.now at) }
    ensures within { IfOk result (λ x. x.1 ≤ length bytes.now) }
{
    let mut entries = Vec::new(alloc);
    let mut place = at;
    for _ in 0..count {
        let (entry, after) = take_next(alloc, key_of_last(&entries), bytes, place)?;
        entries.push(entry)?;
        place = after;
    }
    Ok((Seq::new(entries), place))
}

/// Reads `count` digests of 16 bytes each at `at`. Returns them and the place after them. Memory is taken
/// for no more digests than the bytes hold.
pub fn take_digests(
    alloc: Global,
    count: u32,
    bytes: &[u8],
    at: usize,
) -> Result<(Seq<Digest>, usize), FieldError>
    requires { at ≤ length bytes.now }
    ensures exact { Gives result (digests_at count bytes.now at) }
    ensures unruled { BreaksNoRule result }
    ensures within { IfOk result (λ x. x.1 ≤ length bytes.now) }
{
    let held = (bytes.len() - at) / 16;
    let mut digests = Vec::with_capacity(alloc, held.min(count as usize))?;
    let mut place = at;
    for _ in 0..count {
        let (digest, after) = take_digest(bytes, place)?;
        digests.push(digest)?;
        place = after;
    }
    Ok((Seq::new(digests), place))
}

/// Appends the spellings of the entries. Out of memory leaves some of them behind what `out` held.
pub fn append_entries(entries: &[Entry], out: &mut Vec<u8>) -> Result<(), FieldError>
    ensures ok { OnOk result (out.new.items ≡ out.old.items ++ entries_spelling entries.now) }
    ensures valid { OnOk result (AllByRecursion IsEntry entries.now) }
    ensures kept { take (length out.old.items) out.new.items ≡ out.old.items }
    ensures memory { IfErr result (λ e. e ≡ FieldError.Memory) }
{
    for entry in entries {
        put_entry(entry, out)?;
    }
    Ok(())
}

/// Appends the digests. Out of memory leaves some of them behind what `out` held.
pub fn append_digests(digests: &[Digest], out: &mut Vec<u8>) -> Result<(), FieldError>
    ensures ok { OnOk result (out.new.items ≡ out.old.items ++ digests_spelling digests.now) }
    ensures valid { OnOk result (AreDigests digests.now) }
    ensures kept { take (length out.old.items) out.new.items ≡ out.old.items }
    ensures memory { IfErr result (λ e. e ≡ FieldError.Memory) }
{
    for digest in digests {
        put_digest(digest, out)?;
    }
    Ok(())
}
