ghost use Rattle.std.specs.Prelude.{◌≡◌, ◌≤◌, ◌++◌, ◌∷◌, [], length, IfOk, OnOk};
ghost use Rattle.std.specs.BTreeMap.{get};
ghost use Rattle.ens_base.specs.Lists.{bytes_cmp};
ghost use Rattle.tree_node.specs.Entries.{AreAbove};
ghost use Rattle.tree_sync.specs.Merges.{with_entry, with_entries};
ghost use Rattle.tree_sync.specs.Ranks.{entry_at, entries_of, is_at_least, HaveKeys};

use crate::error::SyncError;
use ens_base::{Digest, Entry, Key, Version};
use std::alloc::Global;
use std::cmp::Ordering;
use std::collections::BTreeMap;
use std::marker::Model;

/// By what two entries of a key are compared: by version, then by digest.
#[derive(Clone, Copy, Debug, PartialEq, Eq, PartialOrd, Ord)]
struct Rank {
    version: Version,
    digest: Digest,
}

/// The merge of some entries. Contracts see the greatest entry of each key, in the order of the keys.
#[derive(Drop)]
pub struct Merge {
    ranks: BTreeMap<Key, Rank>,
}

impl Model for Merge {
    ghost use Rattle.std.specs.Prelude.{List};
    ghost use Rattle.std.specs.BTreeMap.{IsOrdered};
    ghost use Rattle.ens_base.specs.Lists.{bytes_cmp as by_bytes};
    ghost use Rattle.ens_base.specs.declared.entry.Entry.{Entry as Kept};
    ghost use Rattle.tree_sync.specs.Ranks.{entries_of};

    ghost Value = { List Kept };

    ghost view = { λ m. entries_of m.ranks.entries };

    ghost invariant = { λ m. IsOrdered by_bytes m.ranks };
}

fn is_below(a: Rank, b: Rank) -> bool
    ensures { result ≡ Rattle.tree_sync.specs.Ranks.is_below a b }
{
    match a.cmp(&b) {
        Ordering::Less => true,
        Ordering::Equal | Ordering::Greater => false,
    }
}

/// Whether the key has a rank that is not below this one.
fn is_held(ranks: &BTreeMap<Key, Rank>, key: &Key, rank: Rank) -> bool
    ensures { result ≡ is_at_least (get bytes_cmp ranks.now key.now) rank }
{
    match ranks.get(key) {
        Some(held) => !is_below(*held, rank),
        None => false,
    }
}

/// Appends the entry of a key with this rank. Fails only when out of memory.
fn push_entry(entries: &mut Vec<Entry>, key: Key, rank: Rank) -> Result<(), SyncError>
    ensures entries { OnOk result (entries.new.items ≡ entries.old.items ++ entry_at (key, rank) ∷ []) }
    ensures key { 1 ≤ length key }
{
    prove!(key.bytes().len() >= Key::LEAST);
    entries.push(Entry {
        key,
        version: rank.version,
        digest: rank.digest,
    })?;
    Ok(())
}

/// Returns the entries of these ranks. Fails only when out of memory.
fn entries_in(alloc: Global, ranks: BTreeMap<Key, Rank>) -> Result<Vec<Entry>, SyncError>
    ensures entries { IfOk result (λ es. es.items ≡ entries_of ranks.entries) }
    ensures keys { IfOk result (λ es. HaveKeys es.items) }
{
    let mut entries = Vec::new(alloc);
    for (key, rank) in ranks {
        push_entry(&mut entries, key, rank)?;
    }
    Ok(entries)
}

impl Merge {
    /// Makes the merge of no entries.
    pub fn new(alloc: Global) -> Merge
        ensures { result ≡ [] }
    {
        Merge {
            ranks: BTreeMap::new(alloc),
        }
    }

    /// Merges in an entry. Fails only when out of memory.
    pub fn add(&mut self, alloc: Global, entry: &Entry) -> Result<(), SyncError>
        ensures { OnOk result (self.new ≡ with_entry entry.now self.old) }
    {
        let rank = Rank {
            version: entry.version,
            digest: entry.digest,
        };
        if is_held(&self.ranks, &entry.key, rank) {
            return Ok(());
        }
        self.ranks.insert(entry.key.copy(alloc)?, rank)?;
        Ok(())
    }

    /// Merges in these entries. Fails only when out of memory.
    pub fn add_all(&mut self, alloc: Global, entries: &[Entry]) -> Result<(), SyncError>
        ensures { OnOk result (self.new ≡ with_entries self.old entries.now) }
    {
        for entry in entries {
            self.add(alloc, entry)?;
        }
        Ok(())
    }

    /// Returns the merged entries. Their keys ascend strictly, and none is empty. Fails only when
    /// out of memory.
    #[tactic(auto, using(crate::proofs::Ascending::merge_above))]
    pub fn into_entries(self, alloc: Global) -> Result<Vec<Entry>, SyncError>
        ensures entries { IfOk result (λ es. es.items ≡ self) }
        ensures above { IfOk result (λ es. AreAbove [] es.items) }
    {
        let Merge { ranks } = self;
        entries_in(alloc, ranks)
    }
}
