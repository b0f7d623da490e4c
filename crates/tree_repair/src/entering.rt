ghost use Rattle.std.specs.Prelude.{◌≡◌, OnOk};
ghost use Rattle.std.specs.Option.{IsSomeAnd};
ghost use Rattle.ens_base.specs.Limits.{IsBytes, IsKey, IsVersion};
ghost use Rattle.fields.specs.Entries.{IsEntry};
ghost use Rattle.fields.specs.Numbers.{IsRun};
ghost use Rattle.synctree.specs.Sixteen.{form_of};
ghost use Rattle.synctree.specs.Meanings.{Enters};
ghost use Rattle.synctree.specs.Outsides.{outside_does};
ghost use Rattle.synctree.specs.Records.{KeptUnlessFailed};
ghost use Rattle.tree_repair.specs.Tops.{Entered, IsRootWith, LeavesTop};

use ens_base::{Digest, Entry, Key, Version};
use environment::NodeStore;
use hash_book::Hasher16;
use std::alloc::Global;
use synctree::{Tree, TreeError};

/// Each entry keeps the limits of its parts: a key of 1 to 64 bytes, numbers of a version that fit
/// their widths, and a digest of 16 bytes.
pub fn entries_fit(entry: &Entry)
    ensures { IsEntry entry.now }
{
    key_fits(&entry.key);
    version_fits(entry.version);
    digest_fits(entry.digest);
}

/// A key has 1 to 64 bytes.
fn key_fits(key: &Key)
    ensures { IsKey key.now }
{
    let bytes = key.bytes();
    bytes_fit(bytes);
}

/// Each number of a slice of bytes is a byte.
fn bytes_fit(bytes: &[u8])
    ensures { IsBytes bytes.now }
{
    let _size = bytes.len();
}

/// Each number of a version fits its width.
fn version_fits(version: Version)
    ensures { IsVersion version }
{
    let _count = version.epoch.count;
    let _proposer = version.epoch.proposer;
    let _seq = version.seq;
}

/// A digest has 16 bytes.
fn digest_fits(digest: Digest)
    ensures { IsRun 16 digest }
{
    let Digest(_bytes) = digest;
}

/// Calls `Tree::insert`. If a map stands under the old top record, the map with the entry, if it has
/// fewer than 2^32 entries, stands under the new one, whatever the entry is, unless a string that was
/// hashed has the digest of a different node of the old map. `LeavesTop` says what the store's top
/// record is after each result. When out of memory it is as it was.
pub fn insert<N: NodeStore, H: Hasher16>(
    tree: &mut Tree<N>,
    alloc: Global,
    hasher: &mut H,
    entry: &Entry,
) -> Result<(), TreeError>
    ensures version_is { tree.new.version ≡ tree.old.version }
    ensures stands { OnOk result (IsSomeAnd tree.new.top
        (λ new. Entered (outside_does N.may_answer N.top_record N.fault_count H.kept H.clashes H.fulls)
        (form_of tree.old.version) tree.old.top entry.now (tree.old.store, hasher.old) new (
          tree.new.store,
          hasher.new,
        ))) }
    ensures top { Enters (LeavesTop (IsRootWith
        (outside_does N.may_answer N.top_record N.fault_count H.kept H.clashes H.fulls) (form_of tree.old.version)
        tree.old.top entry.now (tree.old.store, hasher.old)) (N.top_record tree.old.store)
        (N.top_record tree.new.store)) tree.old.top result tree.new.top }
    ensures kept { KeptUnlessFailed (N.top_record tree.old.store) (N.top_record tree.new.store) result }
{
    entries_fit(entry);
    tree.insert(alloc, hasher, entry)
}
