ghost use Rattle.std.specs.Prelude.{◌≡◌, length, IfOk};
ghost use Rattle.synctree.specs.Installs.{store_does, store_refuses};
ghost use Rattle.synctree.specs.Outsides.{outside_does, outside_refuses};
ghost use Rattle.synctree.specs.Plans.{Did};
ghost use Rattle.tree_repair.specs.Levels.{read_named, read_all as read_all_plan, read_level as read_level_plan};
ghost use Rattle.tree_repair.specs.Slots.{Reads};

use crate::admitting::admit_level;
use crate::gate::Gate;
use crate::hashing::digests_of_level;
use crate::slot::Slot;
use ens_base::{Bytes, Digest, Seq};
use environment::NodeStore;
use hash_book::Hasher16;
use std::alloc::Global;
use std::thread::Threads;
use synctree::{Tree, TreeError};

/// What was read for the slots of a level, and the digest of each.
#[derive(Debug, Drop)]
pub(crate) struct Level {
    pub(crate) reads: Seq<Option<Bytes>>,
    pub(crate) found: Seq<Option<Digest>>,
}

/// Returns what the store has under the digest of a slot, or `None` if there is none.
fn read_slot<N: NodeStore>(
    alloc: Global,
    tree: &mut Tree<N>,
    slot: Slot,
) -> Result<Option<Bytes>, TreeError>
    ensures did { Did (store_does N.may_answer N.top_record N.fault_count) (store_refuses N.may_refuse N.top_record N.fault_count) (read_named slot.digest) tree.old.store result tree.new.store }
    ensures version_is { tree.new.version ≡ tree.old.version }
    ensures top { tree.new.top ≡ tree.old.top }
{
    match slot.digest {
        Some(digest) => tree.read(alloc, &digest),
        None => Ok(None),
    }
}

/// Reads the nodes of a level, in order.
fn read_all<N: NodeStore>(
    alloc: Global,
    tree: &mut Tree<N>,
    slots: &[Slot],
) -> Result<Seq<Option<Bytes>>, TreeError>
    ensures did { Did (store_does N.may_answer N.top_record N.fault_count) (store_refuses N.may_refuse N.top_record N.fault_count) (read_all_plan slots.now) tree.old.store result tree.new.store }
    ensures reads { IfOk result (λ reads. length reads ≡ length slots.now) }
    ensures version_is { tree.new.version ≡ tree.old.version }
    ensures top { tree.new.top ≡ tree.old.top }
{
    let mut reads = Vec::new(alloc);
    for slot in slots {
        let read = read_slot(alloc, tree, *slot)?;
        reads.push(read)?;
    }
    Ok(Seq::new(reads))
}

/// Reads the nodes of a level, hashes what was read by threads, and then admits it to the hasher, in
/// order.
pub(crate) fn read_level<N: NodeStore, H: Hasher16, R: Threads + Sync, G: Gate + Sync>(
    rt: &R,
    alloc: Global,
    tree: &mut Tree<N>,
    hasher: &mut H,
    gate: &G,
    slots: &[Slot],
) -> Result<Level, TreeError>
    ensures did { Reads (λ r. Did (outside_does N.may_answer N.top_record N.fault_count H.kept H.clashes H.fulls) (outside_refuses N.may_refuse N.top_record N.fault_count H.kept H.clashes H.fulls)
        (read_level_plan slots.now) (tree.old.store, hasher.old) r (tree.new.store, hasher.new)) result }
    ensures reads { IfOk result (λ level. length level.reads ≡ length slots.now) }
    ensures version_is { tree.new.version ≡ tree.old.version }
    ensures top { tree.new.top ≡ tree.old.top }
{
    let reads = read_all(alloc, tree, slots)?;
    let found = digests_of_level(rt, alloc, reads.as_slice(), gate)?;
    admit_level(alloc, hasher, reads.as_slice(), found.as_slice())?;
    Ok(Level { reads, found })
}
