ghost use Rattle.std.specs.Prelude.{◌≡◌, ◌≤◌, ◌<◌, ◌^◌, IfErr, OnOk, OnErr};
ghost use Rattle.world_stores.specs.NodeFaults.{replaced_if};
ghost use Rattle.world_spec.specs.Stores.{failing, inner_named, inner_spoiled, leaves_of as left_as, segment_spoiled, spoiled, taken_back};

use crate::error::WorldError;
use crate::node::MemStores;
use ens_base::{Bytes, Key};
use environment::{Leaves, StoreError};
use schedule_text::{StoreName, Survivor};
use std::alloc::Global;
use synctree::{Tree, TreeMark};
use tree_node::TreeVersion;
use world_stores::{HeldNodes, version_stored};

/// Returns what a failed write leaves.
fn leaves_of(survivor: Survivor) -> Leaves
    ensures { result ≡ left_as survivor }
{
    match survivor {
        Survivor::Old => Leaves::Old,
        Survivor::New => Leaves::New,
    }
}

/// Takes the nodes out of a tree, to be put back under the mark.
fn take_nodes(alloc: Global, tree: &mut Tree<HeldNodes>) -> (TreeMark, HeldNodes)
    ensures { (result.0.version ≡ tree.old.version) × (result.0.top ≡ tree.old.top) × (result.1 ≡ tree.old.store) }
{
    let none = Tree::unopened(HeldNodes::empty(alloc), TreeVersion::One);
    std::mem::replace(tree, none).split()
}

/// Makes the next write of a store fail.
pub(crate) fn fail_next(alloc: Global, stores: &mut MemStores, store: StoreName, survivor: Survivor)
    ensures { stores.new ≡ failing store (left_as survivor) stores.old }
{
    let leaves = leaves_of(survivor);
    match store {
        StoreName::Fact => stores.facts.fail_next(leaves),
        StoreName::Tree => {
            let (mark, mut nodes) = take_nodes(alloc, &mut stores.tree);
            nodes.fail_next(leaves);
            stores.tree = Tree::join(mark, nodes);
        }
        StoreName::Backend => stores.backend.fail_next(leaves),
    }
}

/// Replaces the bytes of an object, or removes it. Fails when out of memory.
pub(crate) fn spoil(
    alloc: Global,
    stores: &mut MemStores,
    key: &Key,
    bytes: &Option<Bytes>,
) -> Result<(), WorldError>
    ensures ok { OnOk result (stores.new ≡ spoiled key.now bytes.now stores.old) }
    ensures memory { IfErr result (λ e. e ≡ WorldError.Memory) }
{
    match bytes {
        None => {
            stores.backend.lose(key);
            Ok(())
        }
        Some(bytes) => match stores.backend.spoil(alloc, key, bytes.as_slice()) {
            Ok(()) => Ok(()),
            Err(_) => Err(WorldError::Memory),
        },
    }
}

/// Replaces the bytes of the segment of a key, or removes that node, in the version of the stored tree.
/// Fails when out of memory.
pub(crate) fn damage(
    alloc: Global,
    stores: &mut MemStores,
    key: &Key,
    bytes: &Option<Bytes>,
) -> Result<(), WorldError>
    ensures ok { OnOk result (stores.new ≡ segment_spoiled key.now bytes.now stores.old) }
    ensures memory { IfErr result (λ e. e ≡ WorldError.Memory) }
{
    let (mark, mut nodes) = take_nodes(alloc, &mut stores.tree);
    let version = version_stored(&nodes);
    let damaged = world_stores::damage(alloc, &mut nodes, version, key, bytes);
    stores.tree = Tree::join(mark, nodes);
    match damaged {
        Ok(()) => Ok(()),
        Err(_) => Err(WorldError::Memory),
    }
}

/// Replaces the bytes of the inner node at this level and index of the stored tree, in its version, or
/// removes it. Changes nothing at a level where that tree has no inner node. Fails when out of memory.
fn inner_in(
    alloc: Global,
    nodes: &mut HeldNodes,
    level: u8,
    index: u32,
    bytes: &Option<Bytes>,
) -> Result<(), StoreError>
    requires { index < 16 ^ level }
    ensures ok { OnOk result (nodes.new ≡ record nodes.old { entries = replaced_if (inner_named level index nodes.old) bytes.now nodes.old.entries }) }
    ensures err { OnErr result (nodes.new ≡ nodes.old) }
{
    let version = version_stored(nodes);
    if level >= version.levels() {
        return Ok(());
    }
    world_stores::inner(alloc, nodes, version, level, index, bytes)
}

/// Replaces the bytes of the inner node at this level and index, or removes it. Changes nothing at a
/// level where the tree has no inner node. Fails when out of memory.
pub(crate) fn inner(
    alloc: Global,
    stores: &mut MemStores,
    level: u8,
    index: u32,
    bytes: &Option<Bytes>,
) -> Result<(), WorldError>
    requires { (level ≤ 4) × (index < 16 ^ level) }
    ensures ok { OnOk result (stores.new ≡ inner_spoiled level index bytes.now stores.old) }
    ensures memory { IfErr result (λ e. e ≡ WorldError.Memory) }
{
    let (mark, mut nodes) = take_nodes(alloc, &mut stores.tree);
    let damaged = inner_in(alloc, &mut nodes, level, index, bytes);
    stores.tree = Tree::join(mark, nodes);
    match damaged {
        Ok(()) => Ok(()),
        Err(_) => Err(WorldError::Memory),
    }
}

/// Takes back the last `changes` writes of the top record.
pub(crate) fn revert(alloc: Global, stores: &mut MemStores, changes: u32)
    ensures { stores.new ≡ taken_back changes stores.old }
{
    let (mark, mut nodes) = take_nodes(alloc, &mut stores.tree);
    nodes.revert(changes as usize);
    stores.tree = Tree::join(mark, nodes);
}
