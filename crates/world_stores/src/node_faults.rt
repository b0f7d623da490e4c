ghost use Rattle.std.specs.Prelude.{◌≡◌, ◌<◌, ◌^◌, IfErr, OnOk, OnErr};
ghost use Rattle.tree_node.specs.TreeVersions.{levels};
ghost use Rattle.tree_node.specs.Positions.{IsPosition};
ghost use Rattle.synctree.specs.Sixteen.{form_of};
ghost use Rattle.world_stores.specs.NodeFaults.{place_at, replaced, spoiled_node};
ghost use Rattle.world_stores.specs.Naming.{segment_place};

use crate::naming::{named_at, segment_of};
use crate::nodes::HeldNodes;
use ens_base::{Bytes, Digest, Key};
use environment::StoreError;
use std::alloc::Global;
use tree_node::{Position, TreeVersion};

/// Stores `bytes` under `digest`, or removes the node under it if `bytes` is `None`.
fn replace(
    alloc: Global,
    nodes: &mut HeldNodes,
    digest: &Digest,
    bytes: &Option<Bytes>,
) -> Result<(), StoreError>
    ensures ok { OnOk result (nodes.new ≡ record nodes.old { entries = replaced digest.now bytes.now nodes.old.entries }) }
    ensures err { OnErr result (nodes.new ≡ nodes.old) }
    ensures memory { IfErr result (λ e. e ≡ StoreError.Memory) }
{
    match bytes {
        None => {
            nodes.lose(digest);
            Ok(())
        }
        Some(bytes) => nodes.place(alloc, digest, bytes.as_slice()),
    }
}

/// Replaces the bytes of the node that the stored nodes name at a position, or removes that node.
fn damage_at(
    alloc: Global,
    nodes: &mut HeldNodes,
    version: TreeVersion,
    at: Position,
    bytes: &Option<Bytes>,
) -> Result<(), StoreError>
    requires { IsPosition version at }
    ensures ok { OnOk result (nodes.new ≡ spoiled_node version at bytes.now nodes.old) }
    ensures err { OnErr result (nodes.new ≡ nodes.old) }
    ensures memory { IfErr result (λ e. e ≡ StoreError.Memory) }
{
    match named_at(alloc, version, nodes, at)? {
        Some(digest) => replace(alloc, nodes, &digest, bytes),
        None => Ok(()),
    }
}

/// Replaces the bytes of the segment of `key` in a tree of this version, or removes that node if
/// `bytes` is `None`. Changes nothing if the stored nodes name no such segment.
///
/// # Errors
///
/// `Memory` when out of memory, which leaves the nodes unchanged.
pub fn damage(
    alloc: Global,
    nodes: &mut HeldNodes,
    version: TreeVersion,
    key: &Key,
    bytes: &Option<Bytes>,
) -> Result<(), StoreError>
    ensures ok { OnOk result (nodes.new ≡ spoiled_node version (segment_place (form_of version) key.now) bytes.now nodes.old) }
    ensures err { OnErr result (nodes.new ≡ nodes.old) }
    ensures memory { IfErr result (λ e. e ≡ StoreError.Memory) }
{
    damage_at(alloc, nodes, version, segment_of(version, key), bytes)
}

/// Replaces the bytes of the inner node of a tree of this version at this level, which is above that of
/// the segments, and index, below 16 to the power of the level, or removes that node if `bytes` is
/// `None`. Changes nothing if the stored nodes name no such node.
///
/// # Errors
///
/// `Memory` when out of memory, which leaves the nodes unchanged.
pub fn inner(
    alloc: Global,
    nodes: &mut HeldNodes,
    version: TreeVersion,
    level: u8,
    index: u32,
    bytes: &Option<Bytes>,
) -> Result<(), StoreError>
    requires level { level < levels version }
    requires index { index < 16 ^ level }
    ensures ok { OnOk result (nodes.new ≡ spoiled_node version (place_at level index) bytes.now nodes.old) }
    ensures err { OnErr result (nodes.new ≡ nodes.old) }
    ensures memory { IfErr result (λ e. e ≡ StoreError.Memory) }
{
    let at = Position { level, index };
    damage_at(alloc, nodes, version, at, bytes)
}
