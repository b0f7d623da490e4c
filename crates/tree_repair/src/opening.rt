ghost use Rattle.std.specs.Prelude.{◌≡◌};
ghost use Rattle.tree_node.specs.Positions.{IsPosition};
ghost use Rattle.tree_node.specs.Nodes.{inner_of, segment_of};
ghost use Rattle.synctree.specs.Sixteen.{form_of, children_in, entries_in};
ghost use Rattle.synctree.specs.Answers.{Makes};
ghost use Rattle.tree_repair.specs.Hashers.{digest_if, agree};
ghost use Rattle.tree_repair.specs.Levels.{verified};

use crate::slot::Slot;
use ens_base::{Bytes, Digest, Entry, Seq};
use std::alloc::Global;
use synctree::{TreeError, children};
use tree_node::{NodeError, Position, TreeVersion, decode_inner, decode_segment};

/// Returns the children of the inner node that the bytes encode, or `None` if they encode none of
/// this position. Fails only when out of memory.
fn inner(
    alloc: Global,
    bytes: &[u8],
    version: TreeVersion,
    at: Position,
) -> Result<Option<Seq<Option<Digest>>>, TreeError>
    requires { IsPosition version at }
    ensures { Makes result (children_in (inner_of version at bytes.now)) }
{
    match decode_inner(alloc, bytes, at, version) {
        Ok(node) => Ok(Some(children(alloc, &node)?)),
        Err(NodeError::Memory) => Err(TreeError::Memory),
        Err(_) => Ok(None),
    }
}

/// Returns the entries of the segment that the bytes encode, or `None` if they encode none of this
/// position. Fails only when out of memory.
fn segment(
    alloc: Global,
    bytes: &[u8],
    version: TreeVersion,
    at: Position,
) -> Result<Option<Seq<Entry>>, TreeError>
    requires { IsPosition version at }
    ensures { Makes result (entries_in (segment_of version at bytes.now)) }
{
    match decode_segment(alloc, bytes, at, version) {
        Ok(node) => Ok(Some(node.entries)),
        Err(NodeError::Memory) => Err(TreeError::Memory),
        Err(_) => Ok(None),
    }
}

/// Tests whether a node was read for the slot that has its digest. `found` is the digest of what
/// was read.
fn agrees(slot: Slot, found: Option<Digest>) -> bool
    ensures { result ≡ agree slot.digest found }
{
    match slot.digest {
        Some(named) => match found {
            Some(digest) => digest == named,
            None => false,
        },
        None => false,
    }
}

/// Returns the children of the node of a slot, or `None` if it does not verify. `found` is the
/// digest of what was read. Fails only when out of memory.
pub(crate) fn open_inner(
    alloc: Global,
    version: TreeVersion,
    slot: Slot,
    read: &Option<Bytes>,
    found: Option<Digest>,
) -> Result<Option<Seq<Option<Digest>>>, TreeError>
    requires position { IsPosition version slot.at }
    requires found { found ≡ digest_if read.now }
    ensures { Makes result (verified ((form_of version).inner_at slot.at) slot.digest read.now) }
{
    let at = slot.at;
    if !agrees(slot, found) {
        return Ok(None);
    }
    match read {
        Some(bytes) => inner(alloc, bytes.as_slice(), version, at),
        None => Ok(None),
    }
}

/// Returns the entries of the segment of a slot, or `None` if it does not verify. `found` is the
/// digest of what was read. Fails only when out of memory.
pub(crate) fn open_segment(
    alloc: Global,
    version: TreeVersion,
    slot: Slot,
    read: &Option<Bytes>,
    found: Option<Digest>,
) -> Result<Option<Seq<Entry>>, TreeError>
    requires position { IsPosition version slot.at }
    requires found { found ≡ digest_if read.now }
    ensures { Makes result (verified ((form_of version).segment_at slot.at) slot.digest read.now) }
{
    let at = slot.at;
    if !agrees(slot, found) {
        return Ok(None);
    }
    match read {
        Some(bytes) => segment(alloc, bytes.as_slice(), version, at),
        None => Ok(None),
    }
}
