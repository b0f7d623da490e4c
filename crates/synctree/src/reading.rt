ghost use Rattle.std.specs.Prelude.{◌<◌, Some, None, get_or, IfOk};
ghost use Rattle.std.specs.Option.{option_map};
ghost use Rattle.synctree.specs.TreeNode.{AreEntries, IsPosition, inner_of, segment_of};
ghost use Rattle.synctree.specs.Entries.{lookup as found};
ghost use Rattle.synctree.specs.Sixteen.{children_in, entries_in};
ghost use Rattle.synctree.specs.Answers.{Spells, Makes};

use crate::error::TreeError;
use crate::shape::{child_in, children};
use ens_base::{Digest, Entry, Key, Seq};
use std::alloc::Global;
use tree_node::{NodeError, Position, TreeVersion, decode_inner, decode_segment};

/// Decodes an inner node, and returns its children. `Damaged` names `at` if the bytes are not an
/// inner node of that position.
pub(crate) fn inner(
    alloc: Global,
    bytes: &[u8],
    version: TreeVersion,
    at: Position,
) -> Result<Seq<Option<Digest>>, TreeError>
    requires { IsPosition version at }
    ensures { Spells result at (children_in (inner_of version at bytes.now)) }
{
    match decode_inner(alloc, bytes, at, version) {
        Ok(node) => children(alloc, &node),
        Err(NodeError::Memory) => Err(TreeError::Memory),
        Err(_) => Err(TreeError::Damaged(at)),
    }
}

/// Decodes an inner node, and returns the digest of child `digit`, or `None` if there is no such child.
/// `Damaged` names `at` if the bytes are not an inner node of that position.
pub(crate) fn inner_child(
    alloc: Global,
    bytes: &[u8],
    version: TreeVersion,
    at: Position,
    digit: u8,
) -> Result<Option<Digest>, TreeError>
    requires position { IsPosition version at }
    requires digit { digit < 16 }
    ensures { Spells result at (option_map (λ names. get_or names digit None) (children_in (inner_of version at bytes.now))) }
{
    match decode_inner(alloc, bytes, at, version) {
        Ok(node) => Ok(child_in(&node, digit)),
        Err(NodeError::Memory) => Err(TreeError::Memory),
        Err(_) => Err(TreeError::Damaged(at)),
    }
}

/// Decodes a segment, and returns its entries. `Damaged` names `at` if the bytes are not a segment
/// of that position.
pub(crate) fn segment(
    alloc: Global,
    bytes: &[u8],
    version: TreeVersion,
    at: Position,
) -> Result<Seq<Entry>, TreeError>
    requires { IsPosition version at }
    ensures read { Spells result at (entries_in (segment_of version at bytes.now)) }
    ensures entries { IfOk result (λ entries. AreEntries entries) }
{
    match decode_segment(alloc, bytes, at, version) {
        Ok(node) => Ok(node.entries),
        Err(NodeError::Memory) => Err(TreeError::Memory),
        Err(_) => Err(TreeError::Damaged(at)),
    }
}

/// Returns a copy of the entry of the key, if there is one. Fails only when out of memory.
pub(crate) fn lookup(
    alloc: Global,
    entries: &[Entry],
    key: &Key,
) -> Result<Option<Entry>, TreeError>
    ensures { Makes result (found key.now entries.now) }
{
    for entry in entries {
        if entry.key == *key {
            return Ok(Some(entry.copy(alloc)?));
        }
    }
    Ok(None)
}
