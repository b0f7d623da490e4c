ghost use Rattle.std.specs.Prelude.{◌≡◌, ◌-◌, ◌/◌, ◌<◌};
ghost use Rattle.synctree.specs.TreeNode.{levels, IsPosition, inner_of, segment_of};
ghost use Rattle.std.specs.Option.{is_some};
ghost use Rattle.synctree.specs.Sixteen.{form_of, children_in, entries_in};
ghost use Rattle.synctree.specs.Answers.{Makes};
ghost use Rattle.synctree.specs.Outsides.{outside_does, outside_refuses};
ghost use Rattle.synctree.specs.Plans.{Did};
ghost use Rattle.synctree.specs.Nodes.{name_at as name_plan, node_bytes as bytes_plan, is_node as encodes, node_under, node_plan};

use crate::error::TreeError;
use crate::shape::ROOT;
use crate::walk::{child_name, fetch};
use ens_base::{Bytes, Digest};
use environment::NodeStore;
use hash_book::Hasher16;
use std::alloc::Global;
use tree_node::{NodeError, Position, TreeVersion, decode_inner, decode_segment};

/// Returns the position of the parent.
fn parent(at: Position) -> Position
    requires { 0 < at.level }
    ensures { result ≡ record { level = at.level - 1; index = at.index / 16 } }
{
    Position {
        level: at.level - 1,
        index: at.index / 16,
    }
}

/// Returns the digest of the node at a position of the tree whose root has digest `top`, or `None`
/// if the position is empty.
fn name_at<N: NodeStore, H: Hasher16>(
    alloc: Global,
    nodes: &mut N,
    hasher: &mut H,
    version: TreeVersion,
    top: &Digest,
    at: Position,
) -> Result<Option<Digest>, TreeError>
    requires { IsPosition version at }
    ensures { Did (outside_does N.may_answer N.top_record N.fault_count H.kept H.clashes H.fulls) (outside_refuses N.may_refuse N.top_record N.fault_count H.kept H.clashes H.fulls)
        (name_plan (form_of version) top.now at.level at.index) (nodes.old, hasher.old) result (nodes.new, hasher.new) }
{
    if at.level == 0 {
        return Ok(Some(*top));
    }
    let above = parent(at);
    let digit = (at.index % 16) as u8;
    match name_at(alloc, nodes, hasher, version, top, above)? {
        Some(digest) => child_name(alloc, nodes, hasher, version, above, digit, &digest),
        None => Ok(None),
    }
}

/// Tests whether the bytes encode a node of this position. Fails only when out of memory.
fn is_node(
    alloc: Global,
    bytes: &[u8],
    version: TreeVersion,
    at: Position,
) -> Result<bool, TreeError>
    requires { IsPosition version at }
    ensures { Makes result (encodes (form_of version) (levels version - at.level) at bytes.now) }
{
    let last = version.levels();
    if at.level == last {
        is_segment(alloc, bytes, version, at)
    } else {
        is_inner(alloc, bytes, version, at)
    }
}

/// Tests whether the bytes encode an inner node of this position. Fails only when out of memory.
pub(crate) fn is_inner(
    alloc: Global,
    bytes: &[u8],
    version: TreeVersion,
    at: Position,
) -> Result<bool, TreeError>
    requires { IsPosition version at }
    ensures { Makes result (is_some (children_in (inner_of version at bytes.now))) }
{
    match decode_inner(alloc, bytes, at, version) {
        Ok(_node) => Ok(true),
        Err(NodeError::Memory) => Err(TreeError::Memory),
        Err(_) => Ok(false),
    }
}

/// Tests whether the bytes encode a segment of this position. Fails only when out of memory.
fn is_segment(
    alloc: Global,
    bytes: &[u8],
    version: TreeVersion,
    at: Position,
) -> Result<bool, TreeError>
    requires { IsPosition version at }
    ensures { Makes result (is_some (entries_in (segment_of version at bytes.now))) }
{
    match decode_segment(alloc, bytes, at, version) {
        Ok(_node) => Ok(true),
        Err(NodeError::Memory) => Err(TreeError::Memory),
        Err(_) => Ok(false),
    }
}

/// Returns the bytes of the node under the digest.
fn node_bytes<N: NodeStore, H: Hasher16>(
    alloc: Global,
    nodes: &mut N,
    hasher: &mut H,
    version: TreeVersion,
    at: Position,
    digest: &Digest,
) -> Result<Option<Bytes>, TreeError>
    requires { IsPosition version at }
    ensures { Did (outside_does N.may_answer N.top_record N.fault_count H.kept H.clashes H.fulls) (outside_refuses N.may_refuse N.top_record N.fault_count H.kept H.clashes H.fulls)
        (bytes_plan (form_of version) at digest.now) (nodes.old, hasher.old) result (nodes.new, hasher.new) }
{
    let bytes = fetch(alloc, nodes, hasher, at, digest)?;
    if is_node(alloc, bytes.as_slice(), version, at)? {
        Ok(Some(bytes))
    } else {
        Err(TreeError::Damaged(at))
    }
}

/// Returns the bytes of the node at a position of the tree whose root has digest `top`, or `None`
/// if the position is empty.
fn node_at<N: NodeStore, H: Hasher16>(
    alloc: Global,
    nodes: &mut N,
    hasher: &mut H,
    version: TreeVersion,
    top: &Digest,
    at: Position,
) -> Result<Option<Bytes>, TreeError>
    requires { IsPosition version at }
    ensures { Did (outside_does N.may_answer N.top_record N.fault_count H.kept H.clashes H.fulls) (outside_refuses N.may_refuse N.top_record N.fault_count H.kept H.clashes H.fulls)
        (node_under (form_of version) at top.now) (nodes.old, hasher.old) result (nodes.new, hasher.new) }
{
    match name_at(alloc, nodes, hasher, version, top, at)? {
        Some(digest) => node_bytes(alloc, nodes, hasher, version, at, &digest),
        None => Ok(None),
    }
}

/// Returns the bytes of the node at a position of the tree under the top record, or `None` if the
/// position is empty.
pub(crate) fn node_from_top<N: NodeStore, H: Hasher16>(
    alloc: Global,
    nodes: &mut N,
    hasher: &mut H,
    version: TreeVersion,
    top: Option<Digest>,
    at: Position,
) -> Result<Option<Bytes>, TreeError>
    requires { IsPosition version at }
    ensures { Did (outside_does N.may_answer N.top_record N.fault_count H.kept H.clashes H.fulls) (outside_refuses N.may_refuse N.top_record N.fault_count H.kept H.clashes H.fulls)
        (node_plan (form_of version) top at) (nodes.old, hasher.old) result (nodes.new, hasher.new) }
{
    match top {
        Some(digest) => node_at(alloc, nodes, hasher, version, &digest, at),
        None => Err(TreeError::Damaged(ROOT)),
    }
}
