ghost use Rattle.std.specs.Prelude.{◌≡◌, ◌-◌, ◌/◌, ◌<◌, IfOk, IfErr, get_or, None, Some};
ghost use Rattle.tree_node.specs.TreeVersions.{levels};
ghost use Rattle.tree_node.specs.Positions.{IsPosition};
ghost use Rattle.synctree.specs.Sixteen.{form_of, children_of};
ghost use Rattle.world_stores.specs.Naming.{child_in as child_encoded, child_under as child_stored, named_at as digest_at, segment_place, version_in, version_of_root};

use crate::nodes::HeldNodes;
use ens_base::{Digest, Key};
use environment::StoreError;
use hash_book::digest_of;
use std::alloc::Global;
use synctree::{ROOT, child, children, nibble};
use tree_node::{InnerNode, NodeError, Position, TreeVersion, decode_inner};

/// Returns the position of the parent.
fn parent(at: Position) -> Position
    requires { 0 < at.level }
    ensures { result ≡ record { level = at.level - 1; index = at.index / 16 } }
{
    Position {
        level: at.level - 1,
        index: at.index / 16,
    }
}

/// Returns the digest of child `digit` of the node, or `None` if there is no such child. Fails only
/// when out of memory.
fn child_of(alloc: Global, node: &InnerNode, digit: u8) -> Result<Option<Digest>, StoreError>
    ensures found { IfOk result (λ o. o ≡ get_or (children_of node.now.mask node.now.digests) digit None) }
    ensures memory { IfErr result (λ e. e ≡ StoreError.Memory) }
{
    let Ok(all) = children(alloc, node) else {
        return Err(StoreError::Memory);
    };
    match all.as_slice().get(digit as usize) {
        Some(child) => Ok(*child),
        None => Ok(None),
    }
}

/// Returns the digest of child `digit` in bytes that encode the inner node of a position, or `None`
/// if there is no such child, or the bytes encode no such node. Fails only when out of memory.
#[tactic(auto, unfolding(synctree::specs::Sixteen::form_of))]
fn child_in(
    alloc: Global,
    version: TreeVersion,
    bytes: &[u8],
    at: Position,
    digit: u8,
) -> Result<Option<Digest>, StoreError>
    requires { IsPosition version at }
    ensures found { IfOk result (λ o. o ≡ child_encoded (form_of version) at digit bytes.now) }
    ensures memory { IfErr result (λ e. e ≡ StoreError.Memory) }
{
    match decode_inner(alloc, bytes, at, version) {
        Ok(node) => child_of(alloc, &node, digit),
        Err(NodeError::Memory) => Err(StoreError::Memory),
        Err(_) => Ok(None),
    }
}

/// Returns the digest of child `digit` of the inner node stored under the digest, or `None` if there
/// is no such child or no such node. Fails only when out of memory.
fn child_under(
    alloc: Global,
    version: TreeVersion,
    nodes: &HeldNodes,
    at: Position,
    digit: u8,
    digest: &Digest,
) -> Result<Option<Digest>, StoreError>
    requires { IsPosition version at }
    ensures found { IfOk result (λ o. o ≡ child_stored (form_of version) nodes.now.entries at digit digest.now) }
    ensures memory { IfErr result (λ e. e ≡ StoreError.Memory) }
{
    match nodes.look(digest) {
        Some(bytes) => child_in(alloc, version, bytes, at, digit),
        None => Ok(None),
    }
}

/// Returns the digest that the stored nodes of a tree of this version name at a position, or `None` if
/// they name none. Fails only when out of memory.
pub(crate) fn named_at(
    alloc: Global,
    version: TreeVersion,
    nodes: &HeldNodes,
    at: Position,
) -> Result<Option<Digest>, StoreError>
    requires { IsPosition version at }
    ensures found { IfOk result (λ o. o ≡ digest_at (form_of version) nodes.now at) }
    ensures memory { IfErr result (λ e. e ≡ StoreError.Memory) }
{
    if at.level == 0 {
        return Ok(nodes.top_record());
    }
    let above = parent(at);
    let digit = (at.index % 16) as u8;
    match named_at(alloc, version, nodes, above)? {
        Some(digest) => child_under(alloc, version, nodes, above, digit, &digest),
        None => Ok(None),
    }
}

/// Returns the position of the segment of a key in the tree of this version.
pub(crate) fn segment_of(version: TreeVersion, key: &Key) -> Position
    ensures place { result ≡ segment_place (form_of version) key.now }
    ensures position { IsPosition version result }
{
    let path = digest_of(key.bytes());
    let mut at = ROOT;
    for level in 0..version.levels() {
        at = child(at, nibble(&path, level));
    }
    at
}

/// Returns the version of the tree whose root has these bytes, as the first of them tells.
fn version_of_bytes(bytes: &[u8]) -> TreeVersion
    ensures { result ≡ version_of_root (Some bytes.now) }
{
    match bytes.first() {
        Some(tag) => {
            if *tag == TreeVersion::Two.inner_tag() {
                TreeVersion::Two
            } else {
                TreeVersion::One
            }
        }
        None => TreeVersion::One,
    }
}

/// Returns the version of the tree in these nodes, as the first byte of the stored root tells: version one,
/// but where it is the tag of an inner node of version two.
pub fn version_stored(nodes: &HeldNodes) -> TreeVersion
    ensures { result ≡ version_in nodes.now }
{
    let Some(digest) = nodes.top_record() else {
        return TreeVersion::One;
    };
    match nodes.look(&digest) {
        Some(bytes) => version_of_bytes(bytes),
        None => TreeVersion::One,
    }
}
