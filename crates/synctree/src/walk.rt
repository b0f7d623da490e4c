ghost use Rattle.std.specs.Prelude.{◌≡◌, ◌<◌, Option, None, Some, IfOk};
ghost use Rattle.md5.specs.Md5.{md5};
ghost use Rattle.synctree.specs.TreeNode.{AreEntries, IsPosition};
ghost use Rattle.synctree.specs.Forms.{IsPlace};
ghost use Rattle.synctree.specs.Sixteen.{form_of};
ghost use Rattle.synctree.specs.Outsides.{outside_does, outside_refuses};
ghost use Rattle.synctree.specs.Plans.{Did};
ghost use Rattle.synctree.specs.Walks.{fetch as fetch_plan, open_node, find as find_plan};
ghost use Rattle.synctree.specs.Trees.{get_plan};
ghost use Rattle.synctree.specs.Nodes.{child_name as child_name_plan};

use crate::calls::{hash, read};
use crate::error::TreeError;
use crate::reading::{inner, inner_child, lookup, segment};
use crate::shape::{ROOT, child, nibble};
use ens_base::{Bytes, Digest, Entry, Key, Seq};
use environment::NodeStore;
use hash_book::Hasher16;
use std::alloc::Global;
use tree_node::{Position, TreeVersion};

/// Returns the bytes stored under the digest, which is their MD5. `Damaged` names `at` if there are
/// no such bytes.
pub(crate) fn fetch<N: NodeStore, H: Hasher16>(
    alloc: Global,
    nodes: &mut N,
    hasher: &mut H,
    at: Position,
    digest: &Digest,
) -> Result<Bytes, TreeError>
    ensures { Did (outside_does N.may_answer N.top_record N.fault_count H.kept H.clashes H.fulls) (outside_refuses N.may_refuse N.top_record N.fault_count H.kept H.clashes H.fulls)
        (fetch_plan at digest.now) (nodes.old, hasher.old) result (nodes.new, hasher.new) }
{
    let bytes = match read(alloc, nodes, digest)? {
        Some(bytes) => bytes,
        None => return Err(TreeError::Damaged(at)),
    };
    if hash(alloc, hasher, bytes.as_slice())? == *digest {
        Ok(bytes)
    } else {
        Err(TreeError::Damaged(at))
    }
}

/// Returns the children of the inner node under the digest.
pub(crate) fn open_inner<N: NodeStore, H: Hasher16>(
    alloc: Global,
    nodes: &mut N,
    hasher: &mut H,
    version: TreeVersion,
    at: Position,
    digest: &Digest,
) -> Result<Seq<Option<Digest>>, TreeError>
    requires { IsPosition version at }
    ensures { Did (outside_does N.may_answer N.top_record N.fault_count H.kept H.clashes H.fulls) (outside_refuses N.may_refuse N.top_record N.fault_count H.kept H.clashes H.fulls)
        (open_node ((form_of version).inner_at at) at digest.now) (nodes.old, hasher.old) result (nodes.new, hasher.new) }
{
    let bytes = fetch(alloc, nodes, hasher, at, digest)?;
    inner(alloc, bytes.as_slice(), version, at)
}

/// Returns the digest of a child of the inner node under the digest, or `None` if there is no such
/// child.
pub(crate) fn child_name<N: NodeStore, H: Hasher16>(
    alloc: Global,
    nodes: &mut N,
    hasher: &mut H,
    version: TreeVersion,
    at: Position,
    digit: u8,
    digest: &Digest,
) -> Result<Option<Digest>, TreeError>
    requires position { IsPosition version at }
    requires digit { digit < 16 }
    ensures { Did (outside_does N.may_answer N.top_record N.fault_count H.kept H.clashes H.fulls) (outside_refuses N.may_refuse N.top_record N.fault_count H.kept H.clashes H.fulls)
        (child_name_plan (form_of version) at digit digest.now) (nodes.old, hasher.old) result (nodes.new, hasher.new) }
{
    let bytes = fetch(alloc, nodes, hasher, at, digest)?;
    inner_child(alloc, bytes.as_slice(), version, at, digit)
}

/// Returns the entries of the segment under the digest.
pub(crate) fn open_segment<N: NodeStore, H: Hasher16>(
    alloc: Global,
    nodes: &mut N,
    hasher: &mut H,
    version: TreeVersion,
    at: Position,
    digest: &Digest,
) -> Result<Seq<Entry>, TreeError>
    requires { IsPosition version at }
    ensures did { Did (outside_does N.may_answer N.top_record N.fault_count H.kept H.clashes H.fulls) (outside_refuses N.may_refuse N.top_record N.fault_count H.kept H.clashes H.fulls)
        (open_node ((form_of version).segment_at at) at digest.now) (nodes.old, hasher.old) result (nodes.new, hasher.new) }
    ensures entries { IfOk result (λ entries. AreEntries entries) }
{
    let bytes = fetch(alloc, nodes, hasher, at, digest)?;
    segment(alloc, bytes.as_slice(), version, at)
}

/// Returns the entry of the key in the segment under the digest.
fn find_in_segment<N: NodeStore, H: Hasher16>(
    alloc: Global,
    nodes: &mut N,
    hasher: &mut H,
    version: TreeVersion,
    at: Position,
    digest: &Digest,
    key: &Key,
) -> Result<Option<Entry>, TreeError>
    requires { IsPosition version at }
    ensures { Did (outside_does N.may_answer N.top_record N.fault_count H.kept H.clashes H.fulls) (outside_refuses N.may_refuse N.top_record N.fault_count H.kept H.clashes H.fulls)
        (find_plan (form_of version) 0 at digest.now key.now) (nodes.old, hasher.old) result (nodes.new, hasher.new) }
{
    let entries = open_segment(alloc, nodes, hasher, version, at, digest)?;
    lookup(alloc, entries.as_slice(), key)
}

/// Returns the entry of the key under a node with this digest and `height` levels below it. `path`
/// is the digest of the key.
fn find<N: NodeStore, H: Hasher16>(
    alloc: Global,
    nodes: &mut N,
    hasher: &mut H,
    version: TreeVersion,
    height: u8,
    at: Position,
    digest: &Digest,
    path: &Digest,
    key: &Key,
) -> Result<Option<Entry>, TreeError>
    requires place { IsPlace (form_of version) height at }
    requires path { path.now ≡ md5 key.now }
    ensures { Did (outside_does N.may_answer N.top_record N.fault_count H.kept H.clashes H.fulls) (outside_refuses N.may_refuse N.top_record N.fault_count H.kept H.clashes H.fulls)
        (find_plan (form_of version) height at digest.now key.now) (nodes.old, hasher.old) result (nodes.new, hasher.new) }
{
    if height == 0 {
        return find_in_segment(alloc, nodes, hasher, version, at, digest, key);
    }
    let digit = nibble(path, at.level);
    let named = child_name(alloc, nodes, hasher, version, at, digit, digest)?;
    match named {
        Some(below) => {
            let at = child(at, digit);
            find(
                alloc,
                nodes,
                hasher,
                version,
                height - 1,
                at,
                &below,
                path,
                key,
            )
        }
        None => Ok(None),
    }
}

/// Returns the entry of the key in the tree under the top record.
pub(crate) fn find_from_top<N: NodeStore, H: Hasher16>(
    alloc: Global,
    nodes: &mut N,
    hasher: &mut H,
    version: TreeVersion,
    top: Option<Digest>,
    key: &Key,
) -> Result<Option<Entry>, TreeError>
    ensures { Did (outside_does N.may_answer N.top_record N.fault_count H.kept H.clashes H.fulls) (outside_refuses N.may_refuse N.top_record N.fault_count H.kept H.clashes H.fulls)
        (get_plan (form_of version) top key.now) (nodes.old, hasher.old) result (nodes.new, hasher.new) }
{
    let path = hash(alloc, hasher, key.bytes())?;
    let height = version.levels();
    match top {
        Some(digest) => find(
            alloc, nodes, hasher, version, height, ROOT, &digest, &path, key,
        ),
        None => Err(TreeError::Damaged(ROOT)),
    }
}
