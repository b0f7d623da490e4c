ghost use Rattle.std.specs.Prelude.{◌≡◌, ◌≤◌, ◌<◌, [], None, IfOk, length, replicate};
ghost use Rattle.md5.specs.Md5.{md5};
ghost use Rattle.synctree.specs.TreeNode.{IsPosition, AreAbove, AreEntries};
ghost use Rattle.synctree.specs.Entries.{put};
ghost use Rattle.synctree.specs.Forms.{IsPlace};
ghost use Rattle.synctree.specs.Sixteen.{form_of};
ghost use Rattle.synctree.specs.Answers.{Makes};
ghost use Rattle.synctree.specs.Outsides.{outside_does, outside_refuses};
ghost use Rattle.synctree.specs.Plans.{Did};
ghost use Rattle.synctree.specs.Records.{KeptUnlessFailed};
ghost use Rattle.synctree.specs.Walks.{reach, store as store_plan, enter as enter_plan};
ghost use Rattle.synctree.specs.Trees.{publish_plan, insert_plan};

use crate::calls::{hash, set_top};
use crate::encoding::{encode_inner, encode_segment};
use crate::error::TreeError;
use crate::shape::{ROOT, WIDTH, child, name_of, nibble, with_child};
use crate::store::store;
use crate::walk::{open_inner, open_segment};
use ens_base::{Digest, Entry, Seq};
use environment::NodeStore;
use hash_book::Hasher16;
use std::alloc::Global;
use std::cmp::Ordering;
use tree_node::{Position, Segment, TreeVersion};

/// Returns the children of an inner node that has none.
fn no_children(alloc: Global) -> Result<Seq<Option<Digest>>, TreeError>
    ensures { Makes result (replicate 16 None) }
{
    Ok(Seq::new(Vec::from_elem(alloc, None, WIDTH)?))
}

/// Returns the children of the inner node that is named, or of one that has none.
fn reach_inner<N: NodeStore, H: Hasher16>(
    alloc: Global,
    nodes: &mut N,
    hasher: &mut H,
    version: TreeVersion,
    at: Position,
    named: Option<Digest>,
) -> Result<Seq<Option<Digest>>, TreeError>
    requires { IsPosition version at }
    ensures did { Did (outside_does N.may_answer N.top_record N.fault_count H.kept H.clashes H.fulls) (outside_refuses N.may_refuse N.top_record N.fault_count H.kept H.clashes H.fulls)
        (reach ((form_of version).inner_at at) (replicate 16 None) at named) (nodes.old, hasher.old) result (nodes.new, hasher.new) }
    ensures width { IfOk result (λ names. length names ≡ 16) }
{
    match named {
        Some(digest) => open_inner(alloc, nodes, hasher, version, at, &digest),
        None => no_children(alloc),
    }
}

/// Returns the entries of the segment that is named, or no entries.
fn reach_segment<N: NodeStore, H: Hasher16>(
    alloc: Global,
    nodes: &mut N,
    hasher: &mut H,
    version: TreeVersion,
    at: Position,
    named: Option<Digest>,
) -> Result<Seq<Entry>, TreeError>
    requires { IsPosition version at }
    ensures did { Did (outside_does N.may_answer N.top_record N.fault_count H.kept H.clashes H.fulls) (outside_refuses N.may_refuse N.top_record N.fault_count H.kept H.clashes H.fulls)
        (reach ((form_of version).segment_at at) [] at named) (nodes.old, hasher.old) result (nodes.new, hasher.new) }
    ensures entries { IfOk result (λ entries. AreEntries entries) }
{
    match named {
        Some(digest) => open_segment(alloc, nodes, hasher, version, at, &digest),
        None => Ok(Seq::new(Vec::new(alloc))),
    }
}

/// Adds a copy of `entry`, in place of the entry of its key. Fails only when out of memory.
fn put_into(alloc: Global, entries: Seq<Entry>, entry: &Entry) -> Result<Seq<Entry>, TreeError>
    ensures made { Makes result (put entry.now entries) }
    ensures key { 1 ≤ length entry.now.key }
{
    let key = entry.key.bytes();
    let copy = entry.copy(alloc)?;
    let mut entries = entries.into_vec();
    for i in 0..entries.len() {
        match key.cmp(entries[i].key.bytes()) {
            Ordering::Less => {
                entries.insert(i, copy)?;
                return Ok(Seq::new(entries));
            }
            Ordering::Equal => {
                entries[i] = copy;
                return Ok(Seq::new(entries));
            }
            Ordering::Greater => {}
        }
    }
    entries.push(copy)?;
    Ok(Seq::new(entries))
}

/// Writes the segment with these entries, and returns its digest.
fn store_segment<N: NodeStore, H: Hasher16>(
    alloc: Global,
    nodes: &mut N,
    hasher: &mut H,
    version: TreeVersion,
    at: Position,
    entries: Seq<Entry>,
) -> Result<Digest, TreeError>
    requires position { IsPosition version at }
    requires ascending { AreAbove [] entries }
    ensures { Did (outside_does N.may_answer N.top_record N.fault_count H.kept H.clashes H.fulls) (outside_refuses N.may_refuse N.top_record N.fault_count H.kept H.clashes H.fulls)
        (store_plan ((form_of version).segment_text at entries)) (nodes.old, hasher.old) result (nodes.new, hasher.new) }
{
    let segment = Segment {
        version,
        position: at,
        entries,
    };
    let bytes = encode_segment(alloc, &segment)?;
    store(alloc, nodes, hasher, bytes.as_slice())
}

/// Writes the inner node with these children, and returns its digest.
fn store_inner<N: NodeStore, H: Hasher16>(
    alloc: Global,
    nodes: &mut N,
    hasher: &mut H,
    version: TreeVersion,
    at: Position,
    names: &[Option<Digest>],
) -> Result<Digest, TreeError>
    requires position { IsPosition version at }
    requires width { length names.now ≤ 16 }
    ensures { Did (outside_does N.may_answer N.top_record N.fault_count H.kept H.clashes H.fulls) (outside_refuses N.may_refuse N.top_record N.fault_count H.kept H.clashes H.fulls)
        (store_plan ((form_of version).inner_text at names.now)) (nodes.old, hasher.old) result (nodes.new, hasher.new) }
{
    let bytes = encode_inner(alloc, version, at, names)?;
    store(alloc, nodes, hasher, bytes.as_slice())
}

/// Enters the entry into the segment that is named, or into an empty one. Returns the digest of the
/// segment that was written.
fn enter_in_segment<N: NodeStore, H: Hasher16>(
    alloc: Global,
    nodes: &mut N,
    hasher: &mut H,
    version: TreeVersion,
    at: Position,
    named: Option<Digest>,
    entry: &Entry,
) -> Result<Digest, TreeError>
    requires { IsPosition version at }
    ensures { Did (outside_does N.may_answer N.top_record N.fault_count H.kept H.clashes H.fulls) (outside_refuses N.may_refuse N.top_record N.fault_count H.kept H.clashes H.fulls)
        (enter_plan (form_of version) 0 at named entry.now) (nodes.old, hasher.old) result (nodes.new, hasher.new) }
{
    let old = reach_segment(alloc, nodes, hasher, version, at, named)?;
    let new = put_into(alloc, old, entry)?;
    store_segment(alloc, nodes, hasher, version, at, new)
}

/// Enters the entry under a node with `height` levels below it: writes the nodes on its path, the
/// lowest first, and returns the digest of the topmost. `path` is the digest of the entry's key.
fn enter<N: NodeStore, H: Hasher16>(
    alloc: Global,
    nodes: &mut N,
    hasher: &mut H,
    version: TreeVersion,
    height: u8,
    at: Position,
    named: Option<Digest>,
    path: &Digest,
    entry: &Entry,
) -> Result<Digest, TreeError>
    requires place { IsPlace (form_of version) height at }
    requires path { path.now ≡ md5 entry.now.key }
    ensures { Did (outside_does N.may_answer N.top_record N.fault_count H.kept H.clashes H.fulls) (outside_refuses N.may_refuse N.top_record N.fault_count H.kept H.clashes H.fulls)
        (enter_plan (form_of version) height at named entry.now) (nodes.old, hasher.old) result (nodes.new, hasher.new) }
{
    if height == 0 {
        return enter_in_segment(alloc, nodes, hasher, version, at, named, entry);
    }
    let names = reach_inner(alloc, nodes, hasher, version, at, named)?;
    let digit = nibble(path, at.level);
    let named = name_of(names.as_slice(), digit);
    let place = child(at, digit);
    let below = enter(
        alloc,
        nodes,
        hasher,
        version,
        height - 1,
        place,
        named,
        path,
        entry,
    )?;
    let names = with_child(names, digit, below);
    store_inner(alloc, nodes, hasher, version, at, names.as_slice())
}

/// Enters the entry into the tree under the top record, and returns the digest of the new root.
pub(crate) fn enter_from_top<N: NodeStore, H: Hasher16>(
    alloc: Global,
    nodes: &mut N,
    hasher: &mut H,
    version: TreeVersion,
    top: Option<Digest>,
    entry: &Entry,
) -> Result<Digest, TreeError>
    ensures did { Did (outside_does N.may_answer N.top_record N.fault_count H.kept H.clashes H.fulls) (outside_refuses N.may_refuse N.top_record N.fault_count H.kept H.clashes H.fulls)
        (insert_plan (form_of version) top entry.now) (nodes.old, hasher.old) result (nodes.new, hasher.new) }
    ensures kept { KeptUnlessFailed (N.top_record nodes.old) (N.top_record nodes.new) result }
{
    let path = hash(alloc, hasher, entry.key.bytes())?;
    match top {
        Some(digest) => publish(alloc, nodes, hasher, version, digest, &path, entry),
        None => Err(TreeError::Damaged(ROOT)),
    }
}

/// Writes the nodes on the path of the entry from the root, and then the top record. Returns the
/// digest of the new root.
fn publish<N: NodeStore, H: Hasher16>(
    alloc: Global,
    nodes: &mut N,
    hasher: &mut H,
    version: TreeVersion,
    digest: Digest,
    path: &Digest,
    entry: &Entry,
) -> Result<Digest, TreeError>
    requires { path.now ≡ md5 entry.now.key }
    ensures did { Did (outside_does N.may_answer N.top_record N.fault_count H.kept H.clashes H.fulls) (outside_refuses N.may_refuse N.top_record N.fault_count H.kept H.clashes H.fulls)
        (publish_plan (form_of version) digest entry.now) (nodes.old, hasher.old) result (nodes.new, hasher.new) }
    ensures kept { KeptUnlessFailed (N.top_record nodes.old) (N.top_record nodes.new) result }
{
    let height = version.levels();
    let new = enter(
        alloc,
        nodes,
        hasher,
        version,
        height,
        ROOT,
        Some(digest),
        path,
        entry,
    )?;
    set_top(nodes, &new)?;
    Ok(new)
}
