ghost use Rattle.std.specs.Prelude.{◌≡◌, IfErr};
ghost use Rattle.tree_node.specs.Nodes.{inner_of, segment_of};
ghost use Rattle.tree_node.specs.Positions.{IsPosition};
ghost use Rattle.synctree.specs.Sixteen.{form_of};
ghost use Rattle.synctree.specs.Nodes.{node_plan};
ghost use Rattle.synctree.specs.Outsides.{outside_does, outside_refuses};
ghost use Rattle.synctree.specs.Plans.{Did};
ghost use Rattle.tree_exchange.specs.Causes.{IsCause};
ghost use Rattle.tree_exchange.specs.Gives.{is_beyond as beyond_key, page_of, inner_body, segment_body, given as body_given, Makes, Answers};

use crate::error::AskError;
use crate::question::Question;
use ens_base::{Bytes, Entry, Key, Seq};
use environment::NodeStore;
use hash_book::Hasher16;
use std::alloc::Global;
use std::cmp::Ordering;
use synctree::{Tree, TreeError};
use tree_node::{NodeError, Position, TreeBody, TreeVersion, decode_inner, decode_segment};

/// The greatest number of entries in a page.
const PAGE: usize = 32;

/// Says whether the key lies beyond `after`, as every key does if there is none.
fn is_beyond(after: &Option<Key>, key: &Key) -> bool
    ensures { result ≡ beyond_key after.now key.now }
{
    match after {
        Some(after) => match after.bytes().cmp(key.bytes()) {
            Ordering::Less => true,
            Ordering::Equal => false,
            Ordering::Greater => false,
        },
        None => true,
    }
}

/// Returns the first entries beyond a key, as many as a page holds.
fn page(alloc: Global, entries: &[Entry], after: &Option<Key>) -> Result<TreeBody, AskError>
    ensures { Makes result (page_of after.now entries.now) }
{
    let mut page = Vec::new(alloc);
    for entry in entries {
        if is_beyond(after, &entry.key) {
            if page.len() == PAGE {
                return Ok(TreeBody::Page {
                    entries: Seq::new(page),
                    more: true,
                });
            }
            page.push(entry.copy(alloc)?)?;
        }
    }
    Ok(TreeBody::Page {
        entries: Seq::new(page),
        more: false,
    })
}

/// Returns what a peer sends of the inner node with these bytes.
fn inner(
    alloc: Global,
    version: TreeVersion,
    bytes: &[u8],
    at: Position,
) -> Result<TreeBody, AskError>
    requires { IsPosition version at }
    ensures { Makes result (inner_body at (inner_of version at bytes.now)) }
{
    match decode_inner(alloc, bytes, at, version) {
        Ok(node) => Ok(TreeBody::Inner {
            mask: node.mask,
            digests: node.digests,
        }),
        Err(NodeError::Memory) => Err(AskError::Memory),
        Err(_) => Ok(TreeBody::Damaged(at)),
    }
}

/// Returns what a peer sends of the segment with these bytes.
fn segment(
    alloc: Global,
    version: TreeVersion,
    bytes: &[u8],
    at: Position,
    after: &Option<Key>,
) -> Result<TreeBody, AskError>
    requires { IsPosition version at }
    ensures { Makes result (segment_body at after.now (segment_of version at bytes.now)) }
{
    match decode_segment(alloc, bytes, at, version) {
        Ok(node) => page(alloc, node.entries.as_slice(), after),
        Err(NodeError::Memory) => Err(AskError::Memory),
        Err(_) => Ok(TreeBody::Damaged(at)),
    }
}

/// Returns what a peer sends of an empty position of the tree of this version.
fn nothing(alloc: Global, version: TreeVersion, at: Position) -> TreeBody
    ensures { result ≡ Rattle.tree_exchange.specs.Gives.nothing version at }
{
    if at.level == version.levels() {
        TreeBody::Page {
            entries: Seq::new(Vec::new(alloc)),
            more: false,
        }
    } else {
        TreeBody::Inner {
            mask: 0,
            digests: Seq::new(Vec::new(alloc)),
        }
    }
}

/// Returns what a peer sends for a question, from the bytes of the node at its position in the tree of
/// this version, or none if the position is empty. Fails only when out of memory.
pub fn given(
    alloc: Global,
    version: TreeVersion,
    node: &Option<Bytes>,
    question: &Question,
) -> Result<TreeBody, AskError>
    requires { IsPosition version question.now.position }
    ensures { Makes result (body_given version node.now question.now) }
{
    let at = question.position;
    let last = version.levels();
    match node {
        None => Ok(nothing(alloc, version, at)),
        Some(bytes) if at.level == last => {
            segment(alloc, version, bytes.as_slice(), at, &question.after)
        }
        Some(bytes) => inner(alloc, version, bytes.as_slice(), at),
    }
}

/// Returns what a peer sends for a question, from its tree: the mask and the digests of an inner node,
/// the first 32 entries of a segment beyond a key, or the first position from the root that does not
/// verify. Fails only if the store or the hasher does, or when out of memory.
pub fn give<N: NodeStore, H: Hasher16>(
    alloc: Global,
    tree: &mut Tree<N>,
    hasher: &mut H,
    question: &Question,
) -> Result<TreeBody, AskError>
    requires { IsPosition tree.old.version question.now.position }
    ensures did { Answers tree.old.version (λ r. Did
        (outside_does N.may_answer N.top_record N.fault_count H.kept H.clashes H.fulls)
        (outside_refuses N.may_refuse N.top_record N.fault_count H.kept H.clashes H.fulls)
        (node_plan (form_of tree.old.version) tree.old.top question.now.position) (tree.old.store, hasher.old) r (tree.new.store, hasher.new)) question.now result }
    ensures version_is { tree.new.version ≡ tree.old.version }
    ensures top { tree.new.top ≡ tree.old.top }
    ensures refused { IfErr result (λ e. IsCause N.fault_count H.clashes H.fulls (tree.old.store, hasher.old) (tree.new.store, hasher.new) e) }
{
    let version = tree.version();
    match tree.node(alloc, hasher, question.position) {
        Ok(node) => given(alloc, version, &node, question),
        Err(TreeError::Damaged(at)) => Ok(TreeBody::Damaged(at)),
        Err(TreeError::Failed) => Err(AskError::Store),
        Err(TreeError::Clash { first, second }) => Err(AskError::Clash { first, second }),
        Err(TreeError::BookFull(bytes)) => Err(AskError::BookFull(bytes)),
        Err(TreeError::Memory) => Err(AskError::Memory),
    }
}
