ghost use Rattle.synctree.specs.Sixteen.{form_of};
ghost use Rattle.synctree.specs.Outsides.{outside_does, outside_refuses};
ghost use Rattle.synctree.specs.Plans.{Did};
ghost use Rattle.synctree.specs.Records.{KeptUnlessFailed};
ghost use Rattle.synctree.specs.Walks.{store as store_plan};
ghost use Rattle.synctree.specs.Trees.{fresh_plan};

use crate::calls::{hash, set_top, write};
use crate::error::TreeError;
use crate::shape::ROOT;
use ens_base::{Digest, Seq};
use environment::NodeStore;
use hash_book::Hasher16;
use std::alloc::Global;
use tree_node::{InnerNode, TreeVersion};

/// Writes a node under its MD5, and returns the digest.
pub(crate) fn store<N: NodeStore, H: Hasher16>(
    alloc: Global,
    nodes: &mut N,
    hasher: &mut H,
    bytes: &[u8],
) -> Result<Digest, TreeError>
    ensures { Did (outside_does N.may_answer N.top_record N.fault_count H.kept H.clashes H.fulls) (outside_refuses N.may_refuse N.top_record N.fault_count H.kept H.clashes H.fulls)
        (store_plan bytes.now) (nodes.old, hasher.old) result (nodes.new, hasher.new) }
{
    let digest = hash(alloc, hasher, bytes)?;
    write(alloc, nodes, &digest, bytes)?;
    Ok(digest)
}

/// Writes the root of the empty map in this version, and then the top record. Returns the digest of the
/// root.
pub(crate) fn store_empty<N: NodeStore, H: Hasher16>(
    alloc: Global,
    nodes: &mut N,
    hasher: &mut H,
    version: TreeVersion,
) -> Result<Digest, TreeError>
    ensures did { Did (outside_does N.may_answer N.top_record N.fault_count H.kept H.clashes H.fulls) (outside_refuses N.may_refuse N.top_record N.fault_count H.kept H.clashes H.fulls)
        (fresh_plan (form_of version)) (nodes.old, hasher.old) result (nodes.new, hasher.new) }
    ensures kept { KeptUnlessFailed (N.top_record nodes.old) (N.top_record nodes.new) result }
{
    let root = InnerNode {
        version,
        position: ROOT,
        mask: 0,
        digests: Seq::new(Vec::new(alloc)),
    };
    let bytes = match root.encode(alloc) {
        Ok(bytes) => bytes,
        Err(_) => return Err(TreeError::Memory),
    };
    let digest = store(alloc, nodes, hasher, bytes.as_slice())?;
    set_top(nodes, &digest)?;
    Ok(digest)
}
