ghost use Rattle.synctree.specs.Forms.{root};
ghost use Rattle.synctree.specs.Answers.{Makes, Spells};
ghost use Rattle.synctree.specs.Outsides.{outside_does, outside_refuses};
ghost use Rattle.synctree.specs.Plans.{Did};
ghost use Rattle.synctree.specs.Shapes.{version_in as version_told, shape_under, shape_plan};

use crate::error::TreeError;
use crate::nodes::is_inner;
use crate::shape::ROOT;
use crate::walk::fetch;
use ens_base::Digest;
use environment::NodeStore;
use hash_book::Hasher16;
use std::alloc::Global;
use tree_node::TreeVersion;

/// Returns the version of the tree that the bytes encode the root of, or `None` if they encode none.
/// Fails only when out of memory.
fn version_in(alloc: Global, bytes: &[u8]) -> Result<Option<TreeVersion>, TreeError>
    ensures { Makes result (version_told bytes.now) }
{
    if is_inner(alloc, bytes, TreeVersion::One, ROOT)? {
        return Ok(Some(TreeVersion::One));
    }
    if is_inner(alloc, bytes, TreeVersion::Two, ROOT)? {
        return Ok(Some(TreeVersion::Two));
    }
    Ok(None)
}

/// Returns the version of the tree that the bytes encode the root of. `Damaged` names the root if they
/// encode none.
fn root_version(alloc: Global, bytes: &[u8]) -> Result<TreeVersion, TreeError>
    ensures { Spells result root (version_told bytes.now) }
{
    match version_in(alloc, bytes) {
        Ok(Some(version)) => Ok(version),
        Ok(None) => Err(TreeError::Damaged(ROOT)),
        Err(_) => Err(TreeError::Memory),
    }
}

/// Returns the version of the tree whose root has the digest.
fn open_root<N: NodeStore, H: Hasher16>(
    alloc: Global,
    nodes: &mut N,
    hasher: &mut H,
    digest: &Digest,
) -> Result<TreeVersion, TreeError>
    ensures { Did (outside_does N.may_answer N.top_record N.fault_count H.kept H.clashes H.fulls) (outside_refuses N.may_refuse N.top_record N.fault_count H.kept H.clashes H.fulls)
        (shape_under digest.now) (nodes.old, hasher.old) result (nodes.new, hasher.new) }
{
    let bytes = fetch(alloc, nodes, hasher, ROOT, digest)?;
    root_version(alloc, bytes.as_slice())
}

/// Returns the version of the tree under the top record.
pub(crate) fn version_from_top<N: NodeStore, H: Hasher16>(
    alloc: Global,
    nodes: &mut N,
    hasher: &mut H,
    top: Option<Digest>,
) -> Result<TreeVersion, TreeError>
    ensures { Did (outside_does N.may_answer N.top_record N.fault_count H.kept H.clashes H.fulls) (outside_refuses N.may_refuse N.top_record N.fault_count H.kept H.clashes H.fulls)
        (shape_plan top) (nodes.old, hasher.old) result (nodes.new, hasher.new) }
{
    match top {
        Some(digest) => open_root(alloc, nodes, hasher, &digest),
        None => Err(TreeError::Damaged(ROOT)),
    }
}
