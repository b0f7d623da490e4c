ghost use Rattle.std.specs.Prelude.{◌≡◌, ◌≤◌, [], IfOk, length};
ghost use Rattle.synctree.specs.TreeNode.{IsPosition, AreAbove};
ghost use Rattle.synctree.specs.Sixteen.{form_of};

use crate::shape::{digests, mask};
use ens_base::Digest;
use std::alloc::{AllocError, Global};
use tree_node::{InnerNode, Position, Segment, TreeVersion};

/// Returns the bytes of the inner node of this version with these children, `None` for each that is
/// missing. Fails only when out of memory.
pub fn encode_inner(
    alloc: Global,
    version: TreeVersion,
    at: Position,
    children: &[Option<Digest>],
) -> Result<Vec<u8>, AllocError>
    requires position { IsPosition version at }
    requires width { length children.now ≤ 16 }
    ensures { IfOk result (λ v. v.items ≡ (form_of version).inner_text at children.now) }
{
    let digests = match digests(alloc, children) {
        Ok(digests) => digests,
        Err(_) => return Err(AllocError),
    };
    let node = InnerNode {
        version,
        position: at,
        mask: mask(children),
        digests,
    };
    match node.encode(alloc) {
        Ok(bytes) => Ok(bytes),
        Err(_) => Err(AllocError),
    }
}

/// Returns the bytes of a segment, whose keys strictly ascend. Fails only when out of memory, which a
/// segment of 2^32 entries or more counts as.
pub fn encode_segment(alloc: Global, segment: &Segment) -> Result<Vec<u8>, AllocError>
    requires position { IsPosition segment.now.version segment.now.position }
    requires ascending { AreAbove [] segment.now.entries }
    ensures { IfOk result (λ v. v.items ≡ (form_of segment.now.version).segment_text segment.now.position segment.now.entries) }
{
    if segment.entries.as_slice().len() > u32::MAX as usize {
        return Err(AllocError);
    }
    match segment.encode(alloc) {
        Ok(bytes) => Ok(bytes),
        Err(_) => Err(AllocError),
    }
}
