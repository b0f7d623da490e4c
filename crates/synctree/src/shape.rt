ghost use Rattle.std.specs.Prelude.{◌≡◌, ◌≤◌, ◌<◌, IfOk, IfErr, length, None, Some, set, slice_get, get_or, if◌then◌else◌};
ghost use Rattle.synctree.specs.TreeNode.{TreeVersion, Two, levels, IsPosition};
ghost use Rattle.synctree.specs.Forms.{child as child_of};
ghost use Rattle.synctree.specs.Sixteen.{form_of, children_of, mask_of, digests_of, nibble};
ghost use Rattle.synctree.specs.declared.error.TreeError.TheVariants.{Memory};

use crate::error::TreeError;
use ens_base::{Digest, Seq};
use std::alloc::Global;
use tree_node::{InnerNode, Position};

/// The number of children of an inner node.
pub(crate) const WIDTH: usize = 16;

/// The position of the root.
pub const ROOT: Position = Position { level: 0, index: 0 };

/// Returns nibble `level` of the digest, the high nibble of a byte first: at this level, a key with
/// this digest belongs to the child of this number.
pub fn nibble(digest: &Digest, level: u8) -> u8
    requires { level < 32 }
    ensures { result ≡ Rattle.synctree.specs.Sixteen.nibble digest.now level }
{
    let byte = digest.0[(level / 2) as usize];
    if level % 2 == 0 {
        byte / 16 % 16
    } else {
        byte % 16
    }
}

/// Returns digest `next` if the child is present.
fn if_there(is_there: bool, digests: &[Digest], next: usize) -> Option<Digest>
    ensures { result ≡ (if is_there then slice_get digests.now next else None) }
{
    if is_there {
        digests.get(next).copied()
    } else {
        None
    }
}

/// Returns the digest of child `digit`, or `None` if there is no such child.
pub(crate) fn name_of(children: &[Option<Digest>], digit: u8) -> Option<Digest>
    ensures { result ≡ get_or children.now digit None }
{
    match children.get(digit as usize) {
        Some(child) => *child,
        None => None,
    }
}

/// Returns the children of an inner node, `None` for each that is missing. Fails only when out of
/// memory.
pub fn children(alloc: Global, node: &InnerNode) -> Result<Seq<Option<Digest>>, TreeError>
    ensures ok { IfOk result (λ cs. cs ≡ children_of node.now.mask node.now.digests) }
    ensures memory { IfErr result (λ e. e ≡ Memory) }
{
    let digests = node.digests.as_slice();
    let mut mask = node.mask;
    let mut next = 0;
    let mut all = Vec::with_capacity(alloc, WIDTH)?;
    for _ in 0..WIDTH {
        let is_there = mask % 2 == 1;
        all.push(if_there(is_there, digests, next))?;
        next += usize::from(is_there);
        mask /= 2;
    }
    Ok(Seq::new(all))
}

/// Returns the digest of child `digit` of an inner node, or `None` if there is no such child.
pub(crate) fn child_in(node: &InnerNode, digit: u8) -> Option<Digest>
    requires { digit < 16 }
    ensures { result ≡ get_or (children_of node.now.mask node.now.digests) digit None }
{
    let digests = node.digests.as_slice();
    let mut mask = node.mask;
    let mut next = 0;
    for _ in 0..digit {
        next += usize::from(mask % 2 == 1);
        mask /= 2;
    }
    if_there(mask % 2 == 1, digests, next)
}

/// Returns the mask of the children: bit c says whether child c is present.
pub(crate) fn mask(children: &[Option<Digest>]) -> u16
    requires { length children.now ≤ 16 }
    ensures { result ≡ mask_of children.now }
{
    let mut mask = 0;
    let mut c = children.len();
    while c > 0 {
        c -= 1;
        mask = 2 * mask + u16::from(children[c].is_some());
    }
    mask
}

/// Returns the digests of the children that are present. Fails only when out of memory.
pub(crate) fn digests(alloc: Global, children: &[Option<Digest>]) -> Result<Seq<Digest>, TreeError>
    ensures ok { IfOk result (λ ds. ds ≡ digests_of children.now) }
    ensures memory { IfErr result (λ e. e ≡ Memory) }
{
    let mut all = Vec::with_capacity(alloc, children.len())?;
    for child in children {
        if let Some(digest) = child {
            all.push(*digest)?;
        }
    }
    Ok(Seq::new(all))
}

/// Sets the digest of child `digit`.
pub(crate) fn with_child(
    children: Seq<Option<Digest>>,
    digit: u8,
    digest: Digest,
) -> Seq<Option<Digest>>
    requires { digit < length children }
    ensures { result ≡ set children digit (Some digest) }
{
    let mut children = children.into_vec();
    children[digit as usize] = Some(digest);
    Seq::new(children)
}

/// Returns the position of child `digit`, which is the same in the tree of each version.
pub fn child(at: Position, digit: u8) -> Position
    requires position { IsPosition Two at }
    requires above { at.level < levels Two }
    requires digit { digit < 16 }
    ensures { (version : TreeVersion) → result ≡ child_of (form_of version) at digit }
{
    Position {
        level: at.level + 1,
        index: 16 * at.index + u32::from(digit),
    }
}
