ghost use Rattle.std.specs.Prelude.{◌≡◌, ◌<◌, ◌*◌, ◌/◌, ◌^◌, length, map, replicate, None, Some, IfOk};
ghost use Rattle.std.specs.List.{All};
ghost use Rattle.std.specs.List.Sorted.{IsNonDecreasing};
ghost use Rattle.tree_node.specs.TreeVersions.{levels};
ghost use Rattle.tree_node.specs.Positions.{IsPosition};
ghost use Rattle.synctree.specs.Sixteen.{form_of};
ghost use Rattle.tree_repair.specs.Builds.{place};
ghost use Rattle.tree_repair.specs.Inner.{filled, children_of, indexes_above};

use crate::repair_level::{Names, Texts};
use crate::runs::runs_of;
use ens_base::{Bytes, Digest};
use std::alloc::{AllocError, Global};
use synctree::{ROOT, encode_inner};
use tree_node::{Position, TreeVersion};

/// The number of children of an inner node.
const WIDTH: u32 = 16;

/// Returns the bytes of the inner node of this version whose children have these indexes and digests.
fn inner_text(
    alloc: Global,
    version: TreeVersion,
    at: Position,
    indexes: &[u32],
    names: &[Option<Digest>],
) -> Result<Bytes, AllocError>
    requires position { IsPosition version at }
    requires beside { length names.now ≡ length indexes.now }
    ensures { IfOk result (λ b. b ≡ (form_of version).inner_text at (filled 16 (replicate 16 None) indexes.now names.now)) }
{
    let mut children = [None; WIDTH as usize];
    for i in 0..indexes.len() {
        children[(indexes[i] % WIDTH) as usize] = names[i];
    }
    Ok(Bytes::new(encode_inner(alloc, version, at, &children)?))
}

/// Returns the index of the parent of each node with one of these indexes.
fn parents_of(alloc: Global, indexes: &[u32]) -> Result<Vec<u32>, AllocError>
    ensures { IfOk result (λ v. v.items ≡ map (λ i. i / 16) indexes.now) }
{
    indexes.iter().map(|index| *index / WIDTH).collect(alloc)
}

/// Returns the root of the tree of this version above the nodes of level 1.
fn root_text(alloc: Global, version: TreeVersion, below: &Names) -> Result<Texts, AllocError>
    requires within { All (λ i. i < 16) below.now.indexes.items }
    requires beside { length below.now.names.items ≡ length below.now.indexes.items }
    ensures indexes { IfOk result (λ t. t.indexes.items ≡ indexes_above 16 0 below.now.indexes.items) }
    ensures texts { IfOk result (λ t. t.texts.items ≡ map (λ i. Some ((form_of version).inner_text (place 0 i) (children_of 16 i below.now.indexes.items below.now.names.items))) t.indexes.items) }
{
    let mut texts = Texts::new(alloc);
    let text = inner_text(
        alloc,
        version,
        ROOT,
        below.indexes.as_slice(),
        below.names.as_slice(),
    )?;
    texts.push(ROOT.index, text)?;
    Ok(texts)
}

/// Returns the nodes of a level of the tree of this version that are there: the root, and any other node
/// that has children among the nodes of the level below.
pub(crate) fn inner_texts(
    alloc: Global,
    version: TreeVersion,
    level: u8,
    below: &Names,
) -> Result<Texts, AllocError>
    requires level { level < levels version }
    requires rises { IsNonDecreasing below.now.indexes.items }
    requires within { All (λ i. i < 16 * 16 ^ level) below.now.indexes.items }
    requires beside { length below.now.names.items ≡ length below.now.indexes.items }
    ensures indexes { IfOk result (λ t. t.indexes.items ≡ indexes_above 16 level below.now.indexes.items) }
    ensures texts { IfOk result (λ t. t.texts.items ≡ map (λ i. Some ((form_of version).inner_text (place level i) (children_of 16 i below.now.indexes.items below.now.names.items))) t.indexes.items) }
{
    if level == ROOT.level {
        return root_text(alloc, version, below);
    }
    let parents = parents_of(alloc, below.indexes.as_slice())?;
    let runs = runs_of(alloc, parents.as_slice())?;
    let mut texts = Texts::new(alloc);
    for run in &runs {
        let at = Position {
            level,
            index: run.number,
        };
        let indexes = &below.indexes[run.start..run.end];
        let names = &below.names[run.start..run.end];
        texts.push(run.number, inner_text(alloc, version, at, indexes, names)?)?;
    }
    Ok(texts)
}
