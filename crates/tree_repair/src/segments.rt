ghost use Rattle.std.specs.Prelude.{◌≡◌, ◌<◌, [], length, map, IfOk};
ghost use Rattle.std.specs.List.{All};
ghost use Rattle.tree_node.specs.Entries.{AreAbove};
ghost use Rattle.tree_node.specs.TreeVersions.{levels};
ghost use Rattle.tree_node.specs.Positions.{IsPosition};
ghost use Rattle.synctree.specs.Sixteen.{form_of};
ghost use Rattle.tree_repair.specs.Builds.{place};
ghost use Rattle.tree_repair.specs.RepairLevels.{index_of, indexes_of, texts_of};
ghost use Rattle.tree_repair.specs.Segments.{taken};

use crate::order::{Placed, in_order};
use crate::paths::segment_of;
use crate::repair_level::Texts;
use crate::runs::runs_of;
use ens_base::{Bytes, Entry, Seq};
use std::alloc::{AllocError, Global};
use std::thread::{Threads, for_each_mut};
use synctree::encode_segment;
use tree_node::{Position, Segment, TreeVersion};

/// The number of keys from which on threads share the hashing of keys.
const FEWEST_SHARED: usize = 1_000;

/// The number of threads that share it.
const THREADS: usize = 8;

/// Returns the index of the segment of the key of each entry in the tree of this version. Threads share
/// the work; below 1,000 entries one thread does it, since to start threads takes longer than to hash a
/// few hundred keys.
fn segments_of<R: Threads + Sync>(
    rt: &R,
    alloc: Global,
    version: TreeVersion,
    entries: &[Entry],
) -> Result<Vec<u32>, AllocError>
    ensures { IfOk result (λ v. v.items ≡ map (λ e. index_of (form_of version) (form_of version).depth e.key) entries.now) }
{
    let threads = if entries.len() < FEWEST_SHARED {
        1
    } else {
        THREADS
    };
    let mut indexes = vec![in alloc; 0; entries.len()]?;
    for_each_mut(
        rt,
        indexes.as_mut_slice(),
        threads,
        &|i, index| {
            *index = segment_of(version, &entries[i].key);
        },
    );
    Ok(indexes)
}

/// Returns the segment of each place.
fn numbers_of(alloc: Global, places: &[Placed]) -> Result<Vec<u32>, AllocError>
    ensures { IfOk result (λ v. v.items ≡ map (λ p. p.segment) places.now) }
{
    places.iter().map(|placed| placed.segment).collect(alloc)
}

/// Returns copies of the entries at these places.
fn copies(alloc: Global, entries: &[Entry], places: &[Placed]) -> Result<Seq<Entry>, AllocError>
    requires { All (λ p. p.entry < length entries.now) places.now }
    ensures { IfOk result (λ s. s ≡ taken entries.now places.now) }
{
    let mut copies = Vec::with_capacity(alloc, places.len())?;
    for placed in places {
        copies.push(entries[placed.entry].copy(alloc)?)?;
    }
    Ok(Seq::new(copies))
}

/// Returns the bytes of the segment of this version with this index that has the entries at these
/// places.
fn segment_text(
    alloc: Global,
    version: TreeVersion,
    index: u32,
    entries: &[Entry],
    places: &[Placed],
) -> Result<Bytes, AllocError>
    requires position { IsPosition version (place (levels version) index) }
    requires within { All (λ p. p.entry < length entries.now) places.now }
    requires ascending { AreAbove [] (taken entries.now places.now) }
    ensures { IfOk result (λ b. b ≡ (form_of version).segment_text (place (levels version) index) (taken entries.now places.now)) }
{
    let segment = Segment {
        version,
        position: Position {
            level: version.levels(),
            index,
        },
        entries: copies(alloc, entries, places)?,
    };
    Ok(Bytes::new(encode_segment(alloc, &segment)?))
}

/// Returns the segments of the tree of these entries in this version that are there, which are those
/// with entries.
pub(crate) fn segment_texts<R: Threads + Sync>(
    rt: &R,
    alloc: Global,
    version: TreeVersion,
    entries: &[Entry],
) -> Result<Texts, AllocError>
    requires { AreAbove [] entries.now }
    ensures indexes { IfOk result (λ t. t.indexes.items ≡ indexes_of (form_of version) (levels version) entries.now) }
    ensures texts { IfOk result (λ t. t.texts.items ≡ texts_of (form_of version) (levels version) entries.now) }
{
    let segments = segments_of(rt, alloc, version, entries)?;
    let order = in_order(alloc, segments.as_slice())?;
    let numbers = numbers_of(alloc, order.as_slice())?;
    let runs = runs_of(alloc, numbers.as_slice())?;
    let mut texts = Texts::new(alloc);
    for run in &runs {
        let places = &order[run.start..run.end];
        texts.push(
            run.number,
            segment_text(alloc, version, run.number, entries, places)?,
        )?;
    }
    Ok(texts)
}
