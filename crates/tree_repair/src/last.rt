ghost use Rattle.std.specs.Prelude.{◌≡◌, ◌++◌, length, map, IfErr, OnOk};
ghost use Rattle.tree_node.specs.Positions.{IsPosition};
ghost use Rattle.synctree.specs.Sixteen.{form_of};
ghost use Rattle.synctree.specs.Answers.{Makes};
ghost use Rattle.synctree.specs.declared.error.TreeError.TheVariants.{Memory};
ghost use Rattle.tree_repair.specs.Hashers.{digest_if};
ghost use Rattle.tree_repair.specs.Levels.{verified, entries_of, damage_of, found as found_in};
ghost use Rattle.tree_repair.specs.Slots.{AreSlots};

use crate::level::Level;
use crate::opening::open_segment;
use crate::slot::Slot;
use crate::sorting::sort_entries;
use ens_base::{Bytes, Digest, Entry, Seq};
use std::alloc::Global;
use synctree::TreeError;
use tree_node::{Position, Scan, TreeVersion};

/// Appends the entries of a segment. Fails only when out of memory.
fn push_entries(all: &mut Vec<Entry>, entries: Seq<Entry>) -> Result<(), TreeError>
    ensures ok { OnOk result (all.new.items ≡ all.old.items ++ entries) }
    ensures memory { IfErr result (λ e. e ≡ Memory) }
{
    for entry in entries.into_vec() {
        all.push(entry)?;
    }
    Ok(())
}

/// Appends the entries of the segment of a slot, or its position if it does not verify. Fails only
/// when out of memory.
fn push_found(
    alloc: Global,
    version: TreeVersion,
    entries: &mut Vec<Entry>,
    damaged: &mut Vec<Position>,
    slot: Slot,
    read: &Option<Bytes>,
    found: Option<Digest>,
) -> Result<(), TreeError>
    requires position { IsPosition version slot.at }
    requires found { found ≡ digest_if read.now }
    ensures entries { OnOk result (entries.new.items ≡ entries.old.items ++ entries_of (verified ((form_of version).segment_at slot.at) slot.digest read.now)) }
    ensures damaged { OnOk result (damaged.new.items ≡ damaged.old.items ++ damage_of slot.at (verified ((form_of version).segment_at slot.at) slot.digest read.now)) }
    ensures memory { IfErr result (λ e. e ≡ Memory) }
{
    let at = slot.at;
    match open_segment(alloc, version, slot, read, found)? {
        Some(segment) => push_entries(entries, segment),
        None => {
            damaged.push(at)?;
            Ok(())
        }
    }
}

/// Returns what a scan found at the lowest level. Fails only when out of memory.
pub(crate) fn last_level(
    alloc: Global,
    version: TreeVersion,
    slots: &[Slot],
    level: &Level,
) -> Result<Scan, TreeError>
    requires slots { AreSlots version 0 slots.now }
    requires reads { length level.now.reads ≡ length slots.now }
    requires found { level.now.found ≡ map digest_if level.now.reads }
    ensures { Makes result (found_in (form_of version) slots.now level.now.reads) }
{
    let reads = level.reads.as_slice();
    let found = level.found.as_slice();
    let mut entries = Vec::new(alloc);
    let mut damaged = Vec::new(alloc);
    for i in 0..slots.len() {
        push_found(
            alloc,
            version,
            &mut entries,
            &mut damaged,
            slots[i],
            &reads[i],
            found[i],
        )?;
    }
    Ok(Scan {
        entries: Seq::new(sort_entries(entries)?),
        damaged: Seq::new(damaged),
    })
}
