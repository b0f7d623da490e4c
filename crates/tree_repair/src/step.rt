ghost use Rattle.std.specs.Prelude.{◌≡◌, ◌≤◌, ◌<◌, ◌+◌, ◌++◌, ◌∷◌, [], length, map, IfOk, IfErr, OnOk};
ghost use Rattle.tree_node.specs.declared.version.TreeVersion.{TreeVersion};
ghost use Rattle.tree_node.specs.declared.version.TreeVersion.TheVariants.{Two};
ghost use Rattle.tree_node.specs.TreeVersions.{levels};
ghost use Rattle.tree_node.specs.Positions.{IsPosition};
ghost use Rattle.synctree.specs.Sixteen.{form_of};
ghost use Rattle.synctree.specs.declared.error.TreeError.TheVariants.{Memory};
ghost use Rattle.tree_repair.specs.Hashers.{digest_if};
ghost use Rattle.tree_repair.specs.Levels.{verified, slot as slot_of, child_slots, slots_below, next_level as level_below};
ghost use Rattle.tree_repair.specs.Slots.{IsSlot, AreSlots};

use crate::level::Level;
use crate::opening::open_inner;
use crate::slot::Slot;
use ens_base::{Bytes, Digest, Seq};
use std::alloc::Global;
use synctree::{TreeError, child};
use tree_node::{Position, TreeVersion};

/// Appends the slot of a child, if there is one, which is the same in the tree of each version. Fails
/// only when out of memory.
fn push_child(
    slots: &mut Vec<Slot>,
    at: Position,
    digit: u8,
    name: Option<Digest>,
) -> Result<(), TreeError>
    requires position { IsPosition Two at }
    requires above { at.level < levels Two }
    requires digit { digit < 16 }
    ensures ok { OnOk result ((version : TreeVersion) → slots.new.items ≡ slots.old.items ++ child_slots (form_of version) at digit (name ∷ [])) }
    ensures memory { IfErr result (λ e. e ≡ Memory) }
{
    match name {
        Some(_digest) => {
            slots.push(Slot {
                at: child(at, digit),
                digest: name,
            })?;
            Ok(())
        }
        None => Ok(()),
    }
}

/// Appends the slots of the children that are there. Fails only when out of memory.
fn push_children(
    slots: &mut Vec<Slot>,
    at: Position,
    names: &[Option<Digest>],
) -> Result<(), TreeError>
    requires position { IsPosition Two at }
    requires above { at.level < levels Two }
    requires width { length names.now ≤ 16 }
    ensures ok { OnOk result ((version : TreeVersion) → slots.new.items ≡ slots.old.items ++ child_slots (form_of version) at 0 names.now) }
    ensures memory { IfErr result (λ e. e ≡ Memory) }
{
    for i in 0..names.len() {
        push_child(slots, at, i as u8, names[i])?;
    }
    Ok(())
}

/// Appends a position that does not verify. Fails only when out of memory.
fn push_damaged(slots: &mut Vec<Slot>, at: Position) -> Result<(), TreeError>
    ensures ok { OnOk result (slots.new.items ≡ slots.old.items ++ slot_of at None ∷ []) }
    ensures memory { IfErr result (λ e. e ≡ Memory) }
{
    slots.push(Slot { at, digest: None })?;
    Ok(())
}

/// Appends the slots that stand in place of this one on the next level. Fails only when out of
/// memory.
fn push_below(
    alloc: Global,
    version: TreeVersion,
    slots: &mut Vec<Slot>,
    slot: Slot,
    read: &Option<Bytes>,
    found: Option<Digest>,
    height: u8,
) -> Result<(), TreeError>
    requires slot { IsSlot version (height + 1) slot }
    requires found { found ≡ digest_if read.now }
    ensures ok { OnOk result (slots.new.items ≡ slots.old.items ++ slots_below (form_of version) slot.at (verified ((form_of version).inner_at slot.at) slot.digest read.now)) }
    ensures memory { IfErr result (λ e. e ≡ Memory) }
{
    let at = slot.at;
    match open_inner(alloc, version, slot, read, found)? {
        Some(names) => push_children(slots, at, names.as_slice()),
        None => push_damaged(slots, at),
    }
}

/// Returns the next level, which has `height` levels below it. Fails only when out of memory.
pub(crate) fn next_level(
    alloc: Global,
    version: TreeVersion,
    slots: &[Slot],
    level: &Level,
    height: u8,
) -> Result<Seq<Slot>, TreeError>
    requires slots { AreSlots version (height + 1) slots.now }
    requires reads { length level.now.reads ≡ length slots.now }
    requires found { level.now.found ≡ map digest_if level.now.reads }
    ensures ok { IfOk result (λ next. next ≡ level_below (form_of version) slots.now level.now.reads) }
    ensures slots { IfOk result (λ next. AreSlots version height next) }
    ensures memory { IfErr result (λ e. e ≡ Memory) }
{
    let reads = level.reads.as_slice();
    let found = level.found.as_slice();
    let mut next = Vec::new(alloc);
    for i in 0..slots.len() {
        push_below(
            alloc, version, &mut next, slots[i], &reads[i], found[i], height,
        )?;
    }
    Ok(Seq::new(next))
}
