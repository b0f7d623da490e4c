ghost use Rattle.std.specs.Prelude.{◌≡◌, [], List, ℕ, Option, Some, None, take, IfOk, OnOk, IfErr, option_map, ◌≤◌, ◌-◌};
ghost use Rattle.slot_disk.specs.Crash.{Told, Stay, StaysSeen, LeavesOnly, IsOn};
ghost use Rattle.slot_disk.specs.Faults.{CountsFaults};
ghost use Rattle.slot_disk.specs.Slots.{slot, shut, slot_at, shut_at, held_slot, newer};
ghost use Rattle.slot_disk.specs.Saving.{IsReadError, IsSlotOf, UnlessFailed};
ghost use Rattle.slot_disk.specs.Found.{AreSlots, picked};

use crate::disk::Disk;
use crate::error::SlotError;
use crate::slot::Slot;
use ens_base::Failed;
use std::alloc::{AllocError, Global};

/// The length in bytes of a slot that holds the longest record.
const SLOT_BYTES: usize = 491;

/// The serial number and the record that a slot holds.
#[derive(Debug, Drop)]
pub(crate) struct Held {
    pub serial: u64,
    pub content: Vec<u8>,
}

/// A slot as read from the disk.
#[derive(Debug, Drop)]
pub(crate) struct Found {
    /// Whether its gate is present and closed.
    pub is_shut: bool,
    pub held: Option<Held>,
}

/// Decodes a slot from the bytes that begin at it. Returns `None` if it holds nothing.
fn parse(alloc: Global, bytes: &[u8]) -> Result<Option<Held>, AllocError>
    ensures { IfOk result (λ h. held_slot h ≡ slot bytes.now) }
{
    let [gate, a, b, c, d, e, f, g, h, m, n, rest @ ..] = bytes else {
        return Ok(None);
    };
    let size = u16::from_be_bytes([*m, *n]) as usize;
    if *gate != 1 || size > 480 || size > rest.len() {
        return Ok(None);
    }
    let content = Vec::from_slice(alloc, &rest[..size])?;
    let serial = u64::from_be_bytes([*a, *b, *c, *d, *e, *f, *g, *h]);
    Ok(Some(Held { serial, content }))
}

/// Returns whether the gate is present and closed.
fn is_shut(bytes: &[u8]) -> bool
    ensures { result ≡ shut bytes.now }
{
    match bytes {
        [] => false,
        [gate, ..] => *gate != 1,
    }
}

/// Decodes a slot and its gate from the bytes that begin at it.
fn found_in(alloc: Global, bytes: &[u8]) -> Result<Found, AllocError>
    ensures held { IfOk result (λ f. held_slot f.held ≡ slot bytes.now) }
    ensures gate { IfOk result (λ f. f.is_shut ≡ shut bytes.now) }
{
    let held = parse(alloc, bytes)?;
    let is_shut = is_shut(bytes);
    Ok(Found { is_shut, held })
}

/// Reads the bytes of a slot, as far as the file reaches. Returns how many.
#[tactic(auto, using(crate::proofs::SlotReads::slot_read))]
fn read_bytes<D: Disk>(
    disk: &mut D,
    slot: Slot,
    buf: &mut [u8; SLOT_BYTES],
) -> Result<usize, Failed>
    ensures bytes { IfOk result (λ n. Told (D.seen disk.old) (λ file. IsSlotOf file slot (take n buf.new))) }
    ensures bound { IfOk result (λ n. n ≤ 491) }
    ensures seen { Stay (D.seen disk.old) (D.seen disk.new) }
    ensures crash { (c : List ℕ) → D.may_leave disk.new c → D.may_leave disk.old c }
    ensures any_moment { LeavesOnly D.moment D.left_since disk.old disk.new (D.may_leave disk.old) }
    ensures cause { CountsFaults (D.fault_count disk.old) (D.fault_count disk.new) result }
{
    disk.read(slot.start(), buf)
}

/// Reads a slot.
pub(crate) fn read_slot<D: Disk>(
    alloc: Global,
    disk: &mut D,
    slot: Slot,
) -> Result<Found, SlotError>
    ensures found { IfOk result (λ f. Told (D.seen disk.old) (λ file. (f.is_shut ≡ shut_at file slot) × (held_slot f.held ≡ slot_at file slot))) }
    ensures error { IfErr result (λ e. IsReadError (D.fault_count disk.old) (D.fault_count disk.new) e) }
    ensures later { D.fault_count disk.old ≤ D.fault_count disk.new }
    ensures good { OnOk result (D.fault_count disk.new ≡ D.fault_count disk.old) }
    ensures seen { Stay (D.seen disk.old) (D.seen disk.new) }
    ensures crash { (c : List ℕ) → D.may_leave disk.new c → D.may_leave disk.old c }
    ensures any_moment { LeavesOnly D.moment D.left_since disk.old disk.new (D.may_leave disk.old) }
{
    let mut bytes = [0u8; SLOT_BYTES];
    let count = read_bytes(disk, slot, &mut bytes)?;
    let found = found_in(alloc, &bytes[..count])?;
    Ok(found)
}

/// Both slots as read from the disk.
#[derive(Debug, Drop)]
pub(crate) struct Both {
    pub a: Found,
    pub b: Found,
}

/// Syncs the disk, and then reads both slots.
pub(crate) fn read_both<D: Disk>(alloc: Global, disk: &mut D) -> Result<Both, SlotError>
    ensures found { IfOk result (λ r. Told (D.seen disk.old) (λ file. AreSlots file r)) }
    ensures durable { UnlessFailed result (Told (D.seen disk.old) (λ file. IsOn D.seen D.may_leave disk.new file)) }
    ensures error { IfErr result (λ e. IsReadError (D.fault_count disk.old) (D.fault_count disk.new) e) }
    ensures later { D.fault_count disk.old ≤ D.fault_count disk.new }
    ensures good { OnOk result (D.fault_count disk.new ≡ D.fault_count disk.old) }
    ensures seen { StaysSeen D.seen D.may_leave disk.old disk.new result }
    ensures crash { (c : List ℕ) → D.may_leave disk.new c → D.may_leave disk.old c }
    ensures any_moment { LeavesOnly D.moment D.left_since disk.old disk.new (D.may_leave disk.old) }
{
    disk.sync()?;
    let a = read_slot(alloc, disk, Slot::A)?;
    let b = read_slot(alloc, disk, Slot::B)?;
    Ok(Both { a, b })
}

/// The current slot and its content.
#[derive(Debug, Drop)]
pub(crate) struct Picked {
    pub slot: Slot,
    pub held: Held,
}

/// Picks the slot with the greater serial number, or A if they are equal.
pub(crate) fn pick(a: Option<Held>, b: Option<Held>) -> Option<Picked>
    ensures { option_map picked result ≡ newer (held_slot a) (held_slot b) }
{
    let Some(first) = a else {
        return alone(b);
    };
    let Some(second) = b else {
        return Some(Picked {
            slot: Slot::A,
            held: first,
        });
    };
    if first.serial < second.serial {
        return Some(Picked {
            slot: Slot::B,
            held: second,
        });
    }
    Some(Picked {
        slot: Slot::A,
        held: first,
    })
}

/// Picks slot B if it holds something, where A holds nothing.
fn alone(b: Option<Held>) -> Option<Picked>
    ensures { option_map picked result ≡ newer None (held_slot b) }
{
    match b {
        None => None,
        Some(held) => Some(Picked {
            slot: Slot::B,
            held,
        }),
    }
}
