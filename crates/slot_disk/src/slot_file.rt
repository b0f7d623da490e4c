ghost use Rattle.std.specs.Prelude.{◌≡◌, ◌⊎◌, ◌+◌, ◌-◌, ◌^◌, ◌<◌, ◌≤◌, List, ℕ, Option, Some, None, length, IfOk, IfErr, OnOk, OnErr, IsErrOf, false, option_map};
ghost use Rattle.slot_disk.specs.Crash.{written, Torn, Told, StaysSeen, LeavesOnly, SeenIn, IsOn};
ghost use Rattle.slot_disk.specs.Slots.{start, open_slot, record_in, last_serial, next_slot, other, IsOldOrNew, newer, held_slot, current, shut_at};
ghost use Rattle.slot_disk.specs.Saving.{IsReadError, UnlessFailed};
ghost use Rattle.slot_disk.specs.Found.{kept_now};
ghost use Rattle.slot_disk.specs.declared.error.SlotError.TheVariants as errors;
ghost use Rattle.slot_disk.specs.declared.slot.Slot.TheVariants.{A, B};

use crate::buffer::Buffer;
use crate::current::Current;
use crate::disk::Disk;
use crate::error::SlotError;
use crate::reading::{Both, pick, read_both};
use crate::slot::Slot;
use crate::writing::replace;
use ens_base::Refused;
use std::alloc::{AllocError, Global};

/// The greatest length of a record in bytes.
pub const RECORD_LIMIT: usize = 480;

/// A record on a disk, kept in one of two slots. A save replaces it atomically, whenever a crash
/// comes. The record is also kept in memory. After `Failed`, open the file again before the next
/// save, since the guarantees of a save hold for a file at rest.
#[derive(Drop)]
pub struct SlotFile<D: Disk> {
    alloc: Global,
    disk: D,
    current: Option<Current>,
    a_is_shut: bool,
    b_is_shut: bool,
    content: Buffer,
    spelled: Buffer,
}

/// The fields of a slot file beside its disk.
#[derive(Drop)]
struct Parts {
    current: Option<Current>,
    a_is_shut: bool,
    b_is_shut: bool,
    content: Buffer,
    spelled: Buffer,
}

/// Builds the fields from the two slots as read.
fn parts_of(alloc: Global, both: Both) -> Result<Parts, AllocError>
    ensures now { IfOk result (λ p. kept_now p.current p.content.bytes.items ≡ newer (held_slot both.a.held) (held_slot both.b.held)) }
    ensures a { IfOk result (λ p. p.a_is_shut ≡ both.a.is_shut) }
    ensures b { IfOk result (λ p. p.b_is_shut ≡ both.b.is_shut) }
{
    let a_is_shut = both.a.is_shut;
    let b_is_shut = both.b.is_shut;
    let spelled = Buffer::new(alloc)?;
    match pick(both.a.held, both.b.held) {
        None => Ok(Parts {
            current: None,
            a_is_shut,
            b_is_shut,
            content: Buffer::new(alloc)?,
            spelled,
        }),
        Some(picked) => Ok(Parts {
            current: Some(Current {
                slot: picked.slot,
                serial: picked.held.serial,
            }),
            a_is_shut,
            b_is_shut,
            content: Buffer::of(alloc, &picked.held.content)?,
            spelled,
        }),
    }
}

/// Syncs the disk, and reads the fields of a slot file.
fn prepare<D: Disk>(alloc: Global, disk: &mut D) -> Result<Parts, SlotError>
    ensures now { IfOk result (λ p. Told (D.seen disk.old) (λ file. kept_now p.current p.content.bytes.items ≡ current file)) }
    ensures gates { IfOk result (λ p. Told (D.seen disk.old) (λ file. (p.a_is_shut ≡ shut_at file A) × (p.b_is_shut ≡ shut_at file B))) }
    ensures durable { UnlessFailed result (Told (D.seen disk.old) (λ file. IsOn D.seen D.may_leave disk.new file)) }
    ensures error { IfErr result (λ e. IsReadError (D.fault_count disk.old) (D.fault_count disk.new) e) }
    ensures later { D.fault_count disk.old ≤ D.fault_count disk.new }
    ensures good { OnOk result (D.fault_count disk.new ≡ D.fault_count disk.old) }
    ensures seen { StaysSeen D.seen D.may_leave disk.old disk.new result }
    ensures crash { (c : List ℕ) → D.may_leave disk.new c → D.may_leave disk.old c }
    ensures any_moment { LeavesOnly D.moment D.left_since disk.old disk.new (D.may_leave disk.old) }
{
    let both = read_both(alloc, disk)?;
    let parts = parts_of(alloc, both)?;
    Ok(parts)
}

impl<D: Disk> SlotFile<D> {
    ghost use Rattle.slot_disk.specs.SlotFiles.{remembered, remembers_shut, IsAtRest, IsSaveError, Loads, disk_after};

    /// Opens the file on `disk`. Syncs before reading, so that the record found is the one that a
    /// crash leaves. A disk without an open slot holds no record.
    ///
    /// # Errors
    ///
    /// `Failed` only if the fault count of the disk rose: a read of the disk then returns one of the
    /// files that a crash might have left before, such as the old one. `Memory` leaves that count
    /// unchanged, and comes after the sync: a read returns the same file as before, and a crash
    /// leaves exactly that one. Either error returns the disk.
    pub fn open(alloc: Global, disk: D) -> Result<SlotFile<D>, Refused<D, SlotError>>
        ensures at_rest { IfOk result (λ file. Told (D.seen disk) (λ bytes. IsAtRest D.seen D.may_leave file × (remembered file ≡ current bytes))) }
        ensures error { IfErr result (λ r. IsReadError (D.fault_count disk) (D.fault_count r.held) r.error) }
        ensures later { D.fault_count disk ≤ D.fault_count (disk_after result) }
        ensures good { OnOk result (D.fault_count (disk_after result) ≡ D.fault_count disk) }
        ensures seen { StaysSeen D.seen D.may_leave disk (disk_after result) result }
        ensures crash { (c : List ℕ) → D.may_leave (disk_after result) c → D.may_leave disk c }
        ensures any_moment { LeavesOnly D.moment D.left_since disk (disk_after result) (D.may_leave disk) }
        ensures memory { IfErr result (λ r. r.error ≡ errors.Memory → Told (D.seen disk) (λ bytes. IsOn D.seen D.may_leave r.held bytes)) }
    {
        let mut disk = disk;
        let parts = match prepare(alloc, &mut disk) {
            Ok(parts) => parts,
            Err(error) => return Err(Refused { error, held: disk }),
        };
        Ok(SlotFile {
            alloc,
            disk,
            current: parts.current,
            a_is_shut: parts.a_is_shut,
            b_is_shut: parts.b_is_shut,
            content: parts.content,
            spelled: parts.spelled,
        })
    }

    /// Replaces the record by `bytes`, at most 480. Allocates nothing. On a file at rest, as a
    /// successful `open` or `save` leaves it, a crash after `Ok` leaves the new record; a crash at
    /// any moment of the call, or after an error, leaves the old record or the new one. Bytes outside
    /// the slot that is not current stay.
    ///
    /// # Errors
    ///
    /// `TooLong` exactly if there are more than 480 bytes. `Spent` exactly if there are at most 480
    /// and the last serial number is the greatest u64. `Failed` only if the fault count of the disk
    /// rose. `TooLong` and `Spent` leave the file and its disk as they were.
    pub fn save(&mut self, bytes: &[u8]) -> Result<(), SlotError>
        ensures any_moment { IsAtRest D.seen D.may_leave self.old → LeavesOnly D.moment D.left_since self.old.disk self.new.disk (IsOldOrNew (record_in (remembered self.old)) bytes.now) }
        ensures seen { IsAtRest D.seen D.may_leave self.old → SeenIn D.seen self.new.disk (IsOldOrNew (record_in (remembered self.old)) bytes.now) }
        ensures at_rest { OnOk result (IsAtRest D.seen D.may_leave self.old → IsAtRest D.seen D.may_leave self.new) }
        ensures ok { OnOk result (record_in (remembered self.new) ≡ Some bytes.now) }
        ensures serial { OnOk result (last_serial (remembered self.new) ≡ last_serial (remembered self.old) + 1) }
        ensures err { OnErr result (remembered self.new ≡ remembered self.old) }
        ensures error { IfErr result (λ e. IsSaveError (D.fault_count self.old.disk) (D.fault_count self.new.disk) (last_serial (remembered self.old)) (length bytes.now) e) }
        ensures can { OnOk result ((length bytes.now ≤ 480) × (last_serial (remembered self.old) < 2 ^ 64 - 1)) }
        ensures later { D.fault_count self.old.disk ≤ D.fault_count self.new.disk }
        ensures good { OnOk result (D.fault_count self.new.disk ≡ D.fault_count self.old.disk) }
        // Only the slot that is not current is written, and in the end it holds the new record.
        ensures exact { OnOk result ((rest : IsAtRest D.seen D.may_leave self.old)
            → D.seen self.new.disk ≡ Some
            (written rest.bytes (start (next_slot (remembered self.old)))
            (open_slot (last_serial (remembered self.old) + 1) bytes.now))) }
        ensures inside { (rest : IsAtRest D.seen D.may_leave self.old)
            → LeavesOnly D.moment D.left_since self.old.disk self.new.disk
            (Torn (start (next_slot (remembered self.old))) (11 + length bytes.now) rest.bytes) }
        ensures inside_seen { (rest : IsAtRest D.seen D.may_leave self.old) → SeenIn D.seen self.new.disk (Torn (start (next_slot (remembered self.old))) (11 + length bytes.now) rest.bytes) }
        // After a failure the gate of that slot is not taken for closed.
        ensures doubted { IsErrOf result errors.Failed → remembers_shut self.new (next_slot (remembered self.old)) ≡ false }
        ensures refused { OnErr result (IsErrOf result errors.Failed ⊎ (self.new ≡ self.old)) }
    {
        if bytes.len() > RECORD_LIMIT {
            return Err(SlotError::TooLong);
        }
        let last = self.last_serial();
        if last == u64::MAX {
            return Err(SlotError::Spent);
        }
        let slot = self.next_slot();
        self.spelled.set_body(last + 1, bytes);
        let is_shut = self.is_shut(slot);
        let done = replace(&mut self.disk, slot, is_shut, self.spelled.as_slice());
        match done {
            Err(_failed) => {
                self.doubt(slot);
                Err(SlotError::Failed)
            }
            Ok(()) => {
                self.note(slot, last + 1, bytes);
                Ok(())
            }
        }
    }

    /// Returns the serial number of the current slot, or 0 if there is none.
    fn last_serial(&self) -> u64
        ensures { result ≡ last_serial (remembered self.now) }
    {
        match self.current {
            None => 0,
            Some(current) => current.serial,
        }
    }

    /// Returns the slot that is not current, or A if none is.
    fn next_slot(&self) -> Slot
        ensures { result ≡ next_slot (remembered self.now) }
    {
        match self.current {
            None => Slot::A,
            Some(current) => current.slot.other(),
        }
    }

    /// Returns whether the gate of a slot is present and closed.
    fn is_shut(&self, slot: Slot) -> bool
        ensures { result ≡ remembers_shut self.now slot }
    {
        match slot {
            Slot::A => self.a_is_shut,
            Slot::B => self.b_is_shut,
        }
    }

    /// Notes that a slot has become the current one.
    fn note(&mut self, slot: Slot, serial: u64, bytes: &[u8])
        requires { length bytes.now ≤ 480 }
        ensures now { remembered self.new ≡ Some (slot, (serial, bytes.now)) }
        ensures here { remembers_shut self.new slot ≡ false }
        ensures other { remembers_shut self.new (other slot) ≡ remembers_shut self.old (other slot) }
        ensures disk { self.new.disk ≡ self.old.disk }
    {
        self.content.set(bytes);
        self.current = Some(Current { slot, serial });
        match slot {
            Slot::A => self.a_is_shut = false,
            Slot::B => self.b_is_shut = false,
        }
    }

    /// Notes that the gate of a slot may be open.
    fn doubt(&mut self, slot: Slot)
        ensures here { remembers_shut self.new slot ≡ false }
        ensures other { remembers_shut self.new (other slot) ≡ remembers_shut self.old (other slot) }
        ensures now { remembered self.new ≡ remembered self.old }
        ensures disk { self.new.disk ≡ self.old.disk }
    {
        match slot {
            Slot::A => self.a_is_shut = false,
            Slot::B => self.b_is_shut = false,
        }
    }

    /// Returns the record, if there is one. Reads nothing from the disk.
    pub fn record(&self) -> Option<&[u8]>
        ensures { option_map (λ r. r.now) result ≡ record_in (remembered self.now) }
    {
        match self.current {
            None => None,
            Some(_current) => Some(self.content.as_slice()),
        }
    }

    /// Returns a copy of the record. Reads nothing from the disk.
    ///
    /// # Errors
    ///
    /// `NoRecord` exactly if no slot held a record when the file was opened and none was saved
    /// since; `Memory` when out of memory.
    pub fn load(&self) -> Result<Vec<u8>, SlotError>
        ensures { Loads (λ v. v.items) (record_in (remembered self.now)) result }
    {
        match self.current {
            None => Err(SlotError::NoRecord),
            Some(_current) => Ok(Vec::from_slice(self.alloc, self.content.as_slice())?),
        }
    }

    /// Returns the fault count of the disk.
    pub fn faults(&self) -> u64
        ensures { result ≡ D.fault_count self.now.disk }
    {
        self.disk.faults()
    }

    /// Returns the disk.
    pub fn into_disk(self) -> D
        ensures { result ≡ self.disk }
    {
        self.disk
    }
}
