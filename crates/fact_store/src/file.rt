ghost use Rattle.std.specs.Prelude.{◌≡◌, ◌≤◌, ◌<◌, ◌⊎◌, ◌+◌, ◌-◌, ◌^◌, ℕ, List, Option, Some, None, Result, Ok, Err, IfOk, IfErr, IsErrOf, OnOk, OnErr};
ghost use Rattle.slot_disk.specs.Crash.{Told, StaysSeen, LeavesOnly, SeenIn, IsOn};
ghost use Rattle.slot_disk.specs.Slots.{record_in, last_serial};
ghost use Rattle.slot_disk.specs.SlotFiles.{remembered, IsAtRest};
ghost use Rattle.stored_formats.specs.SavedBytes.{saved_of};
ghost use Rattle.fact_store.specs.Keeping.{IsBad, Loads, IsOldOrNewIn, IsPutError, IsOpenError, opened_with, fact_in, file_fact};
ghost use Rattle.fact_store.specs.declared.error.KeepError.TheVariants as errors;
ghost use Rattle.slot_disk.specs.declared.error.SlotError.TheVariants as slot_errors;

use crate::error::KeepError;
use crate::keeper::FactKeeper;
use ens_base::Refused;
use slot_disk::{Disk, SlotError, SlotFile};
use std::alloc::Global;
use stored_formats::{Change, Fact, FactError, SavedFact};

/// A fact on a disk, in a slot file. A save replaces it atomically, whenever a crash comes.
#[derive(Drop)]
pub struct FactFile<D: Disk> {
    slots: SlotFile<D>,
    spent: u64,
}

/// Decodes a record.
fn loaded(bytes: &[u8]) -> Result<Option<SavedFact>, KeepError>
    ensures loads { (before now : ℕ) → Loads (Some (saved_of bytes.now)) before now result }
    ensures bad { IfErr result IsBad }
{
    match SavedFact::decode(bytes) {
        Ok(fact) => Ok(Some(fact)),
        Err(e) => Err(KeepError::Bad(e)),
    }
}

/// Saves the encoding of a fact.
fn put<D: Disk>(slots: &mut SlotFile<D>, fact: &SavedFact) -> Result<(), SlotError>
    ensures any_moment { IsAtRest D.seen D.may_leave slots.old → LeavesOnly D.moment D.left_since slots.old.disk slots.new.disk (IsOldOrNewIn (fact_in (record_in (remembered slots.old))) fact.now) }
    ensures seen { IsAtRest D.seen D.may_leave slots.old → SeenIn D.seen slots.new.disk (IsOldOrNewIn (fact_in (record_in (remembered slots.old))) fact.now) }
    ensures at_rest { OnOk result (IsAtRest D.seen D.may_leave slots.old → IsAtRest D.seen D.may_leave slots.new) }
    ensures ok { OnOk result (fact_in (record_in (remembered slots.new)) ≡ Some (Ok fact.now)) }
    ensures err { OnErr result (remembered slots.new ≡ remembered slots.old) }
    ensures serial { OnOk result (last_serial (remembered slots.new) ≡ last_serial (remembered slots.old) + 1) }
    ensures can { OnOk result (last_serial (remembered slots.old) < 2 ^ 64 - 1) }
    ensures refused { OnErr result (IsErrOf result slot_errors.Failed ⊎ (slots.new ≡ slots.old)) }
    ensures good { OnOk result (D.fault_count slots.new.disk ≡ D.fault_count slots.old.disk) }
    ensures error { IfErr result (λ e. IsPutError (D.fault_count slots.old.disk) (D.fault_count slots.new.disk) (last_serial (remembered slots.old)) e) }
    ensures later { D.fault_count slots.old.disk ≤ D.fault_count slots.new.disk }
{
    let mut spelling = [0u8; 480];
    let size = fact.spell(&mut spelling);
    slots.save(&spelling[..size])
}

impl<D: Disk> FactFile<D> {
    ghost use Rattle.fact_store.specs.Files.{disk_after};

    /// Opens the fact file on `disk`. The fact then kept is the one that a crash leaves.
    ///
    /// # Errors
    ///
    /// `Failed` only if the fault count of the disk rose: a read of the disk then returns one of the
    /// files that a crash might have left before, such as the old one. `Memory` leaves that count
    /// unchanged, and comes after a sync: a read returns the same file as before, and a crash leaves
    /// exactly that one. Either error returns the disk.
    pub fn open(alloc: Global, disk: D) -> Result<FactFile<D>, Refused<D, KeepError>>
        ensures at_rest { IfOk result (λ f. Told (D.seen disk) (λ bytes. IsAtRest D.seen D.may_leave f.slots × (fact_in (record_in (remembered f.slots)) ≡ file_fact bytes))) }
        ensures spent { IfOk result (λ f. f.spent ≡ 0) }
        ensures error { IfErr result (λ r. IsOpenError (D.fault_count disk) (D.fault_count r.held) r.error) }
        ensures later { D.fault_count disk ≤ D.fault_count (disk_after result) }
        ensures good { OnOk result (D.fault_count (disk_after result) ≡ D.fault_count disk) }
        ensures seen { StaysSeen D.seen D.may_leave disk (disk_after result) result }
        ensures crash { (c : List ℕ) → D.may_leave (disk_after result) c → D.may_leave disk c }
        ensures any_moment { LeavesOnly D.moment D.left_since disk (disk_after result) (D.may_leave disk) }
        ensures memory { IfErr result (λ r. r.error ≡ errors.Memory → Told (D.seen disk) (λ bytes. IsOn D.seen D.may_leave r.held bytes)) }
    {
        match SlotFile::open(alloc, disk) {
            Ok(slots) => Ok(FactFile { slots, spent: 0 }),
            Err(refused) => Err(Refused {
                error: open_error(refused.error),
                held: refused.held,
            }),
        }
    }

    /// Returns the disk.
    pub fn into_disk(self) -> D
        ensures { result ≡ self.slots.disk }
    {
        self.slots.into_disk()
    }
}

/// Translates the error of opening a slot file.
fn open_error(e: SlotError) -> KeepError
    ensures { result ≡ opened_with e }
{
    match e {
        SlotError::Memory => KeepError::Memory,
        SlotError::Failed | SlotError::TooLong | SlotError::NoRecord | SlotError::Spent => {
            KeepError::Failed
        }
    }
}

impl<D: Disk> FactKeeper for FactFile<D> {
    ghost use Rattle.fact_store.specs.Files.{file_kept, file_faults, FileAnswers, FileRefuses};

    ghost may_answer = { λ f call answer g. FileAnswers D.seen D.may_leave D.moment D.left_since D.fault_count f call answer g };

    ghost may_refuse = { λ f call error g. FileRefuses D.seen D.may_leave D.moment D.left_since D.fault_count f call error g };

    ghost kept = { λ f. file_kept f };

    ghost fault_count = { λ f. file_faults D.fault_count f };

    fn faults(&self) -> u64 {
        self.slots.faults().saturating_add(self.spent)
    }

    fn load(&mut self) -> Result<Option<SavedFact>, KeepError> {
        match self.slots.record() {
            None => Ok(None),
            Some(bytes) => loaded(bytes),
        }
    }

    fn save(&mut self, fact: &SavedFact) -> Result<(), KeepError> {
        match put(&mut self.slots, fact) {
            Ok(()) => Ok(()),
            Err(SlotError::Failed) => Err(KeepError::Failed),
            Err(SlotError::Spent) => {
                self.spent = self.spent.saturating_add(1);
                Err(KeepError::Failed)
            }
            Err(SlotError::TooLong | SlotError::NoRecord | SlotError::Memory) => unreachable!(),
        }
    }
}
