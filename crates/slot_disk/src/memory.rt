ghost use Rattle.std.specs.Prelude.{◌≡◌, ◌≢◌, ◌-◌, ◌<◌, ◌≤◌, ◌+◌, ◌++◌, ◌∷◌, ◌⊎◌, ◌↔◌, [], List, ℕ, Some, length, take, drop, min, replicate, reverse, IfOk, OnOk, OnErr, vec_capacity, IsTrue};
ghost use Rattle.std.specs.Io.{ReadsAtMost};
ghost use Rattle.ens_base.specs.Causes.{counted, Rose};
ghost use Rattle.slot_disk.specs.Crash.{written, Torn, Cut, Follows, Only, Elapses, Told, Stay, SeenIn};
ghost use Rattle.slot_disk.specs.Faults.{CountsFaults, CountsEach};
ghost use Rattle.slot_disk.specs.Failing.{fate_of};
ghost use Rattle.slot_disk.specs.Steps.{deeds, Wrote, CutTo, Synced, are_within, seen_of, Leaves, LeftSince, HasStep, HasRoom};
ghost use Rattle.slot_disk.specs.declared.failing.Fate.TheVariants.{Works, Fails, FailsDone};

use crate::disk::Disk;
use crate::failing::{Failing, Fate};
use crate::step::{Room, Step};
use ens_base::Failed;
use std::alloc::{AllocError, Global};

/// A disk in memory. It records every call that changed it, and so defines what a crash may leave
/// now and what one may have left earlier. Exactly the listed calls fail, and those without room: a
/// write past the room for bytes, and a write, cut or sync past the room for its record. All its
/// memory is allocated when it is made.
#[derive(Drop)]
pub struct MemDisk {
    pub(crate) first: Vec<u8>,
    file: Vec<u8>,
    pub(crate) log: Vec<u8>,
    pub(crate) steps: Vec<Step>,
    room: Room,
    calls: u64,
    failing: Failing,
    faults: u64,
    ghost stands: { file.items ≡ seen_of first.items (reverse (deeds log.items steps.items)) },
    ghost kept: { IsTrue (are_within (length log.items) steps.items) },
    ghost bytes_fit: { room.bytes ≤ vec_capacity file },
    ghost log_fits: { room.written ≤ vec_capacity log },
    ghost steps_fit: { room.calls ≤ vec_capacity steps },
}

/// Extends the file with zeros up to a length, within its capacity.
fn stretch(file: &mut Vec<u8>, end: usize)
    requires { end ≤ vec_capacity file.old }
    ensures zeros { file.new.items ≡ file.old.items ++ replicate (end - length file.old.items) 0 }
    ensures capacity { vec_capacity file.old ≤ vec_capacity file.new }
{
    if file.len() < end {
        file.resize(end, 0).unwrap();
    }
}

/// Overwrites bytes of the file in place.
pub(crate) fn overwrite(file: &mut Vec<u8>, at: usize, bytes: &[u8])
    requires { at + length bytes.now ≤ length file.old.items }
    ensures over { file.new.items ≡ take at file.old.items ++ bytes.now ++ drop (at + length bytes.now) file.old.items }
    ensures capacity { vec_capacity file.old ≡ vec_capacity file.new }
{
    file[at..at + bytes.len()].copy_from_slice(bytes);
}

/// Writes `bytes` at byte `at`, within the capacity of the file; a gap is filled with zeros.
#[tactic(auto, using(crate::proofs::Files::written_over, crate::proofs::Files::nothing_written))]
fn put(file: &mut Vec<u8>, at: usize, bytes: &[u8])
    requires { at + length bytes.now ≤ vec_capacity file.old }
    ensures written { file.new.items ≡ written file.old.items at bytes.now }
    ensures capacity { vec_capacity file.old ≤ vec_capacity file.new }
{
    if bytes.is_empty() {
        return;
    }
    stretch(file, at + bytes.len());
    overwrite(file, at, bytes);
}

/// Records a step, within the capacity of the list.
fn add_step(taken: &mut Vec<Step>, step: Step)
    requires { length taken.old.items < vec_capacity taken.old }
    ensures items { taken.new.items ≡ taken.old.items ++ step ∷ [] }
    ensures capacity { vec_capacity taken.old ≤ vec_capacity taken.new }
{
    taken.push(step).unwrap();
}

/// Appends the bytes of a write to the log, within its capacity.
fn add_bytes(log: &mut Vec<u8>, bytes: &[u8])
    requires { length log.old.items + length bytes.now ≤ vec_capacity log.old }
    ensures items { log.new.items ≡ log.old.items ++ bytes.now }
    ensures capacity { vec_capacity log.old ≤ vec_capacity log.new }
{
    log.extend_from_slice(bytes).unwrap();
}

impl MemDisk {
    /// Makes a disk on which these bytes are durable. Fails only when out of memory.
    pub fn holding(
        alloc: Global,
        bytes: &[u8],
        room: Room,
        failing: Failing,
    ) -> Result<MemDisk, AllocError>
        ensures bytes { IfOk result (λ d. (d.first.items ≡ bytes.now) × (d.file.items ≡ bytes.now)) }
        ensures steps { IfOk result (λ d. (d.steps.items ≡ []) × (d.log.items ≡ [])) }
        ensures given { IfOk result (λ d. (d.room ≡ room) × (d.failing ≡ failing)) }
        ensures counts { IfOk result (λ d. (d.calls ≡ 0) × (d.faults ≡ 0)) }
    {
        let mut file = Vec::with_capacity(alloc, room.bytes)?;
        file.extend_from_slice(bytes)?;
        Ok(MemDisk {
            first: Vec::from_slice(alloc, bytes)?,
            file,
            log: Vec::with_capacity(alloc, room.written)?,
            steps: Vec::with_capacity(alloc, room.calls)?,
            room,
            calls: 0,
            failing,
            faults: 0,
        })
    }

    /// Makes an empty disk. Fails only when out of memory.
    pub fn new(alloc: Global, room: Room, failing: Failing) -> Result<MemDisk, AllocError>
        ensures bytes { IfOk result (λ d. (d.first.items ≡ []) × (d.file.items ≡ [])) }
        ensures steps { IfOk result (λ d. (d.steps.items ≡ []) × (d.log.items ≡ [])) }
        ensures given { IfOk result (λ d. (d.room ≡ room) × (d.failing ≡ failing)) }
        ensures counts { IfOk result (λ d. (d.calls ≡ 0) × (d.faults ≡ 0)) }
    {
        MemDisk::holding(alloc, &[], room, failing)
    }

    /// Returns the bytes that a read returns.
    pub fn bytes(&self) -> &[u8]
        ensures { result.now ≡ self.now.file.items }
    {
        &self.file
    }
}

impl MemDisk {
    /// Counts a call, and returns its planned outcome.
    fn next_fate(&mut self) -> Fate
        ensures fate { result ≡ fate_of self.old.failing.undone.items self.old.failing.done.items self.new.calls }
        ensures calls { self.new.calls ≡ counted self.old.calls }
        ensures faults { self.new.faults ≡ self.old.faults }
        ensures file { (self.new.first ≡ self.old.first) × (self.new.file ≡ self.old.file) }
        ensures steps { (self.new.log ≡ self.old.log) × (self.new.steps ≡ self.old.steps) }
        ensures room { (self.new.room ≡ self.old.room) × (self.new.failing ≡ self.old.failing) }
    {
        self.calls = self.calls.saturating_add(1);
        self.failing.fate(self.calls)
    }

    /// Counts a fault.
    fn fault(&mut self) -> Failed
        ensures faults { self.new.faults ≡ counted self.old.faults }
        ensures rose { (self.old.faults ≤ self.new.faults) × Rose self.old.faults self.new.faults }
        ensures calls { self.new.calls ≡ self.old.calls }
        ensures file { (self.new.first ≡ self.old.first) × (self.new.file ≡ self.old.file) }
        ensures steps { (self.new.log ≡ self.old.log) × (self.new.steps ≡ self.old.steps) }
        ensures room { (self.new.room ≡ self.old.room) × (self.new.failing ≡ self.old.failing) }
    {
        self.faults = self.faults.saturating_add(1);
        Failed
    }

    /// Returns the result of a call that took effect; counts a fault if the call is planned to
    /// fail.
    fn answer(&mut self, fate: Fate) -> Result<(), Failed>
        ensures faults { CountsEach self.old.faults self.new.faults result }
        ensures cause { CountsFaults self.old.faults self.new.faults result }
        ensures ok { OnOk result (fate ≢ FailsDone) }
        ensures failed { OnErr result (fate ≡ FailsDone) }
        ensures calls { self.new.calls ≡ self.old.calls }
        ensures file { (self.new.first ≡ self.old.first) × (self.new.file ≡ self.old.file) }
        ensures steps { (self.new.log ≡ self.old.log) × (self.new.steps ≡ self.old.steps) }
        ensures room { (self.new.room ≡ self.old.room) × (self.new.failing ≡ self.old.failing) }
    {
        match fate {
            Fate::FailsDone => Err(self.fault()),
            Fate::Works | Fate::Fails => Ok(()),
        }
    }

    /// Returns whether there is room to record one more call.
    fn has_step(&self) -> bool
        ensures { IsTrue result ↔ HasStep self.now.room self.now.steps.items }
    {
        self.steps.len() < self.room.calls
    }

    /// Returns whether there is room for a write of `len` bytes at byte `at`, and for its record.
    fn has_room(&self, at: u64, len: usize) -> bool
        ensures { IsTrue result ↔ HasRoom self.now.room self.now.steps.items self.now.log.items at len }
    {
        let place = at as usize;
        self.has_step()
            && place <= self.room.bytes
            && len <= self.room.bytes - place
            && self.log.len() <= self.room.written
            && len <= self.room.written - self.log.len()
    }

    /// Writes, and records the write.
    #[tactic(auto, using(crate::proofs::Recorded::write_recorded))]
    fn write(&mut self, at: u64, bytes: &[u8])
        requires { HasRoom self.old.room self.old.steps.items self.old.log.items at (length bytes.now) }
        ensures file { self.new.file.items ≡ written self.old.file.items at bytes.now }
        ensures deeds { deeds self.new.log.items self.new.steps.items ≡ deeds self.old.log.items self.old.steps.items ++ Wrote at bytes.now ∷ [] }
        ensures first { self.new.first ≡ self.old.first }
        ensures counts { (self.new.calls ≡ self.old.calls) × (self.new.faults ≡ self.old.faults) }
        ensures room { (self.new.room ≡ self.old.room) × (self.new.failing ≡ self.old.failing) }
    {
        put(&mut self.file, at as usize, bytes);
        let from = self.log.len();
        add_bytes(&mut self.log, bytes);
        let step = Step::Write {
            at,
            from,
            len: bytes.len(),
        };
        add_step(&mut self.steps, step);
    }

    /// Cuts the file, and records the cut.
    #[tactic(auto, using(crate::proofs::Recorded::cut_recorded))]
    fn shorten(&mut self, len: u64)
        requires { HasStep self.old.room self.old.steps.items }
        ensures file { self.new.file.items ≡ take len self.old.file.items }
        ensures deeds { deeds self.new.log.items self.new.steps.items ≡ deeds self.old.log.items self.old.steps.items ++ CutTo len ∷ [] }
        ensures first { self.new.first ≡ self.old.first }
        ensures counts { (self.new.calls ≡ self.old.calls) × (self.new.faults ≡ self.old.faults) }
        ensures room { (self.new.room ≡ self.old.room) × (self.new.failing ≡ self.old.failing) }
    {
        self.file.truncate(len as usize);
        add_step(&mut self.steps, Step::Cut(len));
    }

    /// Records a sync.
    #[tactic(auto, using(crate::proofs::Recorded::sync_recorded))]
    fn settle(&mut self)
        requires { HasStep self.old.room self.old.steps.items }
        ensures file { self.new.file ≡ self.old.file }
        ensures deeds { deeds self.new.log.items self.new.steps.items ≡ deeds self.old.log.items self.old.steps.items ++ Synced ∷ [] }
        ensures first { self.new.first ≡ self.old.first }
        ensures counts { (self.new.calls ≡ self.old.calls) × (self.new.faults ≡ self.old.faults) }
        ensures room { (self.new.room ≡ self.old.room) × (self.new.failing ≡ self.old.failing) }
    {
        add_step(&mut self.steps, Step::Sync);
    }
}

impl Disk for MemDisk {
    ghost use Rattle.slot_disk.specs.StepLaws.{left_now, now_left};
    ghost use Rattle.slot_disk.specs.MemDisks.{history, fate_next, HasOneMore, HasRoomFor, HasSameBase};
    ghost use Rattle.slot_disk.specs.Outcomes.{seen_is_left};

    ghost seen = { λ m. Some m.file.items };

    ghost may_leave = { λ m c. Leaves m.first.items (deeds m.log.items m.steps.items) c };

    ghost moment = { λ m. length (deeds m.log.items m.steps.items) };

    ghost left_since = { λ m t c. LeftSince m.first.items (deeds m.log.items m.steps.items) t c };

    ghost fault_count = { λ m. m.faults };

    ghost may_stay = { λ m bytes is. seen_is_left m.first.items m.file.items bytes (deeds m.log.items m.steps.items) m.stands is };

    ghost counts_now = { λ m t c le now. left_now m.first.items (deeds m.log.items m.steps.items) t c le now };

    ghost only_now = { λ m c left. now_left m.first.items (deeds m.log.items m.steps.items) c left };

    fn faults(&self) -> u64 {
        self.faults
    }

    fn size(&mut self) -> Result<u64, Failed>
        ensures size { IfOk result (λ n. Told (Some self.old.file.items) (λ bytes. n ≡ length bytes)) }
        ensures seen { Stay (Some self.old.file.items) (Some self.new.file.items) }
        ensures crash { (c : List ℕ) → Leaves self.new.first.items (history self.new) c → Leaves self.old.first.items (history self.old) c }
        ensures time { Elapses (length (history self.old)) (length (history self.new))
            (LeftSince self.old.first.items (history self.old)) (LeftSince self.new.first.items (history self.new))
            (Leaves self.new.first.items (history self.new)) }
        ensures cause { CountsFaults self.old.faults self.new.faults result }
        // Exactly the listed calls fail.
        ensures works { OnOk result (fate_next self.old ≡ Works) }
        ensures fails { OnErr result (fate_next self.old ≢ Works) }
        ensures calls { (self.new.calls ≡ counted self.old.calls) × CountsEach self.old.faults self.new.faults result }
        ensures base { HasSameBase self.old self.new }
        ensures history { history self.new ≡ history self.old }
    {
        if self.next_fate() != Fate::Works {
            return Err(self.fault());
        }
        Ok(self.file.len() as u64)
    }

    fn read(&mut self, at: u64, buf: &mut [u8]) -> Result<usize, Failed>
        ensures bound { ReadsAtMost result buf.new }
        ensures bytes { IfOk result (λ n. Told (Some self.old.file.items) (λ bytes. (n ≡ min (length buf.new) (length bytes - at)) × (take n buf.new ≡ take n (drop at bytes)))) }
        ensures seen { Stay (Some self.old.file.items) (Some self.new.file.items) }
        ensures crash { (c : List ℕ) → Leaves self.new.first.items (history self.new) c → Leaves self.old.first.items (history self.old) c }
        ensures time { Elapses (length (history self.old)) (length (history self.new))
            (LeftSince self.old.first.items (history self.old)) (LeftSince self.new.first.items (history self.new))
            (Leaves self.new.first.items (history self.new)) }
        ensures cause { CountsFaults self.old.faults self.new.faults result }
        // Exactly the listed calls fail.
        ensures works { OnOk result (fate_next self.old ≡ Works) }
        ensures fails { OnErr result (fate_next self.old ≢ Works) }
        ensures calls { (self.new.calls ≡ counted self.old.calls) × CountsEach self.old.faults self.new.faults result }
        ensures base { HasSameBase self.old self.new }
        ensures history { history self.new ≡ history self.old }
    {
        if self.next_fate() != Fate::Works {
            return Err(self.fault());
        }
        let place = (at as usize).min(self.file.len());
        let n = buf.len().min(self.file.len() - place);
        buf[..n].copy_from_slice(&self.file[place..place + n]);
        Ok(n)
    }

    fn write_at(&mut self, at: u64, bytes: &[u8]) -> Result<(), Failed>
        ensures written { OnOk result (Told (Some self.old.file.items) (λ old. Some self.new.file.items ≡ Some (written old at bytes.now))) }
        ensures failed { OnErr result (Told (Some self.old.file.items) (λ old. SeenIn (λ m. Some m.file.items) self.new (Torn at (length bytes.now) old))) }
        ensures crash { Follows (Torn at (length bytes.now)) (Leaves self.old.first.items (history self.old)) (Leaves self.new.first.items (history self.new)) }
        ensures time { Elapses (length (history self.old)) (length (history self.new))
            (LeftSince self.old.first.items (history self.old)) (LeftSince self.new.first.items (history self.new))
            (Leaves self.new.first.items (history self.new)) }
        ensures cause { CountsFaults self.old.faults self.new.faults result }
        // Exactly the listed calls fail, and those without room.
        ensures works { OnOk result ((fate_next self.old ≡ Works) × HasRoomFor self.old at (length bytes.now)) }
        ensures fails { OnErr result ((fate_next self.old ≢ Works) ⊎ (HasRoomFor self.old at (length bytes.now) → ⊥)) }
        ensures calls { (self.new.calls ≡ counted self.old.calls) × CountsEach self.old.faults self.new.faults result }
        ensures base { HasSameBase self.old self.new }
        // A failed call has its effect or not, as listed; without room it has none.
        ensures undone { fate_next self.old ≡ Fails → history self.new ≡ history self.old }
        ensures no_room { (HasRoomFor self.old at (length bytes.now) → ⊥) → history self.new ≡ history self.old }
        ensures done { fate_next self.old ≢ Fails → HasRoomFor self.old at (length bytes.now) → history self.new ≡ history self.old ++ Wrote at bytes.now ∷ [] }
    {
        let fate = self.next_fate();
        if fate == Fate::Fails || !self.has_room(at, bytes.len()) {
            return Err(self.fault());
        }
        self.write(at, bytes);
        self.answer(fate)
    }

    fn cut(&mut self, len: u64) -> Result<(), Failed>
        ensures cut { OnOk result (Told (Some self.old.file.items) (λ old. Some self.new.file.items ≡ Some (take len old))) }
        ensures failed { OnErr result (Told (Some self.old.file.items) (λ old. SeenIn (λ m. Some m.file.items) self.new (Cut len old))) }
        ensures crash { Follows (Cut len) (Leaves self.old.first.items (history self.old)) (Leaves self.new.first.items (history self.new)) }
        ensures time { Elapses (length (history self.old)) (length (history self.new))
            (LeftSince self.old.first.items (history self.old)) (LeftSince self.new.first.items (history self.new))
            (Leaves self.new.first.items (history self.new)) }
        ensures cause { CountsFaults self.old.faults self.new.faults result }
        // Exactly the listed calls fail, and those without room.
        ensures works { OnOk result ((fate_next self.old ≡ Works) × HasOneMore self.old) }
        ensures fails { OnErr result ((fate_next self.old ≢ Works) ⊎ (HasOneMore self.old → ⊥)) }
        ensures calls { (self.new.calls ≡ counted self.old.calls) × CountsEach self.old.faults self.new.faults result }
        ensures base { HasSameBase self.old self.new }
        // A failed call has its effect or not, as listed; without room it has none.
        ensures undone { fate_next self.old ≡ Fails → history self.new ≡ history self.old }
        ensures no_room { (HasOneMore self.old → ⊥) → history self.new ≡ history self.old }
        ensures done { fate_next self.old ≢ Fails → HasOneMore self.old → history self.new ≡ history self.old ++ CutTo len ∷ [] }
    {
        let fate = self.next_fate();
        if fate == Fate::Fails || !self.has_step() {
            return Err(self.fault());
        }
        self.shorten(len);
        self.answer(fate)
    }

    fn sync(&mut self) -> Result<(), Failed>
        ensures durable { OnOk result (Told (Some self.old.file.items) (λ bytes. Only bytes (Leaves self.new.first.items (history self.new)))) }
        ensures seen { OnOk result (Stay (Some self.old.file.items) (Some self.new.file.items)) }
        ensures failed { OnErr result (Told (Some self.old.file.items) (λ bytes. SeenIn (λ m. Some m.file.items) self.new (Leaves self.old.first.items (history self.old)))) }
        ensures crash { (c : List ℕ) → Leaves self.new.first.items (history self.new) c → Leaves self.old.first.items (history self.old) c }
        ensures time { Elapses (length (history self.old)) (length (history self.new))
            (LeftSince self.old.first.items (history self.old)) (LeftSince self.new.first.items (history self.new))
            (Leaves self.new.first.items (history self.new)) }
        ensures cause { CountsFaults self.old.faults self.new.faults result }
        // Exactly the listed calls fail, and those without room.
        ensures works { OnOk result ((fate_next self.old ≡ Works) × HasOneMore self.old) }
        ensures fails { OnErr result ((fate_next self.old ≢ Works) ⊎ (HasOneMore self.old → ⊥)) }
        ensures calls { (self.new.calls ≡ counted self.old.calls) × CountsEach self.old.faults self.new.faults result }
        ensures base { HasSameBase self.old self.new }
        // A failed call has its effect or not, as listed; without room it has none.
        ensures undone { fate_next self.old ≡ Fails → history self.new ≡ history self.old }
        ensures no_room { (HasOneMore self.old → ⊥) → history self.new ≡ history self.old }
        ensures done { fate_next self.old ≢ Fails → HasOneMore self.old → history self.new ≡ history self.old ++ Synced ∷ [] }
    {
        let fate = self.next_fate();
        if fate == Fate::Fails || !self.has_step() {
            return Err(self.fault());
        }
        self.settle();
        self.answer(fate)
    }
}
