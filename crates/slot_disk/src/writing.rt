ghost use Rattle.std.specs.Prelude.{◌≡◌, ◌+◌, List, ℕ, length, OnOk, ◌∷◌};
ghost use Rattle.slot_disk.specs.Crash.{written, Torn, LeavesOnly, IsOn, SeenIn};
ghost use Rattle.slot_disk.specs.Faults.{CountsFaults};
ghost use Rattle.slot_disk.specs.Slots.{start, current, IsOldOrNew, record_of, IsSaved};
ghost use Rattle.slot_disk.specs.Saving.{with_gate_closed, IsFree, IsBody, IsClosed};

use crate::disk::Disk;
use crate::slot::Slot;
use ens_base::Failed;

/// Writes, and then syncs.
fn write_synced<D: Disk>(disk: &mut D, at: u64, bytes: &[u8]) -> Result<(), Failed>
    ensures done { OnOk result ((file : List ℕ) → IsOn D.seen D.may_leave disk.old file → IsOn D.seen D.may_leave disk.new (written file at bytes.now)) }
    ensures seen { (file : List ℕ) → IsOn D.seen D.may_leave disk.old file → SeenIn D.seen disk.new (Torn at (length bytes.now) file) }
    ensures any_moment { (file : List ℕ) → IsOn D.seen D.may_leave disk.old file → LeavesOnly D.moment D.left_since disk.old disk.new (Torn at (length bytes.now) file) }
    ensures cause { CountsFaults (D.fault_count disk.old) (D.fault_count disk.new) result }
{
    disk.write_at(at, bytes)?;
    disk.sync()
}

/// Closes the gate of the slot that the next save takes, unless it is present and closed. Nothing
/// else changes.
fn close<D: Disk>(disk: &mut D, slot: Slot, is_shut: bool) -> Result<(), Failed>
    ensures done { OnOk result ((file : List ℕ) → IsOn D.seen D.may_leave disk.old file → IsFree file slot is_shut
        → (after : List ℕ) × IsOn D.seen D.may_leave disk.new after × IsClosed file slot after) }
    ensures seen { (file : List ℕ) → IsOn D.seen D.may_leave disk.old file → IsFree file slot is_shut → SeenIn D.seen disk.new (λ c. current c ≡ current file) }
    ensures any_moment { (file : List ℕ) → IsOn D.seen D.may_leave disk.old file → IsFree file slot is_shut → LeavesOnly D.moment D.left_since disk.old disk.new (λ c. current c ≡ current file) }
    ensures exact { OnOk result ((file : List ℕ) → IsOn D.seen D.may_leave disk.old file → IsOn D.seen D.may_leave disk.new (with_gate_closed file slot is_shut)) }
    ensures inside_seen { (file : List ℕ) → IsOn D.seen D.may_leave disk.old file → SeenIn D.seen disk.new (Torn (start slot) 1 file) }
    ensures inside { (file : List ℕ) → IsOn D.seen D.may_leave disk.old file → LeavesOnly D.moment D.left_since disk.old disk.new (Torn (start slot) 1 file) }
    ensures cause { CountsFaults (D.fault_count disk.old) (D.fault_count disk.new) result }
{
    if is_shut {
        return Ok(());
    }
    write_synced(disk, slot.start(), &[0])
}

/// Replaces the slot that is not current: closes its gate, writes the bytes after the gate, and
/// opens the gate. Syncs after each write.
pub(crate) fn replace<D: Disk>(
    disk: &mut D,
    slot: Slot,
    is_shut: bool,
    spelled: &[u8],
) -> Result<(), Failed>
    ensures done { OnOk result ((file bytes : List ℕ) → IsOn D.seen D.may_leave disk.old file
        → IsFree file slot is_shut → IsBody file bytes spelled.now → (after : List ℕ)
        × IsOn D.seen D.may_leave disk.new after × IsSaved file slot bytes after) }
    ensures seen { (file bytes : List ℕ) → IsOn D.seen D.may_leave disk.old file → IsFree file slot is_shut
        → IsBody file bytes spelled.now → SeenIn D.seen disk.new (IsOldOrNew (record_of file) bytes) }
    ensures any_moment { (file bytes : List ℕ) → IsOn D.seen D.may_leave disk.old file → IsFree file slot is_shut
        → IsBody file bytes spelled.now
        → LeavesOnly D.moment D.left_since disk.old disk.new (IsOldOrNew (record_of file) bytes) }
    ensures exact { OnOk result ((file : List ℕ) → IsOn D.seen D.may_leave disk.old file → IsFree file slot is_shut → IsOn D.seen D.may_leave disk.new (written file (start slot) (1 ∷ spelled.now))) }
    ensures inside_seen { (file : List ℕ) → IsOn D.seen D.may_leave disk.old file → SeenIn D.seen disk.new (Torn (start slot) (1 + length spelled.now) file) }
    ensures inside { (file : List ℕ) → IsOn D.seen D.may_leave disk.old file → LeavesOnly D.moment D.left_since disk.old disk.new (Torn (start slot) (1 + length spelled.now) file) }
    ensures cause { CountsFaults (D.fault_count disk.old) (D.fault_count disk.new) result }
{
    close(disk, slot, is_shut)?;
    write_synced(disk, slot.start() + 1, spelled)?;
    write_synced(disk, slot.start(), &[1])
}
