ghost use Rattle.std.specs.Prelude.{◌≡◌, List, ℕ, Some, OnOk, OnErr};
ghost use Rattle.slot_disk.specs.Crash.{written, Follows, Elapses, Told, SeenIn};
ghost use Rattle.slot_disk.specs.Faults.{CountsFaults};
ghost use Rattle.bytewise_disk.specs.Mix.{Mixed};

use ens_base::Failed;
use slot_disk::Disk;

/// A disk on which a write that a crash interrupts leaves each byte old or new, which SQLite calls
/// powersafe overwrite. A part of the file that the write adds reads as zeros where it is not written.
/// A disk of which only `Disk` holds may leave any bytes in the range of such a write.
pub trait BytewiseDisk: Disk {
    /// Does what `write_at` does. A crash during or after it, before the next sync, leaves each byte
    /// old or new; after an error a read returns such a file too.
    fn write_bytewise(&mut self, at: u64, bytes: &[u8]) -> Result<(), Failed>
        ensures written { OnOk result (Told (Self.seen self.old) (λ old. Self.seen self.new ≡ Some (written old at bytes.now))) }
        ensures failed { OnErr result (Told (Self.seen self.old) (λ old. SeenIn Self.seen self.new (Mixed at bytes.now old))) }
        ensures crash { Follows (Mixed at bytes.now) (Self.may_leave self.old) (Self.may_leave self.new) }
        ensures time { Elapses (Self.moment self.old) (Self.moment self.new) (Self.left_since self.old) (Self.left_since self.new) (Self.may_leave self.new) }
        ensures cause { CountsFaults (Self.fault_count self.old) (Self.fault_count self.new) result };
}
