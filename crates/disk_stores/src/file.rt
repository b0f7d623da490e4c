ghost use Rattle.std.specs.Prelude.{◌≡◌, ◌≤◌, ◌+◌, ◌++◌, ◌^◌, ◌<◌, List, ℕ, length, take, drop, IfOk, OnOk, OnErr, false};
ghost use Rattle.slot_disk.specs.Faults.{CountsFaults};

use ens_base::Failed;
use slot_disk::Disk;

/// The file of a log: its first bytes are the log. A write that failed may have left others behind
/// them, which the next write cuts off first.
#[derive(Drop)]
pub struct LogFile<D: Disk> {
    pub(crate) disk: D,
    pub(crate) end: u64,
    pub(crate) torn: bool,
}

impl<D: Disk> LogFile<D> {
    ghost use Rattle.disk_stores.specs.LogFiles.{Begins, IsClean};

    /// Reads into `buf` the bytes of the log from byte `at` on. Returns how many bytes were read.
    pub(crate) fn read(&mut self, at: u64, buf: &mut [u8]) -> Result<usize, Failed>
        ensures bytes { IfOk result (λ n. (bytes : List ℕ) → Begins D.seen self.old bytes
            → at + length buf.new ≤ length bytes → (n ≡ length buf.new)
            × (buf.new ≡ take (length buf.new) (drop at bytes))) }
        ensures begins { (bytes : List ℕ) → Begins D.seen self.old bytes → Begins D.seen self.new bytes }
        ensures same { (self.new.end ≡ self.old.end) × (self.new.torn ≡ self.old.torn) }
        ensures cause { CountsFaults (D.fault_count self.old.disk) (D.fault_count self.new.disk) result }
    {
        self.disk.read(at, buf)
    }

    /// Appends `bytes` to the log. After an error the log is what it was.
    pub(crate) fn append(&mut self, bytes: &[u8]) -> Result<(), Failed>
        requires { self.old.end + length bytes.now < 2 ^ 64 }
        ensures ok { OnOk result ((prefix : List ℕ) → Begins D.seen self.old prefix → Begins D.seen self.new (prefix ++ bytes.now)) }
        ensures clean { OnOk result (IsClean self.new) }
        ensures end { OnOk result (self.new.end ≡ self.old.end + length bytes.now) }
        ensures err { OnErr result ((prefix : List ℕ) → Begins D.seen self.old prefix → Begins D.seen self.new prefix) }
        ensures same { OnErr result (self.new.end ≡ self.old.end) }
        ensures cause { CountsFaults (D.fault_count self.old.disk) (D.fault_count self.new.disk) result }
    {
        if self.torn {
            self.disk.cut(self.end)?;
        }
        self.torn = true;
        self.disk.write_at(self.end, bytes)?;
        self.torn = false;
        self.end += bytes.len() as u64;
        Ok(())
    }
}
