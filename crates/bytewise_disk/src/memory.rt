ghost use Rattle.std.specs.Prelude.{◌≡◌, ◌≢◌, ◌-◌, ◌≤◌, ◌++◌, ◌∷◌, ◌⊎◌, [], List, ℕ, Some, length, take, drop, min, IfOk, OnOk, OnErr};
ghost use Rattle.std.specs.Io.{ReadsAtMost};
ghost use Rattle.slot_disk.specs.Crash.{written, Torn, Cut, Follows, Only, Elapses, Told, Stay, SeenIn};
ghost use Rattle.slot_disk.specs.Faults.{CountsFaults};
ghost use Rattle.slot_disk.specs.MemDisks.{history};
ghost use Rattle.bytewise_disk.specs.Mix.{Mixed};
ghost use Rattle.bytewise_disk.specs.Images.{Leaves, LeftSince};

use crate::disk::BytewiseDisk;
use ens_base::Failed;
use slot_disk::{Disk, MemDisk};

/// A disk in memory of whose writes a crash leaves each byte old or new. It keeps a disk that records
/// its calls, and fails where that one does.
#[derive(Drop)]
pub struct BytewiseMemory {
    disk: MemDisk,
}

impl BytewiseMemory {
    /// Makes a disk of the calls of another one.
    pub fn new(disk: MemDisk) -> BytewiseMemory
        ensures { result.disk ≡ disk }
    {
        BytewiseMemory { disk }
    }

    /// Returns the disk that records the calls.
    pub fn into_disk(self) -> MemDisk
        ensures { result ≡ self.disk }
    {
        self.disk
    }
}

impl Disk for BytewiseMemory {
    ghost use Rattle.bytewise_disk.specs.ImageLaws.{left_now, now_left, seen_is_left};

    ghost seen = { λ m. Some m.disk.file.items };

    ghost may_leave = { λ m c. Leaves m.disk.first.items (history m.disk) c };

    ghost moment = { λ m. length (history m.disk) };

    ghost left_since = { λ m t c. LeftSince m.disk.first.items (history m.disk) t c };

    ghost fault_count = { λ m. m.disk.faults };

    ghost may_stay = { λ m bytes is. seen_is_left m.disk.first.items m.disk.file.items bytes (history m.disk) m.disk.stands is };

    ghost counts_now = { λ m t c le now. left_now m.disk.first.items (history m.disk) t c le now };

    ghost only_now = { λ m c left. now_left m.disk.first.items (history m.disk) c left };

    fn faults(&self) -> u64 {
        self.disk.faults()
    }

    fn size(&mut self) -> Result<u64, Failed> {
        self.disk.size()
    }

    fn read(&mut self, at: u64, buf: &mut [u8]) -> Result<usize, Failed> {
        self.disk.read(at, buf)
    }

    fn write_at(&mut self, at: u64, bytes: &[u8]) -> Result<(), Failed> {
        self.disk.write_at(at, bytes)
    }

    fn cut(&mut self, len: u64) -> Result<(), Failed> {
        self.disk.cut(len)
    }

    fn sync(&mut self) -> Result<(), Failed> {
        self.disk.sync()
    }
}

impl BytewiseDisk for BytewiseMemory {
    fn write_bytewise(&mut self, at: u64, bytes: &[u8]) -> Result<(), Failed> {
        self.disk.write_at(at, bytes)
    }
}
