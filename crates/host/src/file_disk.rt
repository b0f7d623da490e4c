ghost use Rattle.std.specs.Prelude.{◌≡◌, ◌≤◌, None};
ghost use Rattle.std.specs.Io.{ReadsAtMost};
ghost use Rattle.ens_base.specs.Causes.{Rose};

use ens_base::Failed;
use slot_disk::Disk;
use std::fs::{File, OpenOptions};
use std::io;
use std::io::ErrorKind;
use std::os::fd::AsRawFd;
use std::os::unix::fs::FileExt;
use std::rt::Files;

/// A disk over a file of the current folder. The file is opened at the first call, and made, empty,
/// if it is not there. It is locked until the disk is let go: a second disk over the same file, of
/// this process or another, fails at each call and changes nothing. Once a sync has failed, every
/// later call fails: a later sync could succeed without the bytes that were lost.
#[derive(Drop)]
pub struct FileDisk<R: Files<File = File>> {
    files: R,
    name: &'static str,
    file: Option<File>,
    faults: u64,
    broken: bool,
}

/// Opens the file and locks it, without waiting for a lock of others. Makes what it holds durable, and
/// its name in the folder, and lets the next reads come from the device, so that what they return is
/// what a crash leaves.
fn opened<R: Files<File = File>>(files: &R, name: &str) -> io::Result<File> {
    let file = OpenOptions::new()
        .read(true)
        .write(true)
        .create(true)
        .open(files, name)?;
    file.try_lock()?;
    file.sync_all()?;
    let advised = libc::posix_fadvise(file.as_raw_fd(), 0, 0, libc::POSIX_FADV_DONTNEED);
    if advised != 0 {
        return Err(io::Error::from_raw_os_error(advised));
    }
    File::open(files, ".")?.sync_all()?;
    Ok(file)
}

/// Reads into the front of `buf` until it is full or the file ends.
fn read_from(file: &File, at: u64, buf: &mut [u8]) -> io::Result<usize>
    ensures { ReadsAtMost result buf.new }
{
    let mut count = 0;
    while count < buf.len() {
        match file.read_at(&mut buf[count..], at.saturating_add(count as u64)) {
            Ok(0) => return Ok(count),
            Ok(n) => count += n,
            Err(e) => return Err(e),
        }
    }
    Ok(count)
}

impl<R: Files<File = File>> FileDisk<R> {
    /// Makes a disk over the file of this name. Opens nothing yet.
    pub fn new(files: R, name: &'static str) -> Self {
        FileDisk {
            files,
            name,
            file: None,
            faults: 0,
            broken: false,
        }
    }

    /// Counts a fault.
    fn fault(&mut self) -> Failed
        ensures rose { (self.old.faults ≤ self.new.faults) × Rose self.old.faults self.new.faults }
    {
        self.faults = self.faults.saturating_add(1);
        Failed
    }

    /// Opens the file, if it is not open yet.
    fn open(&mut self) -> io::Result<()>
        ensures faults { self.new.faults ≡ self.old.faults }
    {
        if self.broken {
            return Err(io::Error::from(ErrorKind::Other));
        }
        if self.file.is_none() {
            self.file = Some(opened(&self.files, self.name)?);
        }
        Ok(())
    }

    /// Returns the open file.
    fn opened(&self) -> io::Result<&File> {
        match &self.file {
            Some(file) => Ok(file),
            None => Err(io::Error::from(ErrorKind::Other)),
        }
    }

    /// Returns the length of the file in bytes.
    fn length(&mut self) -> io::Result<u64>
        ensures faults { self.new.faults ≡ self.old.faults }
    {
        self.open()?;
        Ok(self.opened()?.metadata()?.len())
    }

    /// Reads into the front of `buf` from byte `at` on.
    fn fill(&mut self, at: u64, buf: &mut [u8]) -> io::Result<usize>
        ensures bound { ReadsAtMost result buf.new }
        ensures faults { self.new.faults ≡ self.old.faults }
    {
        self.open()?;
        read_from(self.opened()?, at, buf)
    }

    /// Writes all of `bytes` from byte `at` on.
    fn put(&mut self, at: u64, bytes: &[u8]) -> io::Result<()>
        ensures faults { self.new.faults ≡ self.old.faults }
    {
        self.open()?;
        self.opened()?.write_all_at(bytes, at)
    }

    /// Cuts the file to at most `len` bytes.
    fn shorten(&mut self, len: u64) -> io::Result<()>
        ensures faults { self.new.faults ≡ self.old.faults }
    {
        self.open()?;
        let file = self.opened()?;
        if file.metadata()?.len() > len {
            file.set_len(len)?;
        }
        Ok(())
    }

    /// Makes all writes durable. A failure breaks the disk for good.
    fn settle(&mut self) -> io::Result<()>
        ensures faults { self.new.faults ≡ self.old.faults }
    {
        self.open()?;
        let synced = self.opened()?.sync_data();
        self.broken = synced.is_err();
        synced
    }
}

impl<R: Files<File = File>> Disk for FileDisk<R> {
    ghost seen = { λ d. None };

    ghost may_leave = { λ d c. Unit {0} };

    ghost moment = { λ d. 0 };

    ghost left_since = { λ d t c. Unit {0} };

    ghost fault_count = { λ d. d.faults };

    ghost may_stay = { λ d bytes is. tt };

    ghost counts_now = { λ d t c le now. tt };

    ghost only_now = { λ d c left. tt };

    fn faults(&self) -> u64 {
        self.faults
    }

    fn size(&mut self) -> Result<u64, Failed> {
        match self.length() {
            Ok(n) => Ok(n),
            Err(_) => Err(self.fault()),
        }
    }

    fn read(&mut self, at: u64, buf: &mut [u8]) -> Result<usize, Failed> {
        match self.fill(at, buf) {
            Ok(n) => Ok(n),
            Err(_) => Err(self.fault()),
        }
    }

    #[tactic(auto, using(crate::proofs::Untold::torn_follows))]
    fn write_at(&mut self, at: u64, bytes: &[u8]) -> Result<(), Failed> {
        match self.put(at, bytes) {
            Ok(()) => Ok(()),
            Err(_) => Err(self.fault()),
        }
    }

    #[tactic(auto, using(crate::proofs::Untold::cut_follows))]
    fn cut(&mut self, len: u64) -> Result<(), Failed> {
        match self.shorten(len) {
            Ok(()) => Ok(()),
            Err(_) => Err(self.fault()),
        }
    }

    fn sync(&mut self) -> Result<(), Failed> {
        match self.settle() {
            Ok(()) => Ok(()),
            Err(_) => Err(self.fault()),
        }
    }
}
