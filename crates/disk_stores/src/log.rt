ghost use Rattle.std.specs.Prelude.{◌≡◌, ◌≤◌, ◌<◌, ◌+◌, List, ℕ, length, take, Some, IfOk, IfErr, OnOk, OnErr, IsErrOf, IsSome, ◌^◌, cond};
ghost use Rattle.std.specs.HashMap.{get};
ghost use Rattle.slot_disk.specs.Crash.{Told, SeenIn};
ghost use Rattle.ens_base.specs.Lists.{same_bytes};
ghost use Rattle.environment.specs.Maps.{Entries, value_at, with_value};
ghost use Rattle.environment.specs.Stores.{StoreCounts};
ghost use Rattle.environment.specs.Told.{bytes_of};
ghost use Rattle.disk_stores.specs.Records.{entries_of};

use crate::file::LogFile;
use crate::header::spell;
use crate::place::Place;
use crate::recent::Recent;
use crate::scan::scan_and_cut;
use ens_base::{Bytes, Refused};
use environment::StoreError;
use slot_disk::Disk;
use std::alloc::Global;
use std::collections::HashMap;

/// The greatest length of a name in bytes.
pub const NAME_LIMIT: usize = 255;

/// A finite map from names to bytes on a disk. Names have at most 255 bytes. The log grows with each
/// put and is never rewritten. Contents that were put lately are kept in memory too, and found there
/// without a call of the disk.
#[derive(Drop)]
pub struct Log<D: Disk> {
    alloc: Global,
    file: LogFile<D>,
    places: HashMap<Bytes, Place>,
    record: Vec<u8>,
    recent: Recent,
}

/// Puts the place that a name had, or none, back into the index.
fn restore(places: &mut HashMap<Bytes, Place>, name: &Bytes, place: Option<Place>)
    requires { IsSome (get same_bytes places.old name.now) }
    ensures { (q : List ℕ) → get same_bytes places.new q ≡ cond (same_bytes name.now q) place (get same_bytes places.old q) }
{
    match place {
        Some(place) => {
            if let Some(held) = places.get_mut(name) {
                *held = place;
            }
        }
        None => {
            places.remove(name);
        }
    }
}

impl<D: Disk> Log<D> {
    ghost use Rattle.disk_stores.specs.LogFiles.{IsClean};
    ghost use Rattle.disk_stores.specs.Logs.{Holds, disk_after, IsOpenError};

    /// Opens the log on a disk that may hold any bytes: the records at the front of its file. Cuts
    /// off what follows the last whole record.
    ///
    /// # Errors
    ///
    /// `Failed` only if the fault count of the disk rose, or `Memory`, which leaves that count
    /// unchanged. The error returns the disk, which holds the same map.
    pub fn open(alloc: Global, disk: D) -> Result<Log<D>, Refused<D, StoreError>>
        ensures holds { IfOk result (λ log. Told (D.seen disk) (λ file. Holds D.seen log (entries_of file))) }
        ensures clean { IfOk result (λ log. IsClean log.file) }
        ensures map { Told (D.seen disk) (λ file. SeenIn D.seen (disk_after result) (λ after. entries_of after ≡ entries_of file)) }
        ensures good { OnOk result (D.fault_count (disk_after result) ≡ D.fault_count disk) }
        ensures error { IfErr result (λ r. IsOpenError (D.fault_count disk) (D.fault_count r.held) r.error) }
    {
        let mut disk = disk;
        match scan_and_cut(alloc, &mut disk) {
            Ok(index) => Ok(Log {
                alloc,
                file: LogFile {
                    disk,
                    end: index.end,
                    torn: false,
                },
                places: index.places,
                record: Vec::new(alloc),
                recent: Recent::new(alloc),
            }),
            Err(error) => Err(Refused { error, held: disk }),
        }
    }

    /// Returns the bytes under `name`, or `None` if there are none.
    ///
    /// # Errors
    ///
    /// `Failed` only if the fault count of the disk rose; `Memory` when out of memory, before
    /// anything is read.
    pub fn find(&mut self, alloc: Global, name: &[u8]) -> Result<Option<Vec<u8>>, StoreError>
        ensures found { IfOk result (λ o. (es : Entries) → Holds D.seen self.old es → bytes_of o ≡ value_at name.now es) }
        ensures holds { (es : Entries) → Holds D.seen self.old es → Holds D.seen self.new es }
        ensures clean { IsClean self.old.file → IsClean self.new.file }
        ensures memory { IsErrOf result StoreError.Memory → self.new.file ≡ self.old.file }
        ensures good { OnOk result (D.fault_count self.new.file.disk ≡ D.fault_count self.old.file.disk) }
        ensures counts { StoreCounts (D.fault_count self.old.file.disk) (D.fault_count self.new.file.disk) result }
    {
        if let Some(content) = self.recent.find(name) {
            return Ok(Some(Vec::from_slice(alloc, content)?));
        }
        let name = Bytes::from_slice(alloc, name)?;
        let Some(place) = self.places.get(&name) else {
            return Ok(None);
        };
        let place = *place;
        let mut content = vec![in alloc; 0; place.len as usize]?;
        match self.file.read(place.at, &mut content) {
            Ok(count) if count == content.len() => Ok(Some(content)),
            Ok(_) => Ok(None),
            Err(_) => Err(StoreError::Failed),
        }
    }

    /// Stores `content` under `name`, which has at most 255 bytes: appends one record, which is
    /// 11 bytes longer than the name and the content, by one write. After an error the log stands for the map
    /// that it stood for before; after `Memory` the disk is unchanged too.
    ///
    /// # Errors
    ///
    /// `Failed` only if the fault count of the disk rose; `Memory` when out of memory, or if the log
    /// would be longer than the greatest u64.
    pub fn put(&mut self, name: Bytes, content: &[u8]) -> Result<(), StoreError>
        requires { length name ≤ 255 }
        ensures holds { OnOk result ((es : Entries) → Holds D.seen self.old es → Holds D.seen self.new (with_value name content.now es)) }
        ensures clean { OnOk result (IsClean self.new.file) }
        ensures err { OnErr result ((es : Entries) → Holds D.seen self.old es → Holds D.seen self.new es) }
        ensures memory { IsErrOf result StoreError.Memory → self.new.file ≡ self.old.file }
        ensures good { OnOk result (D.fault_count self.new.file.disk ≡ D.fault_count self.old.file.disk) }
        ensures counts { StoreCounts (D.fault_count self.old.file.disk) (D.fault_count self.new.file.disk) result }
    {
        let place = self.place_after(name.as_slice().len(), content.len())?;
        spell(&mut self.record, name.as_slice(), content)?;
        let again = name.copy(self.alloc)?;
        let before = self.places.insert(name, place)?;
        match self.file.append(&self.record) {
            Ok(()) => {
                self.recent.keep(again, content);
                Ok(())
            }
            Err(_failed) => {
                restore(&mut self.places, &again, before);
                Err(StoreError::Failed)
            }
        }
    }

    /// Returns the place of the content of a record at the end of the log.
    fn place_after(&self, size: usize, len: usize) -> Result<Place, StoreError>
        requires { size ≤ 255 }
        ensures place { IfOk result (λ p. (p.at ≡ self.now.file.end + 10 + size) × (p.len ≡ len)) }
        ensures within { IfOk result (λ p. p.at + p.len + 1 < 2 ^ 64) }
        ensures memory { IfErr result (λ e. e ≡ StoreError.Memory) }
    {
        let len = len as u64;
        let at = self
            .file
            .end
            .checked_add(10 + size as u64)
            .ok_or(StoreError::Memory)?;
        if len >= u64::MAX - at {
            return Err(StoreError::Memory);
        }
        Ok(Place { at, len })
    }

    /// Returns the fault count of the disk.
    pub fn faults(&self) -> u64
        ensures { result ≡ D.fault_count self.now.file.disk }
    {
        self.file.disk.faults()
    }

    /// Returns the length of the log in bytes.
    pub fn size(&self) -> u64
        ensures { result ≡ self.now.file.end }
    {
        self.file.end
    }

    /// Returns the disk. Its file holds the map that the log stands for, unless a write failed that
    /// no later put has replaced: then bytes may follow the log.
    pub fn into_disk(self) -> D
        ensures disk { result ≡ self.file.disk }
        ensures map { (es : Entries) → Holds D.seen self es → IsClean self.file → SeenIn D.seen result (λ file. entries_of file ≡ es) }
        ensures prefix { (es : Entries) → Holds D.seen self es → SeenIn D.seen result (λ file. entries_of (take self.file.end file) ≡ es) }
    {
        self.file.disk
    }
}
