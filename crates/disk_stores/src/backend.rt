ghost use Rattle.std.specs.Prelude.{◌≡◌, IfOk, IfErr, OnOk};
ghost use Rattle.slot_disk.specs.Crash.{Told, SeenIn};
ghost use Rattle.environment.specs.Maps.{Entries};
ghost use Rattle.disk_stores.specs.LogFiles.{IsClean};
ghost use Rattle.disk_stores.specs.Logs.{IsOpenError};
ghost use Rattle.disk_stores.specs.Records.{entries_of};

use crate::log::Log;
use ens_base::{Bytes, Key, Refused};
use environment::{Backend, StoreError};
use slot_disk::Disk;
use std::alloc::Global;

/// The objects of a peer on a disk, each under its key.
#[derive(Drop)]
pub struct DiskBackend<D: Disk> {
    log: Log<D>,
}

impl<D: Disk> DiskBackend<D> {
    ghost use Rattle.disk_stores.specs.DiskCalls.{HoldsObjects, objects_disk};

    /// Opens the objects on a disk that may hold any bytes. Cuts off what follows the last whole
    /// record.
    ///
    /// # Errors
    ///
    /// `Failed` only if the fault count of the disk rose, or `Memory`, which leaves that count
    /// unchanged. The error returns the disk, which holds the same objects.
    pub fn open(alloc: Global, disk: D) -> Result<DiskBackend<D>, Refused<D, StoreError>>
        ensures holds { IfOk result (λ b. Told (D.seen disk) (λ file. HoldsObjects D.seen b (entries_of file))) }
        ensures clean { IfOk result (λ b. IsClean b.log.file) }
        ensures map { Told (D.seen disk) (λ file. SeenIn D.seen (objects_disk result) (λ after. entries_of after ≡ entries_of file)) }
        ensures good { OnOk result (D.fault_count (objects_disk result) ≡ D.fault_count disk) }
        ensures error { IfErr result (λ r. IsOpenError (D.fault_count disk) (D.fault_count r.held) r.error) }
    {
        match Log::open(alloc, disk) {
            Ok(log) => Ok(DiskBackend { log }),
            Err(refused) => Err(refused),
        }
    }

    /// Returns the disk. Its file holds the objects, unless a put failed that no later put has
    /// replaced: then bytes may follow the log.
    pub fn into_disk(self) -> D
        ensures disk { result ≡ self.log.file.disk }
        ensures map { (es : Entries) → HoldsObjects D.seen self es → IsClean self.log.file → SeenIn D.seen result (λ file. entries_of file ≡ es) }
    {
        let DiskBackend { log } = self;
        log.into_disk()
    }
}

impl<D: Disk> Backend for DiskBackend<D> {
    ghost use Rattle.disk_stores.specs.DiskCalls.{ObjectsDo, ObjectsRefuse};

    ghost may_answer = { λ s call answer t. ObjectsDo D.seen s call answer t };

    ghost may_refuse = { λ s call e t. ObjectsRefuse D.seen s e t };

    ghost fault_count = { λ s. D.fault_count s.log.file.disk };

    fn faults(&self) -> u64 {
        self.log.faults()
    }

    fn get(&mut self, alloc: Global, key: &Key) -> Result<Option<Vec<u8>>, StoreError> {
        self.log.find(alloc, key.bytes())
    }

    fn put(&mut self, alloc: Global, key: &Key, bytes: &[u8]) -> Result<(), StoreError> {
        let name = Bytes::from_slice(alloc, key.bytes())?;
        self.log.put(name, bytes)
    }
}
