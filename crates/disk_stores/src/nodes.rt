ghost use Rattle.std.specs.Prelude.{◌≡◌, [], Some, IfOk, IfErr, OnOk};
ghost use Rattle.slot_disk.specs.Crash.{Told, SeenIn};
ghost use Rattle.environment.specs.Maps.{Entries, value_at};
ghost use Rattle.environment.specs.MemStores.{Held};
ghost use Rattle.environment.specs.Stores.{StoreCounts};
ghost use Rattle.environment.specs.Told.{bytes_of};
ghost use Rattle.disk_stores.specs.LogFiles.{IsClean};
ghost use Rattle.disk_stores.specs.Logs.{Holds, IsOpenError};
ghost use Rattle.disk_stores.specs.NodeMaps.{digest_in, nodes_of};

use crate::log::Log;
use ens_base::{Bytes, Digest, Refused};
use environment::{NodeStore, StoreError};
use slot_disk::Disk;
use std::alloc::Global;

/// The tree nodes of a peer on a disk, each under its digest, and the top record under the empty
/// name. The top record is kept in memory too.
#[derive(Drop)]
pub struct DiskNodes<D: Disk> {
    alloc: Global,
    log: Log<D>,
    top: Option<Digest>,
}

/// Returns the digest in these bytes, if they are 16.
fn digest_of(bytes: Option<Vec<u8>>) -> Option<Digest>
    ensures { result ≡ digest_in (bytes_of bytes) }
{
    let bytes = bytes?;
    match bytes.as_slice().try_into() {
        Ok(digest) => Some(Digest(digest)),
        Err(_) => None,
    }
}

/// Reads the top record of a log.
fn read_top<D: Disk>(alloc: Global, log: &mut Log<D>) -> Result<Option<Digest>, StoreError>
    ensures top { IfOk result (λ o. (es : Entries) → Holds D.seen log.old es → o ≡ digest_in (value_at [] es)) }
    ensures holds { (es : Entries) → Holds D.seen log.old es → Holds D.seen log.new es }
    ensures clean { IsClean log.old.file → IsClean log.new.file }
    ensures good { OnOk result (D.fault_count log.new.file.disk ≡ D.fault_count log.old.file.disk) }
    ensures counts { StoreCounts (D.fault_count log.old.file.disk) (D.fault_count log.new.file.disk) result }
{
    let found = log.find(alloc, &[])?;
    Ok(digest_of(found))
}

impl<D: Disk> DiskNodes<D> {
    ghost use Rattle.disk_stores.specs.DiskCalls.{HoldsNodes, nodes_disk};

    /// Opens the nodes on a disk that may hold any bytes. Cuts off what follows the last whole
    /// record. A top record that has not 16 bytes is none.
    ///
    /// # Errors
    ///
    /// `Failed` only if the fault count of the disk rose, or `Memory`, which leaves that count
    /// unchanged. The error returns the disk, which holds the same nodes and top record.
    pub fn open(alloc: Global, disk: D) -> Result<DiskNodes<D>, Refused<D, StoreError>>
        ensures holds { IfOk result (λ n. Told (D.seen disk) (λ file. HoldsNodes D.seen n (nodes_of file))) }
        ensures clean { IfOk result (λ n. IsClean n.log.file) }
        ensures map { Told (D.seen disk) (λ file. SeenIn D.seen (nodes_disk result) (λ after. nodes_of after ≡ nodes_of file)) }
        ensures good { OnOk result (D.fault_count (nodes_disk result) ≡ D.fault_count disk) }
        ensures error { IfErr result (λ r. IsOpenError (D.fault_count disk) (D.fault_count r.held) r.error) }
    {
        let mut log = match Log::open(alloc, disk) {
            Ok(log) => log,
            Err(refused) => return Err(refused),
        };
        match read_top(alloc, &mut log) {
            Ok(top) => Ok(DiskNodes { alloc, log, top }),
            Err(error) => Err(Refused {
                error,
                held: log.into_disk(),
            }),
        }
    }

    /// Returns the disk. Its file holds the nodes and the top record, unless a call failed that no
    /// later write has replaced: then bytes may follow the log.
    pub fn into_disk(self) -> D
        ensures disk { result ≡ self.log.file.disk }
        ensures map { (held : Held) → HoldsNodes D.seen self held → IsClean self.log.file → SeenIn D.seen result (λ file. nodes_of file ≡ held) }
    {
        let DiskNodes {
            alloc: _alloc,
            log,
            top: _top,
        } = self;
        log.into_disk()
    }
}

impl<D: Disk> NodeStore for DiskNodes<D> {
    ghost use Rattle.disk_stores.specs.DiskCalls.{NodesDo, NodesRefuse};

    ghost may_answer = { λ s call answer t. NodesDo D.seen s call answer t };

    ghost may_refuse = { λ s call e t. NodesRefuse D.seen s e t };

    ghost top_record = { λ s. Some s.top };

    ghost fault_count = { λ s. D.fault_count s.log.file.disk };

    fn faults(&self) -> u64 {
        self.log.faults()
    }

    fn read(&mut self, alloc: Global, digest: &Digest) -> Result<Option<Vec<u8>>, StoreError> {
        self.log.find(alloc, &digest.0)
    }

    fn write(&mut self, alloc: Global, digest: &Digest, bytes: &[u8]) -> Result<(), StoreError> {
        let name = Bytes::from_slice(alloc, &digest.0)?;
        self.log.put(name, bytes)
    }

    fn top(&mut self) -> Result<Option<Digest>, StoreError> {
        Ok(self.top)
    }

    fn set_top(&mut self, digest: &Digest) -> Result<(), StoreError> {
        self.log.put(Bytes::new(Vec::new(self.alloc)), &digest.0)?;
        self.top = Some(*digest);
        Ok(())
    }
}
