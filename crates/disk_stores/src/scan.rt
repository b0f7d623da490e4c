ghost use Rattle.std.specs.Prelude.{◌≡◌, ◌≤◌, ◌<◌, ◌+◌, length, take, drop, IfOk, OnOk, Some};
ghost use Rattle.slot_disk.specs.Crash.{Told, Stay, SeenIn};
ghost use Rattle.environment.specs.Stores.{StoreCounts};
ghost use Rattle.slot_disk.specs.Faults.{CountsFaults};
ghost use Rattle.disk_stores.specs.Records.{entries_of, is_marked};
ghost use Rattle.disk_stores.specs.Scans.{IsPlaced, IsWithin, IsAnnounced, IsNext, ScansAll};

use crate::header::{HEADER_ROOM, Header, header_of, is_marked};
use crate::place::Place;
use ens_base::{Bytes, Failed};
use environment::StoreError;
use slot_disk::Disk;
use std::alloc::Global;
use std::collections::HashMap;

/// A record of a file.
#[derive(Drop)]
pub(crate) struct Found {
    pub(crate) name: Bytes,
    pub(crate) place: Place,
}

/// The index of a file: its records up to the offset `end`, and how long the file is.
#[derive(Drop)]
pub(crate) struct Index {
    pub(crate) places: HashMap<Bytes, Place>,
    pub(crate) end: u64,
    pub(crate) size: u64,
}

/// Returns the record with this header at byte `at`, if its content ends before the file does.
fn placed(header: Header, at: u64, size: u64) -> Option<Found>
    ensures placed { IsPlaced header at size result }
    ensures within { IsWithin at size result }
{
    let start = at.checked_add(10 + header.name.as_slice().len() as u64)?;
    let end = start.checked_add(header.len)?;
    if end >= size {
        return None;
    }
    Some(Found {
        name: header.name,
        place: Place {
            at: start,
            len: header.len,
        },
    })
}

/// Reads the header at byte `at`. Returns the record that it announces, if the file may hold it.
fn announced<D: Disk>(
    alloc: Global,
    disk: &mut D,
    at: u64,
    size: u64,
) -> Result<Option<Found>, StoreError>
    ensures within { IfOk result (λ o. IsWithin at size o) }
    ensures announced { IfOk result (λ o. Told (D.seen disk.old) (λ file. size ≡ length file → at ≤ size → IsAnnounced at (drop at file) o)) }
    ensures seen { Stay (D.seen disk.old) (D.seen disk.new) }
    ensures counts { StoreCounts (D.fault_count disk.old) (D.fault_count disk.new) result }
    ensures good { OnOk result (D.fault_count disk.new ≡ D.fault_count disk.old) }
{
    let mut prefix = [0u8; HEADER_ROOM];
    let Ok(count) = disk.read(at, &mut prefix) else {
        return Err(StoreError::Failed);
    };
    match header_of(alloc, &prefix[..count])? {
        None => Ok(None),
        Some(header) => Ok(placed(header, at, size)),
    }
}

/// Returns whether the byte at `at` is the one that ends a record.
fn is_ended<D: Disk>(disk: &mut D, at: u64) -> Result<bool, Failed>
    ensures ended { IfOk result (λ b. Told (D.seen disk.old) (λ file. b ≡ is_marked (drop at file))) }
    ensures seen { Stay (D.seen disk.old) (D.seen disk.new) }
    ensures cause { CountsFaults (D.fault_count disk.old) (D.fault_count disk.new) result }
{
    let mut last = [0u8; 1];
    let count = disk.read(at, &mut last)?;
    Ok(is_marked(&last[..count]))
}

/// Returns the record at byte `at`, if there is a whole one.
fn next_record<D: Disk>(
    alloc: Global,
    disk: &mut D,
    at: u64,
    size: u64,
) -> Result<Option<Found>, StoreError>
    ensures within { IfOk result (λ o. IsWithin at size o) }
    ensures next { IfOk result (λ o. Told (D.seen disk.old) (λ file. size ≡ length file → at ≤ size → IsNext at (drop at file) o)) }
    ensures seen { Stay (D.seen disk.old) (D.seen disk.new) }
    ensures counts { StoreCounts (D.fault_count disk.old) (D.fault_count disk.new) result }
    ensures good { OnOk result (D.fault_count disk.new ≡ D.fault_count disk.old) }
{
    let Some(found) = announced(alloc, disk, at, size)? else {
        return Ok(None);
    };
    match is_ended(disk, found.place.at + found.place.len) {
        Ok(true) => Ok(Some(found)),
        Ok(false) => Ok(None),
        Err(_failed) => Err(StoreError::Failed),
    }
}

/// Reads the headers of all records of a file.
fn scan<D: Disk>(alloc: Global, disk: &mut D) -> Result<Index, StoreError>
    ensures all { IfOk result (λ s. Told (D.seen disk.old) (λ file. ScansAll file s)) }
    ensures within { IfOk result (λ s. s.end ≤ s.size) }
    ensures seen { Stay (D.seen disk.old) (D.seen disk.new) }
    ensures counts { StoreCounts (D.fault_count disk.old) (D.fault_count disk.new) result }
    ensures good { OnOk result (D.fault_count disk.new ≡ D.fault_count disk.old) }
{
    let Ok(size) = disk.size() else {
        return Err(StoreError::Failed);
    };
    let mut index = Index {
        places: HashMap::new(alloc),
        end: 0,
        size,
    };
    while let Some(found) = next_record(alloc, disk, index.end, size)? {
        index.end = found.place.at + found.place.len + 1;
        index.places.insert(found.name, found.place)?;
    }
    Ok(index)
}

/// Reads the index of a file, and cuts off what follows its last whole record.
pub(crate) fn scan_and_cut<D: Disk>(alloc: Global, disk: &mut D) -> Result<Index, StoreError>
    ensures all { IfOk result (λ s. Told (D.seen disk.old) (λ file. ScansAll file s × (D.seen disk.new ≡ Some (take s.end file)))) }
    ensures map { Told (D.seen disk.old) (λ file. SeenIn D.seen disk.new (λ after. entries_of after ≡ entries_of file)) }
    ensures counts { StoreCounts (D.fault_count disk.old) (D.fault_count disk.new) result }
    ensures good { OnOk result (D.fault_count disk.new ≡ D.fault_count disk.old) }
{
    let index = scan(alloc, disk)?;
    if index.end == index.size {
        return Ok(index);
    }
    match disk.cut(index.end) {
        Ok(()) => Ok(index),
        Err(_failed) => Err(StoreError::Failed),
    }
}
