//! The opening of a log of many records.

use disk_stores::Log;
use ens_base::Bytes;
use hash_book::{Hasher16, PlainHasher};
use host::FileDisk;
use std::alloc::Global;
use std::fs::File;
use std::rt::Files;

/// The file of the log.
pub const NAME: &str = "measured-log";

/// The number of records.
const RECORDS: u64 = 100_000;

/// Makes a log of 100,000 records, each of 100 bytes under the digest of a number. Returns their
/// number.
pub fn fill<R: Files<File = File>>(rt: &R, alloc: Global) -> Option<u64> {
    let mut log = Log::open(alloc, FileDisk::new(rt, NAME)).ok()?;
    let mut count: u64 = 0;
    for number in 0..RECORDS {
        let digest = PlainHasher.digest(alloc, &number.to_be_bytes()).ok()?;
        log.put(Bytes::from_slice(alloc, &digest.0).ok()?, &[7; 100])
            .ok()?;
        count = count.saturating_add(1);
    }
    Some(count)
}

/// Opens the log. Returns its length in bytes.
pub fn open<R: Files<File = File>>(rt: &R, alloc: Global) -> Option<u64> {
    let log = Log::open(alloc, FileDisk::new(rt, NAME)).ok()?;
    Some(log.size())
}
