//! Disks on which a write that a crash interrupts leaves each byte old or new.
//!
//! The trait `BytewiseDisk` adds one call to `Disk`: a write of which a crash leaves each byte old or
//! new. `BytewiseMemory` is such a disk in memory, over the disk in memory that records its calls.
//! `specs/Mix` defines what such a crash leaves, and `specs/Images` what it leaves after a list of calls.
#![tactic(auto)]

mod disk;
mod memory;

pub use disk::BytewiseDisk;
pub use memory::BytewiseMemory;
