//! Disks with crashes, and a record on a disk that is replaced atomically.
//!
//! The trait `Disk` describes a file by what a read returns, what a crash may leave now, and what a
//! crash may have left since an earlier moment. `MemDisk` is a disk in memory: it records its
//! calls, fails at a given list of them, and builds images of a crash. A `SlotFile` keeps one
//! record of at most 480 bytes. After a successful save a crash leaves the new record; a crash
//! during a save, or after a failed one, leaves the old record or the new one. `specs/Crash`
//! defines the disk, `specs/Slots` and `specs/SlotFiles` define the file, and `specs/Steps` defines
//! the recorded calls.
#![tactic(auto)]

mod buffer;
mod current;
mod disk;
mod error;
mod failing;
mod image;
mod memory;
mod reading;
mod slot;
mod slot_file;
mod step;
mod writing;

pub use disk::Disk;
pub use error::SlotError;
pub use failing::{Failing, Fate};
pub use image::Image;
pub use memory::MemDisk;
pub use slot::Slot;
pub use slot_file::{RECORD_LIMIT, SlotFile};
pub use step::{Room, Step};
