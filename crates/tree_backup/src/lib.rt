//! Backups of a peer's tree and of the objects that its entries name, as bytes.
//!
//! [`backup`] returns the entries of a scan, each with the object that the backend has, if that matches
//! the entry. [`check`] returns the [`Content`] of such bytes, or says why they are none. [`restore`]
//! makes the map of a content the map of a tree of version two, and stores its objects in a backend.
//!
//! `specs/Items.antt` says how a backup is spelled, `specs/Readings.antt` what is read from bytes, down
//! to the first fault, `specs/Checks.antt` what passes and what does not, and `specs/Runs.antt` what a
//! backup and a restore did with the stores and the hasher.
#![tactic(auto)]

mod backing;
mod checking;
mod error;
mod fetching;
mod hashing;
mod item;
mod matching;
mod objects;
mod order;
mod putting;
mod reading;
mod restoring;
mod writing;

pub use backing::backup;
pub use checking::check;
pub use error::BackupError;
pub use item::{Backup, Content, Item};
pub use restoring::restore;
