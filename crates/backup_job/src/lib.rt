//! The jobs on backups: what they read, what they do with the disks of nodes and objects, and what they
//! print. No job is passed the disk of facts.
//!
//! [`print_check`] reads a backup from the input and says what it holds, or why it does not pass.
//! [`print_backup`] writes the backup of what two disks hold. [`restore_disks`] reads a backup, and writes
//! what it holds to the disks.
//!
//! `specs/Printed.antt` says what is printed for each status, `specs/Disks.antt` what disks hold before and
//! after a job, `specs/Backed.antt` which bytes are the backup of two disks, and `specs/Restored.antt` what
//! disks hold after a restore.
#![tactic(auto)]

mod backing;
mod checking;
mod disks;
mod ending;
mod input;
mod opening;
mod restoring;

pub use backing::print_backup;
pub use checking::print_check;
pub use disks::Pair;
pub use restoring::restore_disks;
