//! One peer that serves over a link, on three disks, with a ticker: it looks for frames, takes steps on
//! those that are for it and on ticks, and sends what they put out.
//!
//! `specs/Serving` says what became of it, `specs/Turning` how far it came in its turns, and
//! `specs/DiskPeers` what its stores may answer and what they hold.
#![tactic(auto)]

mod commit;
mod disks;
mod error;
mod job;
mod server;
mod starting;
mod turns;

pub use disks::Disks;
pub use job::serve;
