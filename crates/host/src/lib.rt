//! Adapters over the system: a disk over a file, a link over UDP, and a ticker over the clock.
//!
//! An adapter over the files of the system: a disk over a file. It tells nothing of content, lets a
//! crash leave anything, and counts each call that fails. Whatever stands over it is proved over the
//! trait alone.
//!
//! Adapters over the network of the system and its clock: a link over UDP on 127.0.0.1, and a ticker
//! over the monotonic clock. They tell nothing of what the system gives or takes, and count each call
//! that fails. Whatever stands over them is proved over the traits alone.
#![tactic(auto)]

mod clock_ticker;
mod file_disk;
mod mailbox;
mod ports;
mod room;
mod udp_link;

pub use clock_ticker::ClockTicker;
pub use file_disk::FileDisk;
pub use udp_link::UdpLink;
