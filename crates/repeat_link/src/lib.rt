//! A link that sends again what was not acknowledged, and gives each frame once.
//!
//! It is a link over any link. A frame that is sent has a number of its own and waits until the receiver
//! acknowledges it; each datagram also tells the other direction which numbers came. What does not come is
//! sent again, later each time; what comes twice is dropped; a frame that is too long for a datagram goes in
//! parts. What waits is bounded in number, size and time, so a receiver that is down costs little.
//!
//! The modules `received`, `send_queue`, `round_trip` and `reassembly` are the protocol, over numbers and
//! times alone: `specs/` says what each call does. `channel` joins them for one other process, and
//! `repeat_link` puts a channel for each before the link below. Times are microseconds, of one clock.
#![tactic(auto)]

mod channel;
mod datagrams;
mod header;
mod host_time;
mod laws;
mod parts;
mod reassembly;
mod received;
mod repeat_link;
mod round_trip;
mod send_queue;
mod time_source;

pub use channel::Channel;
pub use header::Header;
pub use host_time::HostTime;
pub use laws::{
    a_header_is_read_as_written, each_number_is_of_one_frame, each_number_is_taken_once,
    what_went_never_waits_again,
};
pub use reassembly::Reassembly;
pub use received::Received;
pub use repeat_link::{CHANNELS, RepeatLink};
pub use round_trip::RoundTrip;
pub use send_queue::{Queued, SendQueue, Sending, Timeouts};
pub use time_source::TimeSource;
