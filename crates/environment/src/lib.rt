//! The outside of a peer, as traits with contracts: sources and sinks of bytes, the stores of a
//! peer, the network and the clock.
//!
//! Each trait describes its content as far as an implementation can know it, and counts its faults:
//! the count never falls, and a call returns `Failed` only if the count rose in that call. A
//! backend and a node store state by two relations what a call may return and what a refused call
//! may leave behind, so a store that lies is an implementation too. The layers above are proved
//! over these traits alone. This crate also has implementations in memory, which fail at a given
//! list of calls and nowhere else, and thin adapters over std's readers and writers. The
//! definitions stand in `specs/`; the meaning of a fault count stands in `specs/Causes` of
//! ens_base.
#![tactic(auto)]

mod backend;
mod ending;
mod errors;
mod laws;
mod lines;
mod link;
mod memory;
mod node_store;
mod sink;
mod source;
mod stdio;
mod ticker;

pub use backend::Backend;
pub use ending::finish;
pub use errors::{LinkError, StoreError};
pub use laws::{exactly_the_listed_fail, frames_come_in_order, what_was_put_is_found};
pub use lines::{Lines, Next, NextError};
pub use link::Link;
pub use memory::{
    FailingCall, Leaves, MemBackend, MemLink, MemNodes, MemQueue, MemSink, MemSource, MemTicker,
};
pub use node_store::NodeStore;
pub use sink::{Sink, write_all};
pub use source::Source;
pub use stdio::{ReaderSource, WriterSink};
pub use ticker::Ticker;
