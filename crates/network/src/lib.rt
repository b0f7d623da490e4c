//! The messages sent between the peers of a simulation, by their numbers and by the bytes of their frames.
//!
//! The messages sent between the peers of a simulation.
//!
//! A `Network` keeps every message in the order of sending, and for each whether it still waits: a
//! message waits until it is delivered or lost. It finds the oldest message waiting from one peer
//! to another, or among a set of peers, without a walk over all messages. Contracts see a network
//! as two lists (`specs/Mail`). `specs/Lines` and `specs/Representation` say how the numbers of the
//! waiting messages are stored.
//!
//! The messages that wait, found by the bytes of their frames.
//!
//! Whoever receives a frame and knows which messages were sent asks which of them it is. A `FrameIndex` keeps
//! a queue of numbers for the bytes of each frame, and contracts see it as a function from bytes to such
//! queues (`specs/Indexes`). If every message is pushed as it is sent, and taken as it is received, the prefix
//! of a queue is the oldest message that waits with these bytes: `laws.rt` says so of the messages of
//! `network`.
#![tactic(auto)]

mod error;
mod index;
mod index_laws;
mod laws;
mod lines;
mod network;
mod queue;

pub use error::SendError;
pub use index::FrameIndex;
pub use index_laws::an_index_follows_the_mail;
pub use laws::{the_lost_are_gone, the_oldest_comes_first, the_oldest_grows_younger};
pub use network::Network;
