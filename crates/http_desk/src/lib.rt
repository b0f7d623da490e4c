//! Connections of HTTP over sockets that never block: a listening socket, at most 512 connections, and
//! the requests that came. The answer to a request may come later than the next look.
#![tactic(auto)]

mod client;
mod desk;
mod patience;

pub use client::Ticket;
pub use desk::{Desk, MAX_CLIENTS};
pub use patience::Patience;
