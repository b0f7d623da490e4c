//! Tests of peers, of a peer that serves, and of the jobs that run several peers.
//!
//! Tests of one peer, of the network, and of the stores of a schedule, a file for each crate.
//!
//! They show that a peer can start, step, be suspended and start again on its stores, with the messages
//! of an election written down from the rules of the phases; that a start brings its tree to version two;
//! that messages are taken in the order of sending; and what a failed save leaves. Every answer of theirs
//! is a clause. The tests use public calls alone.
//!
//! Tests of a peer that serves, over a link, disks and a ticker in memory.
//!
//! Tests of a cluster, over a link in memory and over UDP.
//!
//! A test of the runs of worlds, over public calls alone.
//!
//! It shows what no clause can say: that a sync scans and builds trees by the calls that hash with
//! threads. What runs print is a clause, and the examples show it.
//!
//! Tests of the job `root`, on scripts and what they print.
#![tactic(auto)]

#[cfg(test)]
mod memory_tests;
#[cfg(test)]
mod network_tests;
#[cfg(test)]
mod peer_core_tests;
#[cfg(test)]
mod recorder;
#[cfg(test)]
mod root_tests;
#[cfg(test)]
mod serve_tests;
#[cfg(test)]
mod udp_tests;
#[cfg(test)]
mod world_model_tests;
#[cfg(test)]
mod world_stores_tests;
