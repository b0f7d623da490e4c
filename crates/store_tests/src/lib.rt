//! Tests of trees, backups, stores, disks, and of the link and the ticker of the system.
//!
//! Tests of the hash tree.
//!
//! They show the digests of two trees, taken with another program, and how their nodes begin; that a
//! build makes the tree of the inserts; that a root with other bytes is damage; how many questions an ask
//! takes; and that a build and a scan hash two halves at once, which no clause can say. What a tree finds,
//! and which nodes it reads and gives, are clauses.
//!
//! Tests of backups: their bytes, as another program wrote them, and what a backup and a restore leave.
//! What passes and what does not is a clause.
//!
//! Tests of sources, sinks and stores, of the hasher, and of the file of a fact, a file for each tested
//! crate or part of one.
//!
//! They show what no contract says: an MD5 and a clash from outside, the bytes of a slot and of a
//! saved fact on their disk, what one fault in the middle leaves, and each implementation once through
//! its trait. That exactly the listed calls fail, and what every crash leaves, are clauses. The tests use
//! public calls alone.
//!
//! Tests of logs and stores on disks, and of a disk over a real file.
//!
//! They show what no contract says: the bytes of a log, what it opens to at each cut of its last record
//! and at the crash images of an append, that each device call may fail once and nothing is lost, and a
//! file of the system that is written, closed, opened and read. What any other bytes open to, and what a
//! failed call leaves, are clauses.
//!
//! Tests of the link over UDP and of the ticker over the clock, on the system's own loopback and clock.
//!
//! They show what no contract says: that a frame reaches the port of its receiver as it was sent, and
//! that a tick is due once its time has passed.
#![tactic(auto)]

#[cfg(test)]
mod ask_tests;
#[cfg(test)]
mod backup_tests;
#[cfg(test)]
mod ens_hashing_tests;
#[cfg(test)]
mod ens_outside_links;
#[cfg(test)]
mod ens_outside_stores;
#[cfg(test)]
mod ens_outside_tests;
#[cfg(test)]
mod fact_store_tests;
#[cfg(test)]
mod file_tests;
#[cfg(test)]
mod gate_tests;
#[cfg(test)]
mod link_tests;
#[cfg(test)]
mod log_tests;
#[cfg(test)]
mod map_tests;
#[cfg(test)]
mod node_tests;
#[cfg(test)]
mod slot_disk_tests;
#[cfg(test)]
mod store_tests;
#[cfg(test)]
mod ticker_tests;
#[cfg(test)]
mod trees;
