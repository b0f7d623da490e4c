//! Tests of the rules of the phases, of syncs, and of leaders.
//!
//! Tests of the rules of the phases, a file for each crate of rules.
//!
//! They show that the row of each rule is its sentence: each rule once where it does its work, and at
//! the edge where it does not, as at a ballot that is equal, at a majority of the union of two views,
//! or at the last tick of an age. The answers are written down from the text of the rules. That the
//! code follows the rows is proved, so no rule has a table of all its cases. The tests use public calls
//! alone.
//!
//! Tests of syncs that run, over public calls alone.
//!
//! They show a sync from its first question to the merged entries, and one whose source drops out and is
//! asked again. Which sources suffice, what the merge has and which answers count are clauses.
//!
//! Peer 1 syncs with peers 2 and 3. The MD5 of the key `abc` begins with the nibbles 9, 0 and 0
//! (RFC 1321), so that its entry stands in the segment of this index.
//!
//! Tests of the leader's crates, over public calls alone.
//!
//! They show two stories of a leader from call to answer, step by step, as the rules tell them, and
//! that each call of the crates below can be called: a round and a tally, the table of calls, the
//! objects that a backend keeps, and the commands that are decided without a value. What each of them
//! answers is a clause, and the program `command_table` shows each command on each register.
#![tactic(auto)]

#[cfg(test)]
mod commands;
#[cfg(test)]
mod election_tests;
#[cfg(test)]
mod following_tests;
#[cfg(test)]
mod kept;
#[cfg(test)]
mod leaders;
#[cfg(test)]
mod phase_builders;
#[cfg(test)]
mod phase_rows_tests;
#[cfg(test)]
mod probe_tests;
#[cfg(test)]
mod rounds;
#[cfg(test)]
mod sync_builders;
#[cfg(test)]
mod sync_tests;
#[cfg(test)]
mod table;
#[cfg(test)]
mod view_change_tests;
