//! Tests of the formats, of the language of schedules, and of histories.
//!
//! Tests of the formats and of the types below them, a file for each crate.
//!
//! They show that what is written has the bytes of the documents: an object, a fact, nodes, a
//! position and two frames. The program `format_table` shows what is read, and the causes of what is
//! not. That what is written is read again, and every other answer, is a clause.
//!
//! Tests of the language of schedules, a file for each tested crate.
//!
//! They show that each form of a line is read, copied and written back, that a reading goes on behind a
//! line that it refused, the text of an error, and the words of a line at their limits. The causes of bad
//! lines are shown by `checks/programs`, on the built program. The tests use public calls alone.
//!
//! Tests of histories and of the check of runs, a file for each tested crate.
//!
//! They show what a history means at orders from outside: where a read stands, which write counts, and
//! what an update tells of a stamp that no reply told. The tests use public calls alone.
#![tactic(auto)]

#[cfg(test)]
mod ens_base_tests;
#[cfg(test)]
mod ens_object_tests;
#[cfg(test)]
mod history_scribe_tests;
#[cfg(test)]
mod peer_fact_tests;
#[cfg(test)]
mod register_runs_tests;
#[cfg(test)]
mod schedule_text_tests;
#[cfg(test)]
mod schedule_words_tests;
#[cfg(test)]
mod tree_node_tests;
#[cfg(test)]
mod wire_frames_tests;
