//! The words of a schedule: numbers, peers, keys, values, versions and lists of members.
//!
//! Each call returns the value that a word spells, or the cause for which the word is rejected. How
//! values are spelled is in `specs/Spelling.antt`, and what reading gives in `specs/Words.antt`.
#![tactic(auto)]

mod cause;
mod digits;
mod lists;
mod numbers;
mod splits;
mod versions;

pub use cause::{Cause, WordError};
pub use digits::{content, key, value};
pub use lists::{members, view};
pub use numbers::{number, peer};
pub use splits::{line_words, parts};
pub use versions::version;
