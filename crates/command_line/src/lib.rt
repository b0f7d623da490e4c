//! The command line of the programs: the words that ask for each job.
//!
//! [`read_words`] returns the job that the words ask for. Its contract says in both directions that
//! the words are refused exactly if they ask for none (`specs/Forms`). `clap` splits the words into
//! a verb and the words behind it.
#![tactic(auto)]

mod command;
mod job;
mod reading;

pub use ens_base::{ClusterWords, PeerWords};
pub use job::{Job, WordsError};
pub use reading::read_words;
