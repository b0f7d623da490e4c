//! Runs a root ensemble, and the ensembles that are opened through it, by the lines of a script.
//!
//! The root opens at once, and a slot in the event in which the root first says with which view it is open.
//! Each ensemble has a world of its own (world_model), with the same number of peers, and all worlds share one
//! hasher. What the run of a script is stands in `root_laws`; the form of the ensembles is in `specs/Worlds`.
//! `run_root` returns the text of the run and the slots that opened, and `root` is the job that reads a script
//! and writes that text. `specs/Standing` says how the worlds in memory stand for the run.
#![tactic(auto)]

mod histories;
mod job;
mod opening;
mod routing;
mod run;
mod text;
mod worlds;

pub use job::{root, root_with};
pub use replay::{replay, summarize};
pub use run::{RootRun, run_root};
