//! The job `replay`, and the laws that join it to the generator of schedules.
//!
//! The job `replay`: reads a schedule, runs it, and prints the answers and a history for each key.
//!
//! A schedule runs in a world with all its peers (world_model), unless it reverts half of a view
//! (schedule_input). The contract of `replay` says what is printed for each status (`specs/Jobs`):
//! what the run prints, and the histories that follow from the notes of its leaders (`specs/Text`).
//! These histories are legal for their keys by the definition of register_model. `replay_with` takes
//! the hasher of the run, and `replay` a book that finds two different strings with the same MD5.
//!
//! The laws that join the generator of schedules to the runs that complete every call.
//!
//! A schedule that is generated for fewer than 500 calls has no restart in it, so nothing disturbs it
//! (`IsUndisturbed` of `calm_laws`). Its run completes each of its calls, and the summary of the run
//! says so (`specs/Completed`).
#![tactic(auto)]

mod generated_laws;
mod job;
mod laws;
mod summary;
mod worlds;

pub use generated_laws::{
    short_generated_runs_complete_every_call, short_generated_schedules_are_undisturbed,
    undisturbed_runs_are_counted_as_done,
};
pub use job::{replay, replay_with};
pub use laws::{a_run_has_one_text, a_text_is_replayed};
pub use world_model::{World, WorldError};
pub use worlds::{clash_text, run_text, summarize};
