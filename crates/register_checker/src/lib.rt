//! The test whether an order of calls is a run of one register.
//!
//! `is_run` decides exactly `IsRun` of `register_model`, and `first_astray` finds the call at which an
//! order stops being a run (`specs/Prefixes`). Both walk the order once and keep a list
//! of what the register may hold. A write without a printed reply has a stamp that nothing has
//! shown yet. Such a stamp is kept as unknown, together with the stamps that it cannot be, until a
//! reply shows it. `specs/Guesses` defines the list and its steps, `specs/Meanings` their meaning,
//! and `docs/runs.md` says how long the list can grow.
#![tactic(auto)]

mod error;
mod guess;
mod places;
mod run;
mod stamps;
mod steps;
mod walk;

pub use error::RunError;
pub use places::{Places, answer_of, are_distinct, call_of, places_of_answers, places_of_calls};
pub use run::{first_astray, is_run};
