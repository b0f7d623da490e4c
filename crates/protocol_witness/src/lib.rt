//! A run that shows that no premise of the laws is empty.
//!
//! It is a list of steps of the abstract protocol that elect, write, read, sync, rewrite, bring a
//! dead version back, and change the view to a new peer and back. `specs/Shown` says what the run
//! must show.
#![tactic(auto)]

mod witness;

pub use witness::{each_guard_matters, guards_can_be_met};
