//! A generator of long schedules: from a number, so many calls at five peers, with a restart of a
//! damaged peer in front of each 500th call.
//!
//! [`generate`] returns the schedule of `specs/Generated`, whose numbers are drawn as `specs/Drawing`
//! says. The laws of `laws.rt` say what holds of each such schedule.
#![tactic(auto)]

mod draws;
mod generator;
mod laws;

pub use generator::generate;
pub use laws::generated_schedules;
