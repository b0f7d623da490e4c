//! The code that follows the plan of a step, over any stores.
//!
//! `peer_spec` has what a step and a start are as plans. `Machine::step` promises a run of the plan
//! of a step over what the stores returned, and `start` one of the plan of a start: to its end, or
//! to the point where an error stopped it. Out of memory may stop a run anywhere, and leaves the
//! stores and the notes as they are at that point.
//!
//! A rule of a leader that needs the peer's own tree or backend asks for it in its row. The tree
//! and the backend are read or written, and the rule runs again with what they returned. When
//! leading ends, by whatever rule, each unanswered call is answered `timeout`, in order of arrival.
//!
//! The stores are a parameter, `Store` of `step_plans`: no proof here knows what they answer.
//! `specs/Outcomes` says what a call did to the state, the stores and the outbox of a step.
#![tactic(auto)]

mod leads;
mod machine;
mod owns;
mod starting;
mod stepping;
mod syncing;

pub use machine::Machine;
pub use starting::start;
