//! A peer that leads: how it serves calls, counts the replies of the members, and ticks.
//!
//! Each rule is a pure call on the leader. Its contract is one equation: the leader afterwards and
//! the answer are the rule's row, a definition in `specs/`. A rule that needs the peer's own tree or
//! backend asks for it in `own`, and runs again with what they returned. A rule passes work on to
//! the next rule of the same key as `Pending`, in the leader's task.
//!
//! A call fails only when out of memory. The leader's contents are then unspecified.
#![tactic(auto)]

mod leader;
mod pending;
mod puts;
mod rounds;
mod rules;
mod starts;
mod ticks;

pub use leader::Leader;
pub use leader_output::{LeadError, LeadOut, Outgoing};
pub use pending::Pending;
