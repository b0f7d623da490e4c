//! The answer of a rule of a leader, and the calls that build one.
//!
//! A rule of a leader is a pure call, like the rules of the phases. Its answer says whether the
//! leader steps down, which messages go to which peers, which calls are answered, what is noted,
//! what is asked of the peer's own tree and backend, and which rule runs next, on which keys.
#![tactic(auto)]

mod error;
mod out;

pub use error::LeadError;
pub use object_commands::{Note, Object, Verdict, apply, on_absent, on_any, on_stamp};
pub use out::{AnswerOut, LeadOut, Outgoing, Own, is_other_of};
pub use phase_rows::Message;
pub use quorums::members;
