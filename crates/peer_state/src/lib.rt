//! The state of one peer, and what each rule does to it.
//!
//! A rule is a row: from the state before, it gives the state after, what to save and send, and the
//! rule that runs next. Each row stands in `specs/Rows`, and a tick of a leader in `specs/Leading`;
//! the methods of `State`, `Phase` and `Leadership` promise exactly these. `specs/Moves` says how the
//! phase and the trust change, and which calls are answered when leading ends; `specs/Ages` how long
//! a peer waits; `specs/NoAllocation` which messages are answered without heap memory. Nothing here
//! asks a store: what a rule needs of the tree or the backend is passed to it.
#![tactic(auto)]

mod event;
mod leadership;
mod rules;
mod state;
mod syncs;

pub use event::{CallIn, Event};
pub use phase_rules::tell_damage;
pub use state::{ChangeState, Leadership, Mode, Phase, State};
pub use syncs::{resume_sync, start_sync, sync_outcome, take_give};
pub use tree_sync::{AskError, Give, Question, given, is_clean};
