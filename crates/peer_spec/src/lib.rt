//! What a step of a peer is as a plan, apart from the code that follows it, and the laws of these
//! plans.
//!
//! A step applies the row of its event. A rule that a row names runs next, before the tasks that were
//! left; once no task is left, rule 26 runs, by which a leader may end its epoch. `specs/Drives`
//! defines this plan (`step_of`), and `specs/Starts` how a peer starts. What a rule asks of the peer's
//! own tree and backend stands in `specs/Owns`, and how a sync goes on in `specs/Syncs`;
//! `specs/TreeCalls` says what each call of the tree may be answered.
//!
//! `specs/Kept` says what all steps keep to, and `specs/Turns` why no task is left at the end of a
//! step. `messages_may_go` and `nothing_is_left` state these laws. The other functions are what the
//! code of a step decides from values alone.
#![tactic(auto)]

mod asked;
mod laws;
mod objects;
mod opening;
mod shown;

pub use asked::{give_of, has_position, needs_node, own_key, question_of};
pub use laws::{messages_may_go, nothing_is_left};
pub use objects::{bytes_of, object_of};
pub use opening::{first_state, is_whole};
pub use shown::{after_put, body_given, reached_node, seen_at};
pub use tree_repair::{NoGate, rebuild, scan};
