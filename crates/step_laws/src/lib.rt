//! Laws of the rules of a leader, and of the steps of a peer.
//!
//! Laws of the rules of a leader, in the rules' own words.
//!
//! The rows of `leader` follow its code step by step. The laws of this crate say of them what the
//! rules are for: that a round which reaches a quorum ends, and in what; what the replies of a round
//! of reading come to, from the replies alone; how a call is refused, waits or starts; which notes
//! come with which reply; what a tick sends to whom; and what holds of a leader's table between rules.
//! Each law is a function with an empty body. Its contract is the law, over every leader and every
//! reply, and it speaks of plain lists and sets. So a row and its code that were changed together
//! would break one of them.
//!
//! What holds of the steps of a peer, whatever its stores answer: how many calls it may have unanswered
//! between them, that it is at rest there with its table whole, and so why the loops of its next step have
//! turns enough; which requests to change the view it takes; which calls a step answers, and how; what a tick
//! of a leader does besides; and that a step on a Prepare, a Check or a Beat calls the store of the fact alone.
//!
//! The loops over the tasks of a step have a limit. No task is left there if few calls are unanswered
//! (`nothing_is_left` of `peer_spec`). A peer starts without calls, each call adds one, and no other
//! event adds any. So before 2^60 calls have come to a peer, no task is ever left. `specs/Reached`
//! defines the states that a peer may reach from a start, whatever its stores answer.
#![tactic(auto)]

mod answers;
mod apart;
mod changes;
mod laws;
mod promises;
mod quorum_ends;
mod starting;
mod telling;
mod ticks;
mod wholeness;

pub use answers::{
    calls_without_a_leader_are_unavailable, leaders_answer_by_their_rules,
    leaders_that_stop_answer_timeout, no_call_is_dropped,
};
pub use apart::keys_stay_apart;
pub use changes::changes_are_taken_exactly;
pub use laws::{
    no_task_is_left, peers_rest_between_steps, tables_are_whole_between_steps,
    unanswered_calls_came,
};
pub use promises::{promises_blame_the_fact, promises_save_alone};
pub use quorum_ends::{
    a_quorum_ends_a_check, a_quorum_ends_a_read, a_quorum_settles_a_put, replies_are_gathered,
    rounds_end_in_the_command,
};
pub use starting::{calls_are_refused_or_wait, calls_start_by_what_is_settled};
pub use telling::a_tick_tells_each_member;
pub use ticks::{
    a_tick_reminds_and_begins_the_change, a_tick_without_calls_reminds, old_views_are_dropped,
};
pub use wholeness::{replies_come_with_their_notes, tables_stay_whole};
