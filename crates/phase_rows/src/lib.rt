//! The vocabulary in which the rules of the phases are written.
//!
//! A rule is a pure function. Its arguments are the state of its phase, the saved fact and the
//! event that came; its result says whether a leader steps down, what to save, which message to
//! send to whom, and what to run next. Its contract is that the result is the rule's row, a
//! definition in the specs of the rule's crate. This crate has what all rows share: the rules that a
//! row can name ([`PhaseRule`], [`KeyRule`]); the types of what a rule returns and of what the stores
//! return to it ([`PhaseOut`], [`Then`], [`Seen`]); and the sets of peers, the tests and the answers from which rows are built, as definitions in
//! `specs/` and as functions that compute exactly these.
#![tactic(auto)]

mod answers;
mod laws;
mod orders;
mod peers;
mod phase;
mod rules;

pub use answers::{
    anew_at_6, at_ballot, leave_leading, refuse, refuse_below, save, save_and_send, send, silent,
};
pub use laws::tests_are_the_orders;
pub use orders::{is_below, is_newer, is_same, may_accept};
pub use peers::{alone, are_quorum, joined, others_of, others_outside, with_members};
pub use phase::{PhaseOut, Seen, Then};
pub use quorums::{is_member, members};
pub use rules::{KeyRule, PhaseRule};
pub use wire_frames::{
    BoxedObject, Change, Fact, FactError, Message, NackCause, Position, SavedFact, Scan,
    TreeVersion,
};
