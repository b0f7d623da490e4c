//! Quorums of one view or of two, and the rounds of a leader that count replies up to one.
//!
//! Majorities of one view, and quorums of the one or two views of an epoch.
//!
//! A set of peers is a quorum of a list of views if it has more than half of the members of each
//! view. `Tally` counts votes by that definition. Every argument about the protocol rests on two
//! laws: two quorums of lists that share a view have a peer in common, and a set is not a quorum
//! exactly if every quorum has a member outside it. The definitions stand in `specs/Quorums`.
//!
//! The rounds of a leader: which members have answered, and whether they are enough.
//!
//! A round is `Open` until a quorum has answered, `AllAnswered` once every member of every view
//! has, and `Met` in between. A quorum is defined in `quorums`, also for the laws of the
//! protocol. The definitions are in `specs/Rounds`.
#![tactic(auto)]

mod laws;
mod round;
mod tally;

pub use laws::{no_quorum_is_missed, quorums_meet, tests_decide};
pub use round::{Round, RoundState};
pub use tally::{Tally, is_in, is_member, members};
