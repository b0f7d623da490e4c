//! The rules of a peer by its phase: probing, elections, following, and the change of the view.
//!
//! Probing: how a peer that misses a leader learns what the others have, before it asks for a
//! ballot.
//!
//! The peer asks the members of its fact's views for their facts. It keeps the newest fact and the
//! greatest count, also asks the members of newer views, and goes on once a quorum of the best
//! fact's views has answered. Each call is a rule of the protocol with its number in the name; its
//! contract is that the new state and the answer are the rule's row. The rows stand in
//! `specs/Probing`, and their laws in `specs/ProbeLaws`.
//!
//! Elections: how a peer asks for a ballot, how others promise it, and how the peer that has the
//! promises of a quorum starts its epoch and comes to lead it.
//!
//! Each call is a rule of the protocol with its number in the name; its contract is that the new
//! state and the answer are the rule's row. The rows stand in `specs/`: `Ballots` has the answers
//! of any peer to one that asks, `Preparing` and `Starting` the two states of an election, and
//! `Laws` the laws of the rows: a ballot only rises, an epoch starts only with the promises of a
//! quorum of its base, and a peer leads only what a quorum accepted.
//!
//! The rules of a peer that follows: its ticks, and its answers to a leader.
//!
//! Each call is a rule of the protocol with its number in the name, and returns exactly its row,
//! the definition of that number in `specs/`. `Follower` holds the state of the phase itself, the
//! ticks since the peer last heard from a leader. The other rules run in every phase, on the saved
//! fact, the message that came, and what the stores returned. `laws` states what the rows imply:
//! what they save never lowers a ballot, and a peer that does not trust its tree accepts no epoch
//! here.
//!
//! The rules by which a leader changes the view: the request, the change, and the end of the epoch.
//!
//! Each call is a rule of the protocol with its number in the name, and returns exactly its row,
//! the definition of that number in `specs/`. `Finishing` is the state of a leader that has begun a
//! change: which peers accepted the second fact of its epoch. In the next epoch the new view stands
//! beside the old one, so a change takes two epochs, each begun by a quorum of the epoch before.
#![tactic(auto)]

mod announcements;
mod ballots;
mod changes;
mod election;
mod election_laws;
mod error;
mod finishing;
mod follower;
mod following_laws;
mod preparing;
mod probe_laws;
mod probing;
mod puts;
mod refusals;
mod requests;
mod starting;
mod view_change_laws;

pub use announcements::{rule_16, rule_18, rule_19};
pub use ballots::{rule_11, rule_15};
pub use changes::{rule_24, rule_25};
pub use election::Election;
pub use election_laws::{
    a_ballot_only_rises, a_quorum_elects, a_quorum_lets_lead, the_base_is_the_newest_promised,
};
pub use error::PhaseError;
pub use finishing::Finishing;
pub use follower::Follower;
pub use following_laws::{
    ballots_never_fall, damage_ends_trust, distrust_waits, epochs_are_accepted,
};
pub use preparing::rule_10;
pub use probe_laws::{a_quorum_was_heard, the_best_is_the_newest_heard};
pub use probing::{Probing, rule_7, rule_8_probe};
pub use puts::rule_22;
pub use refusals::{is_served, tell_damage};
pub use requests::{rule_20, rule_21, rule_23};
pub use view_change_laws::{changes_keep_the_epoch, epochs_end_by_quorums};
