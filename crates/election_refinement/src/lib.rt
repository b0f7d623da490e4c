//! Worlds refine the abstract protocol: the run of every schedule is simulated by a run of the
//! abstract protocol, so the laws of elections hold of the world.
//!
//! `specs/Refinement` relates a fact, a phase, a peer and a message to the ledger of the abstract
//! protocol. `specs/Worlds` says when a world refines a run of the abstract protocol; each event of
//! a schedule extends that run by some steps. It also states what the laws of elections mean for
//! the facts that peers keep and for peers that lead.
//!
//! Peers stop and start, a write may fail with its effect or without it, trees and backends may lie,
//! peers sync, and leaders take calls and change the views. Of changes this is shown: the leader of an
//! epoch changes its views at most once, and each fact tells the views and the change of the ledger.
//! Of syncs: a sync runs only at the ballot that its peer promised, and at its end the peer accepts
//! the epoch of that ballot, whatever the tree became; the abstract protocol installs some map that
//! its guards allow (`proofs/Joining`). Of calls: a leader that serves them leads the same epoch until
//! it steps down. The messages of syncs and of calls assert nothing about elections, and the run of
//! the abstract protocol has no steps of calls.
//!
//! The proof looks at each rule by its row alone. `proofs/Rows` says what a row of a phase has to
//! show, and `proofs/Rules` lists these rows; `proofs/Calls` has the rows of a leader's calls, and
//! `proofs/Requests` those of a peer that is asked; `proofs/Changes` has those of a change of views,
//! and `proofs/Syncing` the end of a sync. `proofs/Loops` takes them all through a step, and
//! `proofs/Worlds` takes steps through the lines of a schedule.
//!
//! A crate that follows the whole state of the abstract protocol takes the rows of a phase from three
//! further files: `proofs/Whole` has the steps that a peer takes on a row, and `proofs/Parts` has what
//! the row does to the peer's part in leading: whether it begins an epoch, leads it, or neither.
//! `proofs/Listed` shows that each row keeps the views of a peer among those that may vote, and its
//! counts to 64 bits, and that only a peer that trusts its tree leads; `specs/Listed` says what peers
//! and messages are then like.
#![tactic(auto)]

mod laws;

pub use laws::{
    ballots_rise, epochs_have_one_leader, facts_agree, facts_are_complete, lists_share_a_view,
    peers_run, worlds_refine_the_protocol,
};
