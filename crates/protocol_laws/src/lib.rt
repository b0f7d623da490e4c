//! The abstract protocol, and the laws that hold in each of its runs, up to the theorem that histories are legal.
//!
//! The abstract protocol of the ensemble: its state, its seventeen steps, and the guards of the
//! steps.
//!
//! A run is a list of steps from the opening state, each with its guard met. A program that is
//! shown to take such steps inherits what this crate proves of every run. Views may be joint, trees may be lost, reverted and synced,
//! and events are numbered. The definitions stand in `specs/`: `Ledger` (elections), `Objects`
//! (versions and maps), `Book` (calls, notes and answers) and `Protocol` (steps and runs).
//!
//! The laws of elections, which hold in each run of the abstract protocol.
//!
//! An epoch is elected at most once. Its base is at least each lower epoch that a quorum accepted
//! or still may accept. Its views share a view with those of the last such epoch, whatever changes
//! of views lie between, and even if it is elected late, below a greater one. The definitions stand
//! in `specs/Elections`.
//!
//! A ballot is prepared only by its proposer, and at most once. The abstract protocol has no step
//! for preparing; `specs/Preparing` defines which of its steps prepare a ballot.
//!
//! The laws of versions and maps, which hold in each run of the abstract protocol.
//!
//! A version that a quorum acknowledged, or still may acknowledge, is kept by those who
//! acknowledged it, is found by each quorum that is read at a later epoch and by each sync, and is
//! an ancestor of each later version of its key. Maps hold proposed versions. A peer that trusts
//! its tree shows the map that it wrote last. The definitions stand in `specs/Versions`.
//!
//! The laws of calls, writes, reads and answers, which hold in each run of the abstract protocol.
//!
//! Each write is the outcome of its command on its parent's register. Each noted read saw the
//! greatest version of its epoch, which is settled, or nothing, in which case each version of a
//! lower epoch is dead. Each completed answer comes from a settled write or a noted read, and a
//! refused call has neither. What a state says of versions and calls stays so in each later one.
//! The definitions stand in `specs/Entries` and `specs/Stays`.
//!
//! The conclusion of the safety argument: in each run of the abstract protocol, for each key, the
//! order that follows from the leaders' notes is a legal history of its calls and answers.
//!
//! A legal history is that of Herlihy and Wing (1990), as `register_model` defines it together with
//! the order of the notes. `docs/safety.md` presents the argument.
#![tactic(auto)]

mod ballots;
mod book;
mod elections;
mod histories;
mod numbers;
mod syncs;
mod versions;

pub use ballots::ballots_are_prepared_once;
pub use book::{entries_are_safe, entries_stay};
pub use elections::{
    elections_are_safe, elections_stay, lists_share_a_view, two_leaders_of_an_epoch_are_one,
};
pub use histories::histories_are_legal;
pub use numbers::numbers_tell;
pub use syncs::syncs_may_end;
pub use versions::{versions_are_safe, versions_stay};
