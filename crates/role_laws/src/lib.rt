//! What leaders, syncs and seals say of the abstract protocol.
//!
//! What the table of a leader says of the abstract protocol, and that each of its moves keeps it.
//!
//! A table has a row for each key: what the leader knows of the key, the stage of its running call,
//! and the calls that wait. Steps of others keep what it says (`LeaderHolds`) and what the messages
//! of calls say. Each move of a leader meets the guards of its steps. The definitions stand in
//! `specs/Tables`, `specs/Leaders`, `specs/LeaderMessages` and `specs/Moves`, the laws in `specs/LeaderLaws`, all
//! leaders at once in `specs/Roles`, and two rules as functions in `specs/Rows`. `leader_refinement`
//! and `world_refinement` apply them to the leaders of the program.
//!
//! What a running sync says of the abstract protocol.
//!
//! A sync merges what its sources send of their trees. `specs/Syncs` says what is known of each ask
//! and of the merged map (`SyncHolds`), and `proofs/Coverage` that the sources of a sync whose end is
//! due cover the floors of a majority, if of each view that may vote more than half of the members are
//! never reverted (`AreFirm`, `specs/Facts`). `peer_refinement` applies it to the syncs of the program.
//! This crate has definitions and lemmas, and no code.
//!
//! Peers that keep a seal: the digest of their tree's top record, in their saved fact.
//!
//! The map that such a peer wrote last is the one under its seal, whatever its top record is. So the
//! save of the fact is the step of the protocol: a put whose fact was not saved never happened, and a
//! tree that is put back is damage, and no step. In an ensemble whose peers all have a seal no step
//! reverts a tree, so the members of a full view are sources without a premise on reverted trees. A
//! peer without a seal takes the steps that it always took, and gets its seal at the end of a sync.
#![tactic(auto)]

mod laws;
mod leaders;

pub use laws::{full_views_suffice, sealed_peers_refine};
pub use leaders::{
    leaders_move, moves_can_be_met, replies_move, roles_move, rows_move, tables_are_lists,
    tables_stay,
};
