//! Peers that run as processes of their own: what `serve` promises of each, and the theorem on all of them.
//!
//! What `serve` of `peer_server` promises is the life of a process. There is no code that runs.
//!
//! `specs/ServedLives` says what such a life is, over any stores and any link: a start, steps that came to
//! their ends with all that they put out sent, and a cut. `specs/Served` says it of a peer on disks.
//!
//! Peers that run as processes of their own: what happens to a group of them, and what is assumed of it.
//! There is no code that runs.
//!
//! A process of a peer starts on the disks of its peer, takes steps, between which nodes and objects may
//! be changed or lost, and is cut off; later another one starts on these disks. `specs/Moments` has the moments of such lives, of several peers in any order,
//! and the world after them. `specs/Premises` has each premise by a name of its own: a first process that
//! finds no fact, one process of a peer at a time, facts that survive, messages that were sent before they
//! come, calls with ids of their own, and no two strings with one MD5. `specs/GroupWitness` has a peer that meets
//! them, and groups that break one. A peer may be asked for another view of the ensemble at any step.
//!
//! A group of peers that run as processes of their own is one run of the abstract protocol, and its
//! histories are legal. There is no code that runs.
//!
//! `process_laws` says what a group is and what is assumed of it. Here its moments are carried along a
//! run, as the lines of a schedule are in `world_refinement`: a step is the step of a peer, a process
//! that is cut off stops, and one that starts on its disks is a peer that was down, over any nodes and
//! objects and under its seal.
//!
//! Over disks that tell their bytes the steps and the start of a peer are what they are over stores in
//! memory. There is no code that runs.
//!
//! `specs/Memory` says which stores in memory a peer's stores on disks stand for. Its law goes call by
//! call: what the disks may answer is what the maps in memory answer.
//!
//! Processes of peers that serve, each with lives of its own on its disks, are one group: what their steps
//! put out is a run of the abstract protocol, and the histories of their calls are legal. There is no code
//! that runs.
//!
//! `specs/Acts` has what the processes do, in one order, and what their steps put out. `specs/Lives` says
//! what a life is, from the stores that a process opened to those that it left. `specs/Joined` has the
//! premises by name, and what follows from them, and `specs/Clients` what clients see of it. `specs/JoinedServed`
//! ties the lives to what `serve` promises, `specs/Processes` joins any number of processes of several peers,
//! and `specs/Alone` says of a peer that served alone that it meets the premises. `specs/ProcessWitness` has two
//! lives that meet them, and executions that break one, and `specs/Story` two peers that complete calls.
#![tactic(auto)]

mod disk_laws;
mod group_laws;
mod life_laws;
mod refinement_laws;
mod served_laws;

pub use disk_laws::disks_run_as_maps;
pub use group_laws::{
    a_lone_peer_may_serve_twice, a_lone_process_may_live_twice, premises_can_be_broken,
    processes_are_linearizable, processes_are_one_group, processes_refine_the_protocol,
    served_lives_may_be_joined, served_peers_may_be_joined, two_peers_may_complete_calls,
};
pub use life_laws::{
    a_group_may_complete_calls, a_lone_peer_may_live_twice, fewer_moments_have_few_calls,
    group_premises_can_be_broken,
};
pub use refinement_laws::{groups_have_legal_histories, groups_refine_the_protocol};
pub use served_laws::served_peers_lived;
