//! What one step of a peer is in the abstract protocol.
//!
//! A step begins where the peer agrees with a run of the abstract protocol: its fact, its phase and its
//! sync (`election_refinement`, `peer_refinement`), its table as the role of a leader
//! (`leader_refinement`), its tree as a map (`peer_refinement`), and what was said in messages
//! (`specs/Peers`, `specs/Roles`). The run goes on beside the step, call by call. At the end the peer
//! agrees with it, and what it sends and answers holds there; or a store has refused, and the peer is
//! down, with stores that agree (`specs/Scenes`, `specs/Steps`). `world_refinement` makes runs of it.
//!
//! `proofs/CallByCall` says when a plan ends so. Rows of phases (`PhaseRows`), rules of a leader
//! (`LeaderPlans`, `KeyTasks`), requests (`Requests`) and syncs (`SyncSteps`, `SyncMessages`) are
//! followed there, `proofs/WholeSteps` joins them to a step, and `proofs/AllEvents` has every event.
#![tactic(auto)]

mod laws;

pub use laws::steps_refine_the_protocol;
