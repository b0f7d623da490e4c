//! The turns of a peer that serves: which events its frames are, what its steps send, and how the frames go out.
//!
//! What all ends of a step of a peer have in common, whatever the stores answer: to whom answers go,
//! and that the state has the fact that was saved last.
//!
//! `specs/Ends` defines both, over the plan of a step (`step_of` of `peer_spec`).
//!
//! What one peer does that serves over a link: its turns, the frames that it takes, the steps that it
//! takes on them, and the frames that it sends. There is no code that runs.
//!
//! `specs/Turns` says which events the turns of a peer are, and `specs/Deeds` what a run of steps is
//! and what it sends. `specs/Going` puts both together with what a link tells of itself.
//!
//! The frames of a peer that serves: the event that a frame is to it.
//!
//! `specs/Turns` of `peer_turns` says which frames a peer takes.
//!
//! How a peer that serves sends what a step put out: its messages in their order, and then its answers,
//! each as one frame to the number that the frame names as its receiver.
//!
//! `specs/Sending` says what became of the frames, and `specs/Deeds` of `peer_turns` which they are.
#![tactic(auto)]

mod sending;
mod spec_laws;
mod taking;
mod turn_laws;

pub use sending::send_out;
pub use spec_laws::{taken_frames_may_come, turns_add_up};
pub use taking::event_of;
pub use turn_laws::{answers_go_to_callers, the_saved_fact_stands};
