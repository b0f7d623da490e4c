//! Worlds with calls refine the abstract protocol, with its objects and its book.
//!
//! A schedule has lines of every kind: calls, ticks, deliveries and losses, changes of the view, stops
//! and starts, damage of objects and of nodes, writes that fail, and trees that are reverted. The
//! premise is that of each view that the schedule names, the opening one and those that lines ask for,
//! more than half of the members are never reverted; and that no two different strings that were hashed
//! have the same MD5. Then the world after the schedule agrees with a run of the abstract protocol
//! (`specs/Worlds`): the stores of each peer name the map that it shows in the protocol, a running peer has
//! its role in the theory of leaders (`specs/Roles`), each message says what holds, and the book has the
//! notes of the leaders, the calls of the lines and the answers printed (`specs/Lines`). So its histories
//! are legal, in the sense of Herlihy and Wing (1990), and each answer printed has its cause in the notes
//! (`specs/Causes`).
//!
//! What one step of a peer is in the protocol stands in `step_refinement`. `proofs/StepsInWorlds` makes
//! it the step of a peer in a world, and `proofs/Agreement` and `proofs/Schedules` go through the lines
//! of a schedule; `proofs/ScheduleLaws` has the laws.
#![tactic(auto)]

mod laws;

pub use laws::{
    answers_have_causes, keys_are_called, schedules_have_legal_histories,
    schedules_refine_the_protocol,
};
