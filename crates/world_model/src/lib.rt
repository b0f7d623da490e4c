//! Several peers over stores in memory, run by the lines of a schedule.
//!
//! A `World` opens with all peers started on empty stores, and `apply` applies one line of a
//! schedule. Its state is the run of the lines applied so far, which world_spec defines as a pure
//! function; `specs/Worlds` maps a `World` to this state. A world keeps the set of the peers whose
//! starts have sealing on: all or none by the form, and those that a line `upgrade` names. It keeps the
//! version of the trees of the peers that start, and the number of the first message that is still given
//! to its receiver; a line `deepen` changes both. Messages are numbered in the order of sending and never
//! removed. The notes of leaders go to a scribe, which derives the histories, one
//! for each key that a call line names.
//!
//! A running peer steps in place, over its stores. A line that changes the stores of a peer takes a
//! running peer apart, and then lets it go on over the changed stores.
#![tactic(auto)]

mod applying;
mod changing;
mod delivering;
mod error;
mod hashing;
mod laws;
mod node;
mod opening;
mod peer;
mod posting;
mod reporting;
mod running;
mod spoiling;
mod stepping;
mod store_faults;
mod taking;
mod watching;
mod world;

pub use applying::{all_peers, set_of_members};
pub use error::WorldError;
pub use laws::lines_are_their_turns;
pub use watching::Activity;
pub use world::World;
