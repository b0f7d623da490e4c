//! Steps of a peer as plans, and what code that follows a plan promises. There is no rule here.
//!
//! A plan says which calls of the stores a step makes, what it notes, how it goes on after each
//! answer, and what it puts out at its end. `specs/Calls` lists the calls of the stores.
//! `specs/Plans` defines plans, their runs, and the parts of a plan. `specs/Steps` says what a
//! whole step promises. Two relations are all that is known of the stores and the hasher: how a
//! call may be answered, and how it may be refused. `Tasks` holds the rules that a step still has
//! to run, and `Outbox` what a step puts out.
#![tactic(auto)]

mod error;
mod outbox;
mod store;
mod tasks;
mod walked;

pub use error::PeerError;
pub use leader_output::{AnswerOut, Outgoing};
pub use outbox::{Mark, Outbox};
pub use store::Store;
pub use tasks::{Task, Tasks};
pub use walked::Walked;
