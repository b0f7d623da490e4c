//! The exchange of a map between two peers, node by node.
//!
//! A [`Question`] asks for the node at a position, or for what is left of a segment beyond a key.
//! [`give`] answers it from a tree, and reports damage as an answer of its own. An [`Ask`] goes
//! through the map of another peer by such questions, and leaves out what the own tree has too.
//! [`given`] and [`Ask::take_read`] are the same calls for a node that was read. The definitions stand
//! in `specs/`; `specs/Covers.antt` says when an ask covers a version.
#![tactic(auto)]

mod ask;
mod children;
mod error;
mod giving;
mod laws;
mod places;
mod question;
mod step;
mod taking;

pub use ask::Ask;
pub use error::AskError;
pub use giving::{give, given};
pub use laws::{a_done_ask_has_what_it_covers, taking_keeps_covered};
pub use question::Question;
pub use step::Step;
