//! What a leader knows: its unanswered calls, and for each key what is settled and what is being
//! asked.
//!
//! All unanswered calls are in one list, in order of arrival. The first call on a key is the
//! running call of the key. Each key has a row: what is known of it, and how far its running call
//! has come. A key that was never named has the row of a key of which nothing is known.
#![tactic(auto)]

mod best;
mod calls;
mod checks;
mod laws;
mod places;
mod queue;
mod row;
mod rows;
mod table;
mod waiting;

pub use best::better;
pub use laws::the_best_is_the_greatest;
pub use row::{Found, KeyRow, Known, Stage};
pub use table::CallTable;
pub use waiting::{DueCall, Waiting};
