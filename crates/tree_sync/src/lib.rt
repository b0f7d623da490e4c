//! Syncs: which sources suffice, and the sync that a peer runs.
//!
//! Which sources of a sync suffice, and what the trees that they gave come to together.
//!
//! A peer that syncs copies the trees of the members of one view, its sources, and merges them with
//! its own. [`Sync`] holds the sources that have finished. They suffice once more than half of the
//! view has finished with trusted trees, or all of it has finished. The merge has the greatest entry
//! of each key. `specs/` has the rule and the merge as definitions, and [`laws`] says what they are
//! good for: sufficient sources include one that passes on what a majority of the view holds.
//!
//! A sync that runs: a peer asks the members of one view for their trees, all at once.
//!
//! [`RunningSync`] holds one ask for each source. [`RunningSync::start`] and
//! [`RunningSync::resume`] return the messages to send, and [`RunningSync::take`] takes an answer
//! and returns the next question to that source. Each is a row, a definition in `specs/Rows`. A
//! source that reports damage is dropped with all that it sent, and asked anew when the sync
//! resumes. [`RunningSync::outcome`] tells when the sources suffice, and the merged entries.
#![tactic(auto)]

mod asking;
mod error;
mod merging;
mod rule_laws;
mod running;
mod sync;
mod sync_laws;

pub use asking::{Asking, Give, Stage};
pub use error::SyncError;
pub use merging::Merge;
pub use rule_laws::{
    a_merge_is_one, a_tree_is_kept_if_nothing_changes, more_sources_suffice,
    sources_tell_what_most_hold,
};
pub use running::RunningSync;
pub use stored_formats::Fact;
pub use sync::{Outcome, Source, Sync, is_clean, needs_build};
pub use sync_laws::{
    messages_are_questions, messages_may_go, syncs_ask_others, syncs_keep_their_fact,
};
pub use tree_exchange::{AskError, Question, given};
