//! The laws that join the audit of recorded histories to `replay` and to `cluster`.
//!
//! A record is the text of a schedule, the line `answers`, and the text that a run of the schedule
//! printed. `history_record` reads it line by line, and `audit` reports the histories that are
//! not legal. If the printed text is that of a replay which ran to its end, no line is refused, and
//! each key has a legal history (`specs/Recorded`).
//!
//! What a cluster prints when it ran to its end is such a record. A replay of its schedule ends with
//! status 0, unless its input or output fails or memory runs out, and then prints what stands behind
//! the line `answers`. The report of an audit of the whole has no fault (`specs/Records`).
#![tactic(auto)]

mod laws;

pub use laws::{a_cluster_is_replayed, a_cluster_is_well_recorded, a_replay_is_well_recorded};
