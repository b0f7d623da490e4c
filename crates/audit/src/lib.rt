//! The audit of a recorded history, from its text to the report.
//!
//! The audit of a recorded history, without a run.
//!
//! [`audit`] tests the history of each key of a record of `history_record`. The [`Report`] names for each key
//! whose history is not legal the first clause of legality that it violates, and the id at which it does
//! (`specs/Reports`, over the definitions of `history_record`). [`report_text`] writes a report as JSON.
//!
//! The input of an audit: reads a record from a source, and says how an audit ends that could not read one.
//!
//! `read_record` reads the source to its end, its first bad line, or the first byte of a line 200,001 that is
//! not `answers`. Its contract identifies the record by `record_of` of history_record. `specs/Lines` says how
//! a source is split into lines, `specs/Reading` what an error means for the bytes, and `specs/Endings` what
//! an audit prints after one.
//!
//! The audit of a record that a source gives, and what it prints.
//!
//! [`print_report`] reads a record from the input, and writes the report on its histories to the output.
//! `specs/Printed` says what it writes for each status.
#![tactic(auto)]

mod auditing;
mod ending;
mod job;
mod lines;
mod read;
mod report;
mod text;

pub use auditing::audit;
pub use ending::unread;
pub use history_record::{AuditError, Record};
pub use job::print_report;
pub use read::{ReadError, read_record};
pub use report::Report;
pub use text::report_text;
