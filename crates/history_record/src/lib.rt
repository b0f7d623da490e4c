//! The recorded history of a run, and what is wrong with the histories of one.
//!
//! What is wrong with the histories of a run.
//!
//! [`faults_of`] tests each history of a list by the four clauses of `IsLegal` of `register_model`. For a
//! history that is not legal it returns the first clause that the history violates, and the id at which it
//! does. `specs/Clauses` defines the four clauses and their ids by tests of lists alone, and `specs/Faults`
//! says which faults a list of histories has. `specs/Shortened` says what of a history decides its fault, where an
//! id of it is stray.
//!
//! The recorded history of a run, read from its text.
//!
//! A record is the text of a schedule, the line `answers`, and the text that a run of the schedule printed:
//! a line for each answer and each change of view, and then the history of each key. [`read_record`] returns
//! the record that a text is, or the number of its first bad line and the cause. `specs/Lines` says how the
//! lines behind `answers` are spelled, `specs/Telling` which line may follow which, and `specs/Reading` what
//! reading a text gives. A reader that wants a record for an audit alone may shorten its histories as they come
//! (`specs/ShortRecords`).
#![tactic(auto)]

mod amiss;
mod answers;
mod behind;
mod calls;
mod error;
mod fault;
mod faults;
mod flaw;
mod groups;
mod late;
mod lines;
mod lists;
mod read;
mod reading;
mod record;
mod reply_name;
mod stray;

pub use calls::calls_of;
pub use error::AuditError;
pub use fault::Fault;
pub use faults::faults_of;
pub use read::read_record;
pub use reading::RecordReading;
pub use record::Record;
pub use stray::first_stray;
