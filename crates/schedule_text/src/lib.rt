//! The language of schedules: texts that say, line by line, what clients, peers and the network do.
//!
//! A schedule is a heading of three lines, and then one event a line. [`read_schedule`] returns the
//! schedule that a text spells, or the number of the first bad line and its cause. [`write_schedule`]
//! returns the one text that is read as the schedule. [`Reading`] reads line by line. How an event is
//! spelled and what a schedule may hold is in `specs/Spelling.antt`, what reading a line gives in
//! `specs/Events.antt`, and what reading a text gives in `specs/Reading.antt`. The first line names the
//! [`Form`] of the ensemble; which starts have sealing on is in `specs/Starts.antt`.
#![tactic(auto)]

mod arguments;
mod call_line;
mod error;
mod event;
mod event_lines;
mod form;
mod heading;
mod keyword;
mod laws;
mod log;
mod read_text;
mod reading;
mod schedule;
mod stage;
mod writing;

pub use error::ScheduleError;
pub use event::ScheduleEvent;
pub use event_lines::read_event;
pub use form::Form;
pub use keyword::{StoreName, Survivor};
pub use laws::sealed_starts;
pub use read_text::read_schedule;
pub use reading::Reading;
pub use schedule::Schedule;
pub use writing::{push_event, write_schedule};
