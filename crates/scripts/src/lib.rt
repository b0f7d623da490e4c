//! Scripts: what a person wants several peers to do, of a cluster or of a root ensemble, and how they are read.
//!
//! The script of a cluster: what a person wants several peers to do, line by line.
//!
//! A line is a `call`, `tick`, `change`, `stop` or `start`, spelled as in a schedule, or `turn N`: the peers look
//! N times for messages. [`read_script`] reads a source to its end, its first bad line, or the first byte of line
//! 200,001. `specs/Scripts` says what the text of a script is, and which line of a text is bad and why.
//!
//! The language of root scripts: texts that say, line by line, what happens to a root ensemble, and to
//! the ensembles that are opened through it.
//!
//! The keys of a root ensemble are the slots 0 to 63, and it opens one ensemble for each. A script is a
//! heading of three lines, as in a schedule, and then one event a line: an event of one ensemble, the
//! opening of a slot, a look at one, or a call that goes to the ensemble of the slot of its key.
//! [`read_root`] returns the script that a text spells, or the number of the first bad line and its cause,
//! and [`RootReading`] reads line by line. How an event is spelled and what a script may hold is in
//! `specs/Spelling`, what reading a line gives in `specs/Events`, and what reading a text gives in
//! `specs/RootReading`. The events of one ensemble are those of schedule_text, whose `read_event` reads them.
//!
//! The input of a root: reads a script from a source, and says how a job ends that could not read one.
//!
//! `read_root_script` reads the source to its end, its first bad line, or the first byte of line 200,001. Its
//! contract identifies the script by `script_of` of scripts. `specs/RootInput` says what an error means
//! for the bytes, and `specs/Endings` what a job prints after one.
#![tactic(auto)]

mod call_lines;
mod cluster_read;
mod cluster_reading;
mod ending;
mod event;
mod event_lines;
mod keyword;
mod line;
mod log;
mod refusal;
mod root_input;
mod root_read;
mod root_reading;
mod script;
mod slots;
mod split;
mod stage;

pub use cluster_read::{ReadError, read_script};
pub use ending::unread;
pub use event::RootEvent;
pub use line::ScriptLine;
pub use root_input::read_root_script;
pub use root_read::read_root;
pub use root_reading::RootReading;
pub use script::RootScript;
pub use slots::Ensemble;
