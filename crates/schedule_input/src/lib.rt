//! Schedules from a source: reading by lines, the premise on reverted trees, and the input of a job.
//!
//! Reading a text line by line: definitions and lemmas for every reader of lines.
//!
//! A reader is two functions: what the next line makes of what was read so far, and what the end of the text
//! makes of it. `specs/LineReading` says what such a reader makes of a text, and how a source that gives the text
//! piece by piece was read; `specs/Counting` how much of it was taken by a reader that counts its lines. The
//! files of `proofs/` have the lemmas that code needs which takes one line after another.
//!
//! The premise on reverted trees: in each view that a schedule names, more than half of the members
//! stand in no line `revert`. It is asked of schedules of form 1 alone, since in the other forms every
//! peer has a seal, and sees that its tree was reverted.
//!
//! [`premise`] returns the first view that fails it, in the order of the lines, or `None` for a sound
//! schedule. [`write_premise`] returns the line that reports such a view. `specs/Premise` defines
//! which view that is, and `specs/Text` the line. `sound_schedules` says in other words what a sound
//! schedule is (`specs/Sound`).
//!
//! The input of a job: reads a schedule from a source, and says how a job ends that could not read
//! one, or whose schedule fails the premise on reverted trees.
//!
//! `read_schedule` reads the source to its end, its first bad line, or the first byte of line
//! 200,001. Its contract identifies the schedule by `schedule_of` of schedule_text. `specs/Reading`
//! says what an error means for the bytes, and `specs/Endings` what a job prints after one, and for
//! a view that fails the premise.
#![tactic(auto)]

mod ending;
mod laws;
mod read;
mod reverts;
mod search;
mod text;

pub use ending::Ending;
pub use laws::sound_schedules;
pub use read::{ReadError, read_schedule};
pub use search::{Unsound, premise};
pub use text::write_premise;
