//! The history of each key, from the notes of the leaders.
//!
//! A `Scribe` keeps the notes that it is given, and returns for each key the order of its calls
//! that follows from them, `order` of `register_model`. Beside the notes it keeps a list of marks
//! for each key: the content of each note on the key, without the key. So a note costs one lookup,
//! and a history costs as much as the key has notes, however many other keys there are.
//!
//! [`write_text`] spells what a run printed and its histories, a line each (`specs/Text`).
#![tactic(auto)]

mod histories;
mod lists;
mod mark;
mod scribe;
mod text;
mod told;

pub use scribe::Scribe;
pub use text::{push_reply, write_text};
