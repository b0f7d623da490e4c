//! The label of a message: its name with its epoch, key or version.
//!
//! `specs/Labels` says what is written. A label is for readers: two different messages may have the
//! same label.
#![tactic(auto)]

mod label;

pub use label::push_label;
