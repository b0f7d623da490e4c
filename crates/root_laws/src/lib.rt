//! What the run of a root script is, and why its histories are legal.
//!
//! Each line of a script acts on one ensemble (`specs/Lines`), and each ensemble runs its own lines from its
//! opening on. The root opens at once, and a slot in the event in which the root first says with which view
//! it is open (`specs/Openings`). So the run of a script is a function of the script and of the worlds in
//! which ensembles run (`specs/Runs`); `specs/Text` says what it prints.
//!
//! The worlds are given, as what they print and the notes of their leaders (`specs/Worlds`), and nothing here
//! depends on the form of their ensembles. If their histories are legal, those of the script are
//! (`specs/Legal`).
#![tactic(auto)]

mod laws;

pub use laws::{root_runs_are_legal, root_runs_go_line_by_line};
