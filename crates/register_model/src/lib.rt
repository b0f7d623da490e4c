//! The register of one key, the histories of its calls, and laws of histories that are legal.
//!
//! The register of one key, and the history of the calls on it.
//!
//! The main theorem is stated in the terms of this crate alone. A history is legal if it has every
//! completed call once and no refused call, is a run of one register that gives the printed
//! replies, and respects the order of time (Herlihy and Wing 1990). No definition here mentions an
//! epoch, a quorum or a tree. They stand in `specs/Registers` and `specs/Histories`. `specs/Orders`
//! has the order of a key's calls that follows from the notes of the leaders.
//!
//! Where calls are completed one after another, a legal history has one order: that of the calls.
//!
//! Laws of legal histories: what stays legal where the events get other numbers, and where the history is
//! read among more calls; and what a key holds that is only ever opened.
//!
//! A run of several ensembles numbers its events through, while each ensemble counts its own. The numbers
//! of the run rise with those of each ensemble, so a history that is legal for the ensemble is legal for
//! the run. `specs/Openings` says what a key is that takes one value and keeps it.
#![tactic(auto)]

mod answer;
mod call;
mod history;
mod history_laws;
mod note;
mod order_laws;
mod printed;
mod register;
mod replies;

pub use answer::Answer;
pub use call::Call;
pub use history::History;
pub use history_laws::{
    histories_are_legal_among_more_calls, histories_keep_with_the_numbers_of_events,
    opened_keys_have_one_value,
};
pub use note::Note;
pub use order_laws::calm_histories_are_in_order;
pub use printed::Printed;
pub use register::Register;
pub use replies::{is_done, is_refused, the_tests_are_those_of_a_history};
