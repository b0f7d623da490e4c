//! Undisturbed runs: nothing but calls at one leader, each of which is completed.
//!
//! An undisturbed schedule is six ticks of a member of the view, `calm`, and then only pairs of a call
//! at this member and `calm` (`specs/Calm`). No peer stops, no message is lost and no store fails, so
//! nothing may keep a call from being completed: each gets a completed answer before the next one
//! begins, and each history has the calls on its key in the order of their lines.
//!
//! No measure of progress is needed. A calm delivers messages until none waits, and the invariant of
//! the run (`proofs/Elections` for the election, `proofs/ServedWorlds` for the calls) says of each
//! member that the running round does not count yet that the request to it or its reply still waits.
//! So at the end of a calm every member is counted, all members are a quorum, and no round is left
//! open. `proofs/Schedules` goes through the lines of the schedule.
#![tactic(auto)]

mod laws;

pub use laws::undisturbed_runs_complete_every_call;
