//! The run of a schedule as a pure function. There is no code that runs.
//!
//! Specification only: what stores in memory answer to the calls of a step, as a function.
//!
//! The stores of a peer in a schedule are `HeldObjects`, a tree over `HeldNodes`, and a `HeldFact`.
//! They answer each call in one way, and refuse a write exactly if a failure waits for it. So a plan
//! has one run over them, unless it is out of memory or the hasher refuses a string: `laws.rt`
//! states that. `specs/Held` has the state, `specs/Walks` the plans of the tree over nodes in
//! memory, `specs/Answers` the answer to each call, and `specs/HeldRuns` the run of a plan. A run does
//! not ask whether a hashed string clashes with another, or fits into a book: it keeps the list of
//! all strings hashed so far, over which both can be said.
//!
//! Specification only: the run of a schedule as a pure function of its lines. It covers the peers
//! over stores in memory, the messages between them, the effect of each line, and the strings that
//! it hashes.
//!
//! The stores of a peer are those of held_stores: a line can make the next write of one fail, and
//! change what it holds (`specs/Stores`). A plan over them has exactly one run unless it is out of
//! memory or the hasher refuses a string, so a step or a start of a peer is a function of its state,
//! its stores and the event (`specs/Nodes`). A peer that a store stops is down, and a peer that is
//! down keeps its stores until it starts again. The state of a world is in `specs/Runs`, the effect
//! of each line in `specs/Lines`; world_stores says which node a line damages. `laws.rt` states what
//! holds of every run.
//!
//! Trees have version two from the opening on in form 3, and in the others from a line `deepen` on that
//! comes while all peers are down; a start then migrates the tree of its peer, and no message that was sent
//! before that line is given to anyone.
#![tactic(auto)]

mod held_laws;
mod laws;

pub use held_laws::{runs_are_determined, strings_fill_a_book_once, taken_strings_are_apart};
pub use laws::{
    a_calm_leaves_none_waiting, hashed_strings_are_forgotten, messages_obey,
    starts_have_trees_by_the_lines, starts_seal_by_the_lines, steps_end_well,
};
