//! The stores of a peer, which may lie or fail: its objects, its tree and its fact.
//!
//! `Stores` answers the calls of a plan, as `step_plans` names them, over a backend, a store of
//! nodes and a fact keeper, with a hasher lent to it. A call of the tree is the plan of that call,
//! over nodes that may be anything. `specs/Stores` says what each call may be answered, what a
//! refused call may leave, and which count rose when it was refused.
#![tactic(auto)]

mod errors;
mod stores;

pub use stores::Stores;
