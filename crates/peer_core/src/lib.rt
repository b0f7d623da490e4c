//! One peer: its steps, over stores that may lie or fail.
//!
//! `Peer` joins the code of a step (`peer_machine`) and the stores of a peer (`peer_stores`), and
//! halts when a step fails. `Peer::step` promises a run of the plan of a step (`peer_spec`) over
//! what the stores returned: to its end, or to the point where an error stopped it, and then which
//! count of faults or refusals rose. Out of memory may stop a run anywhere, and leaves the stores
//! and the notes as they are at that point.
#![tactic(auto)]

mod peer;

pub use peer::{Peer, StartError, Suspended};
pub use peer_machine::Machine;
pub use peer_spec::{messages_may_go, nothing_is_left};
pub use peer_state::{CallIn, ChangeState, Event, Leadership, Mode, Phase, State};
pub use peer_stores::Stores;
