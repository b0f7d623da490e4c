use ens_base::{Command, Key, PeerId, View};
use wire_frames::Message;

/// A call on a key: the caller, the number of the call, which the answer repeats, the key, and the
/// command.
#[derive(Debug, Drop)]
pub struct CallIn {
    pub from: u32,
    pub id: u64,
    pub key: Key,
    pub command: Command,
}

/// An event at a peer.
#[derive(Debug, Drop)]
pub enum Event {
    /// A message and its sender.
    Deliver(PeerId, Message),
    /// Time passes.
    Tick,
    /// A call on a key.
    Call(CallIn),
    /// A request to change the view.
    Change(View),
}
