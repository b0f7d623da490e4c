use crate::rules::{KeyRule, PhaseRule};
use wire_frames::{BoxedObject, Digest, Entry, Fact, Message, Object, PeerSet, Position};

/// What a peer does after a rule has run.
#[derive(Clone, Copy, Debug, PartialEq, Eq)]
pub enum Then {
    /// Nothing more.
    Stay,
    /// It becomes a follower.
    Follow,
    /// It becomes the leader of the epoch of this fact.
    Lead(Fact),
    /// It stops trusting its tree.
    Untrust,
    /// It writes the object of the put before the message is sent.
    Put,
    /// It continues the sync that is running.
    Resume,
    /// It begins a sync on this fact.
    SyncOn(Fact),
    /// This rule of the phases runs next.
    Rule(PhaseRule),
    /// This rule runs next on each key that the leader's answer names.
    OnKeys(KeyRule),
}

/// The outcome of a rule. The peer acts on it in this order: a leader steps down if `leave` is true, the
/// fact is saved, the message is sent to the peers in `to`, and `then` is done.
#[derive(Debug, Drop)]
pub struct PhaseOut {
    pub leave: bool,
    pub save: Option<Fact>,
    pub to: PeerSet,
    pub message: Option<Message>,
    pub then: Then,
}

/// What the stores returned to a rule that reads or writes them.
#[derive(Debug, Drop)]
pub enum Seen {
    /// The rule ends before it reads them.
    Nothing,
    /// The path in the tree does not verify at this position.
    Damaged(Position),
    /// The tree's entry of the key, and the backend's object where it matches the entry.
    Held {
        entry: Option<Entry>,
        object: Option<BoxedObject>,
    },
    /// The backend's object and the MD5 of its bytes, where they are an object.
    Kept(Option<(Object, Digest)>),
    /// The MD5 of the bytes of the object that was written.
    Stored(Digest),
}
