//! Builders of epochs, views and sets of peers, and summaries of the answers of rules.

use ens_base::{Epoch, PeerId, PeerSet, Version, View, ViewError};
use phase_rows::{PhaseOut, Then};
use stored_formats::Fact;
use tree_node::TreeBody;
use wire_frames::{Message, NackCause};

/// The set of these peers. Numbers outside 1 to 31 are left out.
pub fn set(numbers: &[u32]) -> PeerSet {
    let mut set = PeerSet::empty();
    for number in numbers {
        if 1 <= *number && *number <= 31 {
            set.insert(PeerId(*number));
        }
    }
    set
}

/// The view of three members.
pub fn view(members: &[u32; 3]) -> Result<View, ViewError> {
    let [a, b, c] = *members;
    View::new(&[PeerId(a), PeerId(b), PeerId(c)])
}

/// The epoch `count.proposer`.
pub fn epoch(count: u64, proposer: u32) -> Epoch {
    Epoch { count, proposer }
}

/// The parts of a message that the tests compare.
#[derive(Clone, Copy, Debug, PartialEq, Eq)]
pub enum Said {
    Nothing,
    Probe,
    ProbeReply(Fact),
    Prepare(Epoch),
    Promise(Epoch, Fact),
    Nack(Epoch, NackCause),
    NewEpoch(Fact),
    Accepted(Epoch, u64),
    Commit(Fact),
    CheckReply(Epoch, u64),
    /// The epoch, the round, and whether there is an entry.
    GetReply(Epoch, u64, bool),
    PutReply(Epoch, Version),
    /// The ballot, whether the sender trusts its tree, and whether the node is damaged.
    TreeGive(Epoch, bool, bool),
    Other,
}

/// The answer of a rule, as a `Copy` value.
#[derive(Clone, Copy, Debug, PartialEq, Eq)]
pub struct Answer {
    pub leave: bool,
    pub save: Option<Fact>,
    pub to: PeerSet,
    pub said: Said,
    pub then: Then,
}

fn is_damage(body: &TreeBody) -> bool {
    match body {
        TreeBody::Damaged(_place) => true,
        _ => false,
    }
}

fn said_to_follow(message: &Message) -> Said {
    match message {
        Message::Accepted(epoch, seq) => Said::Accepted(*epoch, *seq),
        Message::Commit(fact) => Said::Commit(*fact),
        Message::CheckReply(epoch, round) => Said::CheckReply(*epoch, *round),
        Message::GetReply(epoch, round, _key, entry, _object) => {
            Said::GetReply(*epoch, *round, entry.is_some())
        }
        Message::PutReply(epoch, _key, version) => Said::PutReply(*epoch, *version),
        Message::TreeGive(ballot, _at, _after, trusted, body) => {
            Said::TreeGive(*ballot, *trusted, is_damage(body))
        }
        _ => Said::Other,
    }
}

fn said_of(message: &Option<Message>) -> Said {
    match message {
        None => Said::Nothing,
        Some(Message::Probe) => Said::Probe,
        Some(Message::ProbeReply(fact)) => Said::ProbeReply(*fact),
        Some(Message::Prepare(ballot)) => Said::Prepare(*ballot),
        Some(Message::Promise(ballot, fact)) => Said::Promise(*ballot, *fact),
        Some(Message::Nack(ballot, cause)) => Said::Nack(*ballot, *cause),
        Some(Message::NewEpoch(fact)) => Said::NewEpoch(*fact),
        Some(message) => said_to_follow(message),
    }
}

/// Summarizes the answer of a rule as a `Copy` value.
pub fn summary(out: PhaseOut) -> Answer {
    Answer {
        leave: out.leave,
        save: out.save,
        to: out.to,
        said: said_of(&out.message),
        then: out.then,
    }
}

/// The answer that sends this message to the peer, and goes on with `then`.
pub fn tells(peer: u32, said: Said, then: Then) -> Answer {
    Answer {
        to: set(&[peer]),
        said,
        ..silent(then)
    }
}

/// The answer that saves and sends nothing, and goes on with `then`.
pub fn silent(then: Then) -> Answer {
    Answer {
        leave: false,
        save: None,
        to: PeerSet::empty(),
        said: Said::Nothing,
        then,
    }
}
