ghost use Rattle.std.specs.Prelude.{◌≡◌, IfOk};

use ens_base::{Command, CopyError, Entry, Epoch, Key, Reply, Version, copy_entry, copy_key};
use std::alloc::Global;
use stored_formats::{BoxedObject, Fact, Object, copy_boxed};
use tree_node::{Position, TreeBody};

/// Why a peer refuses what a message asks.
#[derive(Clone, Copy, Debug, PartialEq, Eq)]
pub enum NackCause {
    /// The peer has promised this greater ballot.
    Greater(Epoch),
    /// The peer does not trust its tree.
    Untrusted,
    /// The tree of the peer does not verify at this position.
    Damaged(Position),
}

/// What one peer says to another, or a peer and a program that calls it to each other.
#[derive(Debug, Drop)]
pub enum Message {
    /// Asks for the saved fact.
    Probe,
    /// The saved fact.
    ProbeReply(Fact),
    /// Asks for a promise of this ballot.
    Prepare(Epoch),
    /// Promises the ballot, and tells the saved fact.
    Promise(Epoch, Fact),
    /// Refuses what was asked at this epoch or ballot.
    Nack(Epoch, NackCause),
    /// Asks to accept the first fact of an epoch.
    NewEpoch(Fact),
    /// The fact of this epoch with this number was accepted.
    Accepted(Epoch, u64),
    /// Asks for the entry and the object of the key, in this round of the epoch.
    Get(Epoch, u64, Key),
    /// The entry of the key in the tree of the peer, and the object that matches it. The object is on the
    /// heap, so that no message takes more room than the other kinds need.
    GetReply(Epoch, u64, Key, Option<Entry>, Option<BoxedObject>),
    /// Asks to write the object.
    Put(Epoch, Object),
    /// The object of this key was written under this version.
    PutReply(Epoch, Key, Version),
    /// Asks whether the peer still stands at the epoch, in this round.
    Check(Epoch, u64),
    /// The peer still stands at the epoch.
    CheckReply(Epoch, u64),
    /// Asks for a node of the tree; of a segment, for the entries above this key.
    TreeAsk(Epoch, Position, Option<Key>),
    /// What the peer sends of the node, and whether it trusts its tree.
    TreeGive(Epoch, Position, Option<Key>, bool, TreeBody),
    /// Asks to accept the second fact of the epoch.
    Commit(Fact),
    /// The leader of the epoch is alive.
    Beat(Epoch),
    /// A call of a program, under a number that the answer repeats.
    CallFrame(u64, Key, Command),
    /// The answer to the call of this number.
    AnswerFrame(u64, Reply),
}

fn copy_get_reply(
    alloc: Global,
    epoch: Epoch,
    round: u64,
    key: &Key,
    entry: &Option<Entry>,
    object: &Option<BoxedObject>,
) -> Result<Message, CopyError>
    ensures { IfOk result (λ m. m ≡ Message.GetReply epoch round key.now entry.now object.now) }
{
    let key = key.copy(alloc)?;
    let entry = copy_entry(alloc, entry)?;
    let object = copy_boxed(alloc, object)?;
    Ok(Message::GetReply(epoch, round, key, entry, object))
}

fn copy_tree_give(
    alloc: Global,
    epoch: Epoch,
    position: Position,
    after: &Option<Key>,
    trusted: bool,
    body: &TreeBody,
) -> Result<Message, CopyError>
    ensures { IfOk result (λ m. m ≡ Message.TreeGive epoch position after.now trusted body.now) }
{
    let after = copy_key(alloc, after)?;
    let body = body.copy(alloc)?;
    Ok(Message::TreeGive(epoch, position, after, trusted, body))
}

impl Message {
    /// An equal message.
    pub fn copy(&self, alloc: Global) -> Result<Message, CopyError>
        ensures { IfOk result (λ m. m ≡ self.now) }
    {
        match self {
            Message::Probe => Ok(Message::Probe),
            Message::ProbeReply(fact) => Ok(Message::ProbeReply(*fact)),
            Message::Prepare(ballot) => Ok(Message::Prepare(*ballot)),
            Message::Promise(ballot, fact) => Ok(Message::Promise(*ballot, *fact)),
            Message::Nack(ballot, cause) => Ok(Message::Nack(*ballot, *cause)),
            Message::NewEpoch(fact) => Ok(Message::NewEpoch(*fact)),
            Message::Accepted(epoch, seq) => Ok(Message::Accepted(*epoch, *seq)),
            Message::Get(epoch, round, key) => Ok(Message::Get(*epoch, *round, key.copy(alloc)?)),
            Message::GetReply(epoch, round, key, entry, object) => copy_get_reply(
                alloc, *epoch, *round, key, entry, object,
            ),
            Message::Put(epoch, object) => Ok(Message::Put(*epoch, object.copy(alloc)?)),
            Message::PutReply(epoch, key, version) => Ok(Message::PutReply(
                *epoch,
                key.copy(alloc)?,
                *version,
            )),
            Message::Check(epoch, round) => Ok(Message::Check(*epoch, *round)),
            Message::CheckReply(epoch, round) => Ok(Message::CheckReply(*epoch, *round)),
            Message::TreeAsk(epoch, position, after) => Ok(Message::TreeAsk(
                *epoch,
                *position,
                copy_key(alloc, after)?,
            )),
            Message::TreeGive(epoch, position, after, trusted, body) => copy_tree_give(
                alloc, *epoch, *position, after, *trusted, body,
            ),
            Message::Commit(fact) => Ok(Message::Commit(*fact)),
            Message::Beat(epoch) => Ok(Message::Beat(*epoch)),
            Message::CallFrame(id, key, command) => Ok(Message::CallFrame(
                *id,
                key.copy(alloc)?,
                command.copy(alloc)?,
            )),
            Message::AnswerFrame(id, reply) => Ok(Message::AnswerFrame(*id, reply.copy(alloc)?)),
        }
    }
}
