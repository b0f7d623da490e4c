ghost use Rattle.std.specs.Prelude.{◌≡◌, ◌∷◌, IfOk};
ghost use Rattle.schedule_text.specs.Keywords.{keyword_word};
ghost use Rattle.schedule_text.specs.Plain.{IsPlain};
ghost use Rattle.schedule_text.specs.Spelling.{argument_words, event_words};
ghost use Rattle.schedule_text.specs.declared.event.ScheduleEvent.TheVariants.{CalmAmong};

use crate::keyword::{Keyword, StoreName, Survivor};
use ens_base::{Bytes, Command, CopyError, Key, PeerId, Seq, View};
use std::alloc::{AllocError, Global};

/// An event of a schedule: one line.
#[derive(Debug, Drop)]
pub enum ScheduleEvent {
    /// A client calls a peer. The ids of a schedule are distinct.
    Call {
        peer: PeerId,
        id: u64,
        key: Key,
        command: Command,
    },
    /// The clock of a peer ticks 1 to 100 times.
    Tick {
        peer: PeerId,
        ticks: u32,
    },
    /// Delivers the message of this number, counted from 1 in the order of sending, even if it was
    /// delivered before.
    Deliver {
        message: u64,
    },
    /// Delivers the oldest message waiting from `sender` to `receiver`.
    Pass {
        sender: PeerId,
        receiver: PeerId,
    },
    /// Loses all messages waiting from `sender` to `receiver`.
    Lose {
        sender: PeerId,
        receiver: PeerId,
    },
    /// Delivers messages in the order of sending until none is waiting.
    Calm,
    /// Delivers messages between these members alone, at least one and ascending, until none is waiting.
    CalmAmong {
        members: Seq<PeerId>,
    },
    /// Asks a peer to change the view.
    Change {
        peer: PeerId,
        view: View,
    },
    /// Stops a peer.
    Stop {
        peer: PeerId,
    },
    /// Starts a peer.
    Start {
        peer: PeerId,
    },
    /// Makes all later starts of a peer have sealing on.
    Upgrade {
        peer: PeerId,
    },
    /// If every peer is down, makes all later starts have a tree of version 2.
    Deepen,
    /// Puts these 1 to 2,000 bytes into the backend of a peer under a key, or removes the object.
    Spoil {
        peer: PeerId,
        key: Key,
        bytes: Option<Bytes>,
    },
    /// Puts these 1 to 2,000 bytes in place of a key's segment in the tree of a peer, or removes it.
    Damage {
        peer: PeerId,
        key: Key,
        bytes: Option<Bytes>,
    },
    /// Puts these 1 to 2,000 bytes in place of an inner node in the tree of a peer, at a level from 0 to 4
    /// and an index below 16 to the power of the level, or removes it.
    Inner {
        peer: PeerId,
        level: u8,
        index: u32,
        bytes: Option<Bytes>,
    },
    /// Takes the top record of a stopped peer's tree back by 1 to 1,000,000 changes.
    Revert {
        peer: PeerId,
        changes: u32,
    },
    /// Makes the next write of a store fail, and leaves the old or the new content.
    Fail {
        peer: PeerId,
        store: StoreName,
        survivor: Survivor,
    },
}

// The event of a calm among these members.
fn copy_calm(alloc: Global, members: &Seq<PeerId>) -> Result<ScheduleEvent, AllocError>
    ensures { IfOk result (λ event. event ≡ CalmAmong members.now) }
{
    let members = Seq::new(Vec::from_slice(alloc, members.as_slice())?);
    Ok(ScheduleEvent::CalmAmong { members })
}

fn copy_content(alloc: Global, bytes: &Option<Bytes>) -> Result<Option<Bytes>, AllocError>
    ensures { IfOk result (λ b. b ≡ bytes.now) }
{
    match bytes {
        Some(bytes) => Ok(Some(bytes.copy(alloc)?)),
        None => Ok(None),
    }
}

impl ScheduleEvent {
    /// An equal event.
    pub fn copy(&self, alloc: Global) -> Result<ScheduleEvent, CopyError>
        ensures { IfOk result (λ event. event ≡ self.now) }
    {
        Ok(match self {
            ScheduleEvent::Call {
                peer,
                id,
                key,
                command,
            } => ScheduleEvent::Call {
                peer: *peer,
                id: *id,
                key: key.copy(alloc)?,
                command: command.copy(alloc)?,
            },
            ScheduleEvent::CalmAmong { members } => copy_calm(alloc, members)?,
            ScheduleEvent::Spoil { peer, key, bytes } => ScheduleEvent::Spoil {
                peer: *peer,
                key: key.copy(alloc)?,
                bytes: copy_content(alloc, bytes)?,
            },
            ScheduleEvent::Damage { peer, key, bytes } => ScheduleEvent::Damage {
                peer: *peer,
                key: key.copy(alloc)?,
                bytes: copy_content(alloc, bytes)?,
            },
            ScheduleEvent::Inner {
                peer,
                level,
                index,
                bytes,
            } => ScheduleEvent::Inner {
                peer: *peer,
                level: *level,
                index: *index,
                bytes: copy_content(alloc, bytes)?,
            },
            _ => self.copy_plain(),
        })
    }

    /// An equal event, of one that owns no memory.
    fn copy_plain(&self) -> ScheduleEvent
        requires { IsPlain self.now }
        ensures { result ≡ self.now }
    {
        match *self {
            ScheduleEvent::Tick { peer, ticks } => ScheduleEvent::Tick { peer, ticks },
            ScheduleEvent::Deliver { message } => ScheduleEvent::Deliver { message },
            ScheduleEvent::Pass { sender, receiver } => ScheduleEvent::Pass { sender, receiver },
            ScheduleEvent::Lose { sender, receiver } => ScheduleEvent::Lose { sender, receiver },
            ScheduleEvent::Calm => ScheduleEvent::Calm,
            ScheduleEvent::Change { peer, view } => ScheduleEvent::Change { peer, view },
            ScheduleEvent::Stop { peer } => ScheduleEvent::Stop { peer },
            ScheduleEvent::Start { peer } => ScheduleEvent::Start { peer },
            ScheduleEvent::Upgrade { peer } => ScheduleEvent::Upgrade { peer },
            ScheduleEvent::Deepen => ScheduleEvent::Deepen,
            ScheduleEvent::Revert { peer, changes } => ScheduleEvent::Revert { peer, changes },
            ScheduleEvent::Fail {
                peer,
                store,
                survivor,
            } => ScheduleEvent::Fail {
                peer,
                store,
                survivor,
            },
            _ => unreachable!(),
        }
    }

    /// The first word of its line.
    pub(crate) fn keyword(&self) -> Keyword
        ensures { event_words self.now ≡ keyword_word result ∷ argument_words self.now }
    {
        match self {
            ScheduleEvent::Call { .. } => Keyword::Call,
            ScheduleEvent::Tick { .. } => Keyword::Tick,
            ScheduleEvent::Deliver { .. } => Keyword::Deliver,
            ScheduleEvent::Pass { .. } => Keyword::Pass,
            ScheduleEvent::Lose { .. } => Keyword::Lose,
            ScheduleEvent::Calm | ScheduleEvent::CalmAmong { .. } => Keyword::Calm,
            ScheduleEvent::Change { .. } => Keyword::Change,
            ScheduleEvent::Stop { .. } => Keyword::Stop,
            ScheduleEvent::Start { .. } => Keyword::Start,
            ScheduleEvent::Upgrade { .. } => Keyword::Upgrade,
            ScheduleEvent::Deepen => Keyword::Deepen,
            ScheduleEvent::Spoil { .. } => Keyword::Spoil,
            ScheduleEvent::Damage { .. } => Keyword::Damage,
            ScheduleEvent::Inner { .. } => Keyword::Inner,
            ScheduleEvent::Revert { .. } => Keyword::Revert,
            ScheduleEvent::Fail { .. } => Keyword::Fail,
        }
    }
}
