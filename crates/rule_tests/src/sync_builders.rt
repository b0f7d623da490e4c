//! Builders of facts, entries and answers, and the questions that messages ask.
ghost use Rattle.tree_node.specs.declared.version.TreeVersion.TheVariants.{One};
ghost use Rattle.tree_node.specs.Positions.{IsPosition};

use ens_base::{Bytes, Digest, Entry, Epoch, Key, PeerId, Seq, Version, View};
use leader_output::Outgoing;
use std::alloc::Global;
use std::test::Fail;
use stored_formats::Fact;
use tree_exchange::Question;
use tree_node::{Position, Scan, TreeBody, TreeVersion};
use tree_sync::{Give, Outcome, RunningSync};
use wire_frames::Message;

/// The epoch of the sync's fact.
const EPOCH: Epoch = Epoch {
    count: 1,
    proposer: 1,
};

/// The root.
pub const ROOT: Position = Position { level: 0, index: 0 };

/// Child 9 of the root.
pub const CHILD: Position = Position { level: 1, index: 9 };

const DIGEST: Digest = Digest([7; 16]);

/// The entry of a key, with this number in its version.
pub fn entry(alloc: Global, key: &str, seq: u64) -> Result<Entry, Fail> {
    Ok(Entry {
        key: Key::new(alloc, key.as_bytes())?,
        version: Version { epoch: EPOCH, seq },
        digest: DIGEST,
    })
}

/// Begins the sync of peer 1, whose tree has this entry, on the first fact of the epoch.
pub fn start(alloc: Global, own: Entry) -> Result<(RunningSync, Seq<Outgoing>), Fail> {
    let view = View::new(&[PeerId(1), PeerId(2), PeerId(3)])?;
    let mut fact = Fact::opening(view);
    fact.ballot = EPOCH;
    fact.epoch = EPOCH;
    fact.seq = 1;
    let scan = Scan {
        entries: Seq::new(vec![in alloc; own]?),
        damaged: Seq::new(Vec::new(alloc)),
    };
    Ok(RunningSync::start(alloc, fact, PeerId(1), true, scan)?)
}

/// An inner node with one child, if the mask has one bit.
pub fn inner(alloc: Global, mask: u16) -> Result<TreeBody, Fail> {
    Ok(TreeBody::Inner {
        mask,
        digests: Seq::new(vec![in alloc; DIGEST]?),
    })
}

/// Lets the sync take an answer of this source, at the epoch. The own tree has no node there.
pub fn take(
    alloc: Global,
    sync: &mut RunningSync,
    from: u32,
    position: Position,
    body: TreeBody,
) -> Result<Seq<Outgoing>, Fail>
    requires { IsPosition One position }
{
    let question = Question {
        position,
        after: None,
    };
    let give = Give {
        ballot: EPOCH,
        question,
        trusted: false,
        body,
    };
    Ok(sync.take(alloc, TreeVersion::One, PeerId(from), &give, &None)?)
}

/// Lets the sync take the tree of a source without trust that has one entry, of segment 900.
pub fn take_tree(
    alloc: Global,
    sync: &mut RunningSync,
    from: u32,
    entry: Entry,
) -> Result<(), Fail> {
    let segment = Position {
        level: 3,
        index: 2304,
    };
    let page = TreeBody::Page {
        entries: Seq::new(vec![in alloc; entry]?),
        more: false,
    };
    let above = Position {
        level: 2,
        index: 144,
    };
    take(alloc, sync, from, ROOT, inner(alloc, 512)?)?;
    take(alloc, sync, from, CHILD, inner(alloc, 1)?)?;
    take(alloc, sync, from, above, inner(alloc, 1)?)?;
    take(alloc, sync, from, segment, page)?;
    Ok(())
}

/// The receiver and the position of a question for the whole of a position at the epoch.
pub fn question(out: &Outgoing) -> Option<(PeerId, Position)> {
    match &out.message {
        Message::TreeAsk(ballot, position, None) if *ballot == EPOCH => Some((out.to, *position)),
        _ => None,
    }
}

/// The merged entries, or none if the sources do not suffice.
pub fn merged(outcome: &Outcome) -> Option<&[Entry]> {
    match outcome {
        Outcome::Pending => None,
        Outcome::Trusted(entries) => Some(entries.as_slice()),
    }
}
