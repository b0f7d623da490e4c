ghost use Rattle.std.specs.Prelude.{◌≡◌, ◌≢◌, IfOk};
ghost use Rattle.ens_base.specs.View.{IsPeer};
ghost use Rattle.peer_spec.specs.Drives.{MayCome};
ghost use Rattle.wire_frames.specs.Messages.{Obeys};

use ens_base::{Epoch, PeerId, View, ViewError};
use environment::{MemBackend, MemNodes};
use fact_store::{FactKeeper, Kept, MemFacts};
use hash_book::PlainHasher;
use peer_core::{Event, Mode, Peer, StartError, Stores};
use slot_disk::Failing;
use std::alloc::Global;
use std::test::Fail;
use std::thread::Threads;
use step_plans::{Outbox, PeerError};
use stored_formats::{Change, Fact, SavedFact};
use synctree::Tree;
use tree_node::TreeVersion;
use wire_frames::Message;

type Held = Stores<MemBackend, MemNodes, MemFacts>;

type Tried = Peer<MemBackend, MemNodes, MemFacts>;

/// The ballot 1.1.
const BALLOT: Epoch = Epoch {
    count: 1,
    proposer: 1,
};

/// The view 1 2 3.
fn view() -> Result<View, ViewError> {
    View::new(&[PeerId(1), PeerId(2), PeerId(3)])
}

/// Empty stores of which the listed calls of the facts fail.
fn stores(alloc: Global, failing: Failing) -> Held {
    Stores {
        backend: MemBackend::new(alloc, Vec::new(alloc)),
        tree: Tree::unopened(MemNodes::new(alloc, Vec::new(alloc)), TreeVersion::One),
        facts: MemFacts::new(Kept::Nothing, failing),
    }
}

/// The peer of this number, started on these stores with a tree of this version.
fn started<R: Threads + Sync>(
    rt: &R,
    alloc: Global,
    number: u32,
    view: View,
    tree: TreeVersion,
    stores: Held,
) -> Result<Tried, PeerError>
    requires { IsPeer number }
    ensures { IfOk result (λ p. p.me ≡ number) }
{
    let mode = Mode {
        sealing: false,
        tree,
    };
    match Peer::start(
        rt,
        alloc,
        PeerId(number),
        view,
        mode,
        stores,
        &mut PlainHasher,
    ) {
        Ok(peer) => Ok(peer),
        Err(refused) => {
            let StartError { error, held: _ } = refused;
            Err(error)
        }
    }
}

/// The peer of this number, on empty stores, with a tree of this version.
fn peer<R: Threads + Sync>(
    rt: &R,
    alloc: Global,
    number: u32,
    tree: TreeVersion,
) -> Result<Tried, Fail>
    requires { IsPeer number }
    ensures { IfOk result (λ p. p.me ≡ number) }
{
    Ok(started(
        rt,
        alloc,
        number,
        view()?,
        tree,
        stores(alloc, Failing::never(alloc)),
    )?)
}

/// The name of a message of an election.
fn name(message: &Message) -> &'static str {
    match message {
        Message::Probe => "probe",
        Message::ProbeReply(_) => "probe reply",
        Message::Prepare(_) => "prepare",
        Message::Promise(..) => "promise",
        Message::Nack(..) => "nack",
        Message::NewEpoch(_) => "new epoch",
        Message::Accepted(..) => "accepted",
        Message::CheckReply(..) => "check reply",
        Message::Commit(_) => "commit",
        Message::Beat(_) => "beat",
        Message::Get(..) => "get",
        _ => "other",
    }
}

/// Whether the message at this place goes to this peer and has this name.
fn is_sent(out: &Outbox, place: usize, to: u32, wanted: &str) -> bool {
    match out.sends.get(place) {
        Some(sent) => sent.to == PeerId(to) && name(&sent.message) == wanted,
        None => false,
    }
}

/// Whether just these messages go out, in this order.
fn sends(out: &Outbox, wanted: &[(u32, &str)]) -> bool {
    for place in 0..wanted.len() {
        let (to, name) = wanted[place];
        if !is_sent(out, place, to, name) {
            return false;
        }
    }
    out.sends.len() == wanted.len()
}

/// The opening fact, at the ballot 1.1.
fn promised(view: View) -> Fact {
    Fact {
        ballot: BALLOT,
        ..Fact::opening(view)
    }
}

/// The first fact of the epoch 1.1.
fn elected(view: View) -> Fact {
    Fact {
        epoch: BALLOT,
        seq: 1,
        leader: PeerId(1),
        ..promised(view)
    }
}

/// Whether a peer sends just these messages on an event.
fn answers<R: Threads + Sync>(
    rt: &R,
    alloc: Global,
    peer: &mut Tried,
    event: Event,
    wanted: &[(u32, &str)],
) -> Result<bool, PeerError>
    requires { MayCome peer.old.me event }
    ensures { peer.new.me ≡ peer.old.me }
{
    let mut out = Outbox::new(alloc);
    match peer.step(rt, alloc, event, &mut PlainHasher, &mut out) {
        Ok(()) => Ok(sends(&out, wanted)),
        Err(error) => Err(error),
    }
}

/// Whether a peer sends just these messages on a message.
fn told<R: Threads + Sync>(
    rt: &R,
    alloc: Global,
    peer: &mut Tried,
    from: u32,
    message: Message,
    wanted: &[(u32, &str)],
) -> Result<bool, PeerError>
    requires from { IsPeer from }
    requires other { from ≢ peer.old.me }
    requires obeys { Obeys message }
    ensures { peer.new.me ≡ peer.old.me }
{
    answers(
        rt,
        alloc,
        peer,
        Event::Deliver(PeerId(from), message),
        wanted,
    )
}

/// Whether a peer sends just these messages at the last of these ticks, and none before.
fn ticked<R: Threads + Sync>(
    rt: &R,
    alloc: Global,
    peer: &mut Tried,
    ticks: u32,
    wanted: &[(u32, &str)],
) -> Result<bool, PeerError>
    ensures { peer.new.me ≡ peer.old.me }
{
    for _tick in 1..ticks {
        match answers(rt, alloc, peer, Event::Tick, &[]) {
            Ok(true) => {}
            Ok(false) => return Ok(false),
            Err(error) => return Err(error),
        }
    }
    answers(rt, alloc, peer, Event::Tick, wanted)
}

/// Peer 1 once it starts its epoch.
fn starting<R: Threads + Sync>(rt: &R, alloc: Global, view: View) -> Result<Tried, Fail>
    ensures { IfOk result (λ p. p.me ≡ 1) }
{
    let mut one = peer(rt, alloc, 1, TreeVersion::One)?;
    ticked(rt, alloc, &mut one, 6, &[])?;
    told(
        rt,
        alloc,
        &mut one,
        3,
        Message::ProbeReply(Fact::opening(view)),
        &[],
    )?;
    told(
        rt,
        alloc,
        &mut one,
        2,
        Message::Promise(BALLOT, promised(view)),
        &[],
    )?;
    Ok(one)
}

/// Whether the stores of the peer keep this fact, without a seal.
fn keeps(peer: Tried, fact: Fact) -> bool {
    let mut stores = peer.into_stores();
    stores.facts.load() == Ok(Some(SavedFact { fact, seal: None }))
}

#[test]
fn a_suspended_peer_goes_on_and_keeps_its_fact_over_a_start(rt: HostRuntime) -> Result<(), Fail> {
    let alloc = rt.alloc();
    let view = view()?;
    let one = starting(&rt, alloc, view)?;
    let (suspended, stores) = one.suspend();
    let mut one = suspended.resume(stores);
    assert!(rt; told(&rt, alloc, &mut one, 3, Message::Accepted(BALLOT, 1), &[])?);
    assert!(rt; ticked(&rt, alloc, &mut one, 1, &[(2, "new epoch"), (3, "beat")])?);
    let again = started(&rt, alloc, 1, view, TreeVersion::One, one.into_stores())?;
    assert!(rt; keeps(again, elected(view)));
    Ok(())
}

/// The root of an empty tree of version one has another digest than that of version two.
#[test]
fn a_tree_of_version_one_migrates_at_a_start(rt: HostRuntime) -> Result<(), Fail> {
    let alloc = rt.alloc();
    let one = peer(&rt, alloc, 1, TreeVersion::One)?;
    let again = started(&rt, alloc, 1, view()?, TreeVersion::Two, one.into_stores())?;
    let fresh = peer(&rt, alloc, 1, TreeVersion::Two)?;
    let (held, wanted) = (again.into_stores(), fresh.into_stores());
    assert!(rt; held.tree.version() == TreeVersion::Two);
    assert!(rt; held.tree.top().is_some() && held.tree.top() == wanted.tree.top());
    Ok(())
}
