ghost use Rattle.std.specs.Prelude.{◌≡◌, ◌++◌, ◌∷◌, ◌&&◌, [], false, if◌then◌else◌, slice_index_or, OnOk, drop, length, map};
ghost use Rattle.ens_base.specs.View.{IsPeer};
ghost use Rattle.world_spec.specs.Held.{account};
ghost use Rattle.network.specs.Mail.{goes, oldest, most_messages};
ghost use Rattle.schedule_text.specs.Spelling.{MayStand};
ghost use Rattle.world_model.specs.Activities.{activity_at};
ghost use Rattle.world_model.specs.Worlds.{run_of, Begins, Reaches};
ghost use Rattle.world_spec.specs.Lines.{applied, set_of};
ghost use Rattle.world_spec.specs.Runs.{delivered, delivered_if, calmed};
ghost use Rattle.chart.specs.Lines.{arrows, calm_lines, delivery_lines, delivery_lines_if, effect_lines, fate_at as fate_of, is_which as is_one_of, step_lines_if, stepped_by as stepper_of};
ghost use Rattle.chart.specs.Notes.{arrow_line, change_note, note_line, printed_words};

use crate::fate::{Fate, Which};
use crate::lines::Lines;
use ens_base::{PeerId, PeerSet, Seq};
use hash_book::Hasher16;
use network::Network;
use schedule_text::ScheduleEvent;
use std::alloc::{AllocError, Global};
use std::thread::Threads;
use wire_frames::Frame;
use world_model::{Activity, World, WorldError, all_peers, set_of_members};

/// Returns what becomes of a message whose receiver is doing this. A stale one was sent before trees
/// got version two, and is given to nobody.
fn fate_at(stale: bool, activity: Activity) -> Fate
    ensures { result ≡ fate_of stale activity }
{
    if stale {
        return Fate::Missed;
    }
    match activity {
        Activity::Down => Fate::Missed,
        _ => Fate::Taken,
    }
}

/// Returns the peer that a line gives a tick, a call or a request, stops or starts.
fn stepped_by(event: &ScheduleEvent) -> Option<PeerId>
    ensures { result ≡ stepper_of event.now }
{
    match event {
        ScheduleEvent::Call { peer, .. } => Some(*peer),
        ScheduleEvent::Tick { peer, .. } => Some(*peer),
        ScheduleEvent::Change { peer, .. } => Some(*peer),
        ScheduleEvent::Stop { peer } => Some(*peer),
        ScheduleEvent::Start { peer } => Some(*peer),
        ScheduleEvent::Deliver { .. } => None,
        ScheduleEvent::Pass { .. } => None,
        ScheduleEvent::Lose { .. } => None,
        ScheduleEvent::Calm => None,
        ScheduleEvent::CalmAmong { .. } => None,
        ScheduleEvent::Upgrade { .. } => None,
        ScheduleEvent::Deepen => None,
        ScheduleEvent::Spoil { .. } => None,
        ScheduleEvent::Damage { .. } => None,
        ScheduleEvent::Inner { .. } => None,
        ScheduleEvent::Revert { .. } => None,
        ScheduleEvent::Fail { .. } => None,
    }
}

/// What a step is compared with: how many lines were printed before it, and what its peer did.
#[derive(Drop)]
struct Before {
    peer: PeerId,
    printed: usize,
    activity: Activity,
}

impl Before {
    fn of(world: &World, peer: PeerId) -> Before
        requires { IsPeer peer }
        ensures peer { result.peer ≡ peer }
        ensures printed { result.printed ≡ length (run_of world.now).printed }
        ensures activity { result.activity ≡ activity_at peer (run_of world.now) }
    {
        Before {
            peer,
            printed: world.printed().len(),
            activity: world.activity(peer),
        }
    }
}

/// Adds the lines that were printed since.
fn add_printed(
    alloc: Global,
    world: &World,
    lines: &mut Lines,
    before: &Before,
) -> Result<(), AllocError>
    ensures { OnOk result (lines.new ≡ lines.old ++ map (λ p. note_line before.now.peer (printed_words p)) (drop before.now.printed (run_of world.now).printed)) }
{
    let peer = before.peer;
    let printed = world.printed();
    for place in before.printed..printed.len() {
        lines.printed(alloc, peer, &printed[place])?;
    }
    Ok(())
}

/// Adds what a step showed.
fn add_step(
    alloc: Global,
    world: &World,
    lines: &mut Lines,
    before: &Before,
) -> Result<(), AllocError>
    requires { IsPeer before.now.peer }
    ensures { OnOk result (lines.new ≡ lines.old
        ++ (map (λ p. note_line before.now.peer (printed_words p))
        (drop before.now.printed (run_of world.now).printed)
        ++ change_note before.now.peer before.now.activity (activity_at before.now.peer (run_of world.now)))) }
{
    add_printed(alloc, world, lines, before)?;
    let peer = before.peer;
    lines.change(alloc, peer, before.activity, world.activity(peer))?;
    Ok(())
}

/// Delivers the message `number`, counted from 0, and adds what this shows. Does nothing if there is
/// no such message.
fn deliver<H: Hasher16, R: Threads + Sync>(
    rt: &R,
    alloc: Global,
    hasher: &mut H,
    world: &mut World,
    lines: &mut Lines,
    number: usize,
) -> Result<(), WorldError>
    ensures reaches { Reaches (account H.kept H.clashes H.fulls hasher.old) (delivered number (run_of world.old)) result (run_of world.new) (account H.kept H.clashes H.fulls hasher.new) }
    ensures begins { Begins world.old world.new }
    ensures lines { OnOk result (lines.new ≡ lines.old ++ delivery_lines number (run_of world.old)) }
{
    let Some(frame) = world.sent().get(number) else {
        return world.deliver(rt, alloc, hasher, number);
    };
    let before = Before::of(world, PeerId(frame.to));
    let fate = fate_at(world.is_stale(number), before.activity);
    lines.arrow(alloc, fate, frame)?;
    world.deliver(rt, alloc, hasher, number)?;
    add_step(alloc, world, lines, &before)?;
    Ok(())
}

/// Delivers the oldest message waiting from `sender` to `receiver`, and adds what this shows.
fn pass<H: Hasher16, R: Threads + Sync>(
    rt: &R,
    alloc: Global,
    hasher: &mut H,
    world: &mut World,
    lines: &mut Lines,
    sender: PeerId,
    receiver: PeerId,
) -> Result<(), WorldError>
    requires { IsPeer sender × IsPeer receiver }
    ensures reaches { Reaches (account H.kept H.clashes H.fulls hasher.old)
        (delivered_if (oldest (goes sender receiver) (run_of world.old).mail) (run_of world.old)) result
        (run_of world.new) (account H.kept H.clashes H.fulls hasher.new) }
    ensures begins { Begins world.old world.new }
    ensures lines { OnOk result (lines.new ≡ lines.old ++ delivery_lines_if (oldest (goes sender receiver) (run_of world.old).mail) (run_of world.old)) }
{
    match world.oldest_between(sender, receiver) {
        None => Ok(()),
        Some(number) => deliver(rt, alloc, hasher, world, lines, number),
    }
}

/// Delivers the messages waiting among `peers`, as a calm does, and adds what this shows.
fn calm<H: Hasher16, R: Threads + Sync>(
    rt: &R,
    alloc: Global,
    hasher: &mut H,
    world: &mut World,
    lines: &mut Lines,
    peers: &PeerSet,
) -> Result<(), WorldError>
    ensures reaches { Reaches (account H.kept H.clashes H.fulls hasher.old)
        (calmed peers.now most_messages (run_of world.old)) result (run_of world.new)
        (account H.kept H.clashes H.fulls hasher.new) }
    ensures begins { Begins world.old world.new }
    ensures lines { OnOk result (lines.new ≡ lines.old ++ calm_lines peers.now most_messages (run_of world.old)) }
{
    for _turn in 0..Network::MOST {
        match world.oldest_among(peers) {
            None => return Ok(()),
            Some(number) => deliver(rt, alloc, hasher, world, lines, number)?,
        }
    }
    Ok(())
}

/// Delivers the messages waiting among these members, as a calm does, and adds what this shows.
fn calm_among<H: Hasher16, R: Threads + Sync>(
    rt: &R,
    alloc: Global,
    hasher: &mut H,
    world: &mut World,
    lines: &mut Lines,
    members: &Seq<PeerId>,
) -> Result<(), WorldError>
    ensures reaches { Reaches (account H.kept H.clashes H.fulls hasher.old)
        (calmed (set_of members.now) most_messages (run_of world.old)) result (run_of world.new)
        (account H.kept H.clashes H.fulls hasher.new) }
    ensures begins { Begins world.old world.new }
    ensures lines { OnOk result (lines.new ≡ lines.old ++ calm_lines (set_of members.now) most_messages (run_of world.old)) }
{
    calm(
        rt,
        alloc,
        hasher,
        world,
        lines,
        &set_of_members(members.as_slice()),
    )
}

/// Whether the message is one of these.
fn is_which(which: &Which, frame: &Frame) -> bool
    ensures { result ≡ is_one_of which.now frame.now }
{
    match which {
        Which::Every => true,
        Which::Between { from, to } => frame.from == from.0 && frame.to == to.0,
    }
}

/// Whether the message `number`, counted from 0, waits and is one of these.
fn is_waiting(world: &World, which: &Which, number: usize, frame: &Frame) -> bool
    ensures { result ≡ (slice_index_or (run_of world.now).mail.waits number false && is_one_of which.now frame.now) }
{
    world.waits(number) && is_which(which, frame)
}

/// Adds the arrow of a message, if it is wanted.
fn add_arrow(
    alloc: Global,
    lines: &mut Lines,
    fate: Fate,
    frame: &Frame,
    wanted: bool,
) -> Result<(), AllocError>
    ensures { OnOk result (lines.new ≡ lines.old ++ map (arrow_line fate) (if wanted then frame.now ∷ [] else [])) }
{
    if wanted {
        return lines.arrow(alloc, fate, frame);
    }
    Ok(())
}

/// Adds the arrows of those of these messages that wait.
pub fn add_waiting(
    alloc: Global,
    world: &World,
    lines: &mut Lines,
    fate: Fate,
    which: &Which,
) -> Result<(), AllocError>
    ensures { OnOk result (lines.new ≡ lines.old ++ arrows fate which.now (run_of world.now).mail) }
{
    let sent = world.sent();
    for number in 0..sent.len() {
        let frame = &sent[number];
        let wanted = is_waiting(world, which, number, frame);
        add_arrow(alloc, lines, fate, frame, wanted)?;
    }
    Ok(())
}

/// Applies a line that delivers and loses no message, and adds what this shows.
fn apply<H: Hasher16, R: Threads + Sync>(
    rt: &R,
    alloc: Global,
    hasher: &mut H,
    world: &mut World,
    lines: &mut Lines,
    event: &ScheduleEvent,
) -> Result<(), WorldError>
    requires { MayStand (length world.old.peers.items) event.now }
    ensures reaches { Reaches (account H.kept H.clashes H.fulls hasher.old) (applied event.now (run_of world.old)) result (run_of world.new) (account H.kept H.clashes H.fulls hasher.new) }
    ensures begins { Begins world.old world.new }
    ensures lines { OnOk result (lines.new ≡ lines.old ++ step_lines_if (stepper_of event.now) (run_of world.old) (applied event.now (run_of world.old))) }
{
    let Some(peer) = stepped_by(event) else {
        return world.apply(rt, alloc, event, hasher);
    };
    let before = Before::of(world, peer);
    world.apply(rt, alloc, event, hasher)?;
    add_step(alloc, world, lines, &before)?;
    Ok(())
}

/// Applies a line of a schedule, and adds what this shows.
pub fn draw<H: Hasher16, R: Threads + Sync>(
    rt: &R,
    alloc: Global,
    hasher: &mut H,
    world: &mut World,
    lines: &mut Lines,
    event: &ScheduleEvent,
) -> Result<(), WorldError>
    requires { MayStand (length world.old.peers.items) event.now }
    ensures reaches { Reaches (account H.kept H.clashes H.fulls hasher.old) (applied event.now (run_of world.old)) result (run_of world.new) (account H.kept H.clashes H.fulls hasher.new) }
    ensures begins { Begins world.old world.new }
    ensures lines { OnOk result (lines.new ≡ lines.old ++ effect_lines event.now (run_of world.old)) }
{
    match event {
        ScheduleEvent::Deliver { message } => {
            deliver(rt, alloc, hasher, world, lines, (*message - 1) as usize)?;
            world.count(alloc, event)
        }
        ScheduleEvent::Pass { sender, receiver } => {
            pass(rt, alloc, hasher, world, lines, *sender, *receiver)?;
            world.count(alloc, event)
        }
        ScheduleEvent::Lose { sender, receiver } => {
            let which = Which::Between {
                from: *sender,
                to: *receiver,
            };
            add_waiting(alloc, world, lines, Fate::Missed, &which)?;
            world.apply(rt, alloc, event, hasher)
        }
        ScheduleEvent::Calm => {
            calm(rt, alloc, hasher, world, lines, &all_peers())?;
            world.count(alloc, event)
        }
        ScheduleEvent::CalmAmong { members } => {
            calm_among(rt, alloc, hasher, world, lines, members)?;
            world.count(alloc, event)
        }
        _ => apply(rt, alloc, hasher, world, lines, event),
    }
}
