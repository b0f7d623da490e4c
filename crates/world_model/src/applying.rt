ghost use Rattle.std.specs.Prelude.{◌≡◌, IfErr, length};
ghost use Rattle.ens_base.specs.Lists.{is_in};
ghost use Rattle.ens_base.specs.View.{IsPeer};
ghost use Rattle.world_spec.specs.Held.{account};
ghost use Rattle.peer_state.specs.declared.event.Event.TheVariants.{Call};
ghost use Rattle.schedule_text.specs.Spelling.{MayStand};
ghost use Rattle.world_spec.specs.Lines.{applied, call_of, counted, effect, everyone, set_of, stores_effect};
ghost use Rattle.world_spec.specs.Runs.{stepped};
ghost use Rattle.world_model.specs.Turns.{StopsAmong, StopsTurn, turn, turns_of};
ghost use Rattle.world_model.specs.Worlds.{run_of, Adds, Begins, Reaches};

use crate::error::WorldError;
use crate::world::World;
use ens_base::{Command, Key, PeerId, PeerSet};
use hash_book::Hasher16;
use peer_core::{CallIn, Event};
use schedule_text::ScheduleEvent;
use std::alloc::Global;
use std::thread::Threads;

/// The client that makes every call of a schedule.
const CLIENT: u32 = 32;

/// Whether the peer is one of these.
fn is_one_of(members: &[PeerId], peer: PeerId) -> bool
    ensures { result ≡ is_in members.now peer }
{
    members.contains(&peer)
}

/// Returns the set of all peers, 1 to 31.
pub fn all_peers() -> PeerSet
    ensures { result ≡ everyone }
{
    let mut set = PeerSet::empty();
    for number in 1..32 {
        set.insert(PeerId(number));
    }
    set
}

/// Returns the set of these peers.
pub fn set_of_members(members: &[PeerId]) -> PeerSet
    ensures { result ≡ set_of members.now }
{
    let mut set = PeerSet::empty();
    for number in 1..32 {
        if is_one_of(members, PeerId(number)) {
            set.insert(PeerId(number));
        }
    }
    set
}

impl World {
    /// Calls `peer`.
    fn call<H: Hasher16, R: Threads + Sync>(
        &mut self,
        rt: &R,
        alloc: Global,
        hasher: &mut H,
        peer: PeerId,
        id: u64,
        key: &Key,
        command: &Command,
    ) -> Result<(), WorldError>
        requires { IsPeer peer }
        ensures reaches { Reaches (account H.kept H.clashes H.fulls hasher.old)
            (stepped peer (Call (call_of id key.now command.now)) (run_of self.old)) result (run_of self.new)
            (account H.kept H.clashes H.fulls hasher.new) }
        ensures stops { IfErr result (StopsTurn (account H.kept H.clashes H.fulls hasher.old)
            (stepped peer (Call (call_of id key.now command.now)) (run_of self.old))
            (account H.kept H.clashes H.fulls hasher.new)) }
        ensures begins { Begins self.old self.new }
    {
        let call = CallIn {
            from: CLIENT,
            id,
            key: key.copy(alloc)?,
            command: command.copy(alloc)?,
        };
        self.step_peer(rt, alloc, hasher, peer, Event::Call(call))
    }

    /// Applies the effect of a line, without counting it.
    fn effect<H: Hasher16, R: Threads + Sync>(
        &mut self,
        rt: &R,
        alloc: Global,
        hasher: &mut H,
        event: &ScheduleEvent,
    ) -> Result<(), WorldError>
        requires { MayStand (length self.old.peers.items) event.now }
        ensures reaches { Reaches (account H.kept H.clashes H.fulls hasher.old) (effect event.now (run_of self.old)) result (run_of self.new) (account H.kept H.clashes H.fulls hasher.new) }
        ensures stops { IfErr result (StopsAmong (turns_of event.now) (turn event.now) (run_of self.old) (account H.kept H.clashes H.fulls hasher.old) (account H.kept H.clashes H.fulls hasher.new)) }
        ensures begins { Begins self.old self.new }
    {
        match event {
            ScheduleEvent::Call {
                peer,
                id,
                key,
                command,
            } => self.call(rt, alloc, hasher, *peer, *id, key, command),
            ScheduleEvent::Tick { peer, ticks } => self.tick(rt, alloc, hasher, *peer, *ticks),
            ScheduleEvent::Deliver { message } => {
                self.deliver(rt, alloc, hasher, (*message - 1) as usize)
            }
            ScheduleEvent::Pass { sender, receiver } => {
                self.pass(rt, alloc, hasher, *sender, *receiver)
            }
            ScheduleEvent::Lose { sender, receiver } => {
                self.network.lose(*sender, *receiver);
                Ok(())
            }
            ScheduleEvent::Calm => self.calm(rt, alloc, hasher, &all_peers()),
            ScheduleEvent::CalmAmong { members } => {
                self.calm(rt, alloc, hasher, &set_of_members(members.as_slice()))
            }
            ScheduleEvent::Change { peer, view } => {
                self.step_peer(rt, alloc, hasher, *peer, Event::Change(*view))
            }
            ScheduleEvent::Stop { peer } => {
                self.stop(alloc, *peer);
                Ok(())
            }
            ScheduleEvent::Start { peer } => self.start(rt, alloc, hasher, *peer),
            ScheduleEvent::Upgrade { peer } => {
                self.upgrade(*peer);
                Ok(())
            }
            ScheduleEvent::Deepen => {
                self.deepen();
                Ok(())
            }
            ScheduleEvent::Damage { peer, key, bytes } => {
                self.damage(alloc, hasher, *peer, key, bytes)
            }
            _ => self.effect_on_stores(alloc, event),
        }
    }

    /// Applies the effect of a line on the stores of a peer that hashes nothing. Any other line changes
    /// nothing here.
    fn effect_on_stores(&mut self, alloc: Global, event: &ScheduleEvent) -> Result<(), WorldError>
        requires { MayStand (length self.old.peers.items) event.now }
        ensures reaches { Adds (stores_effect event.now (run_of self.old)) result (run_of self.new) }
        ensures begins { Begins self.old self.new }
    {
        match event {
            ScheduleEvent::Spoil { peer, key, bytes } => self.spoil(alloc, *peer, key, bytes),
            ScheduleEvent::Inner {
                peer,
                level,
                index,
                bytes,
            } => self.inner(alloc, *peer, *level, *index, bytes),
            ScheduleEvent::Revert { peer, changes } => {
                self.revert(alloc, *peer, *changes);
                Ok(())
            }
            ScheduleEvent::Fail {
                peer,
                store,
                survivor,
            } => {
                self.fail_next(alloc, *peer, *store, *survivor);
                Ok(())
            }
            _ => Ok(()),
        }
    }

    /// Counts a line whose effect was made by other calls, and the key that it names. Fails when out
    /// of memory.
    pub fn count(&mut self, alloc: Global, event: &ScheduleEvent) -> Result<(), WorldError>
        ensures counted { Adds (counted event.now (run_of self.old)) result (run_of self.new) }
        ensures begins { Begins self.old self.new }
    {
        if let ScheduleEvent::Call { key, .. } = event {
            let key = key.copy(alloc)?;
            self.called.push(key)?;
        }
        self.events = self.events.saturating_add(1);
        Ok(())
    }

    /// Applies one line of a schedule. The world is then the run of all lines applied so far, and
    /// the hasher took the strings that the line hashes, in order.
    ///
    /// # Errors
    ///
    /// `MessageLimit` exactly if the line would send message 500,001, unless the call is cut off
    /// first: `Memory` when out of memory, `Clash` or `BookFull` if the hasher rejected one of the
    /// strings of the line and counted that in this call, after it took those before. Of a rejected
    /// string and message 500,001 the one is reported that comes first: a line is taken turn by turn,
    /// each tick and each delivery of a calm being one, and in a turn all strings are hashed before
    /// its messages are sent. Whatever was sent and printed before the call stays, and may be followed
    /// by a part of what the line sends and prints.
    pub fn apply<H: Hasher16, R: Threads + Sync>(
        &mut self,
        rt: &R,
        alloc: Global,
        event: &ScheduleEvent,
        hasher: &mut H,
    ) -> Result<(), WorldError>
        requires line { MayStand (length self.old.peers.items) event.now }
        ensures reaches { Reaches (account H.kept H.clashes H.fulls hasher.old) (applied event.now (run_of self.old)) result (run_of self.new) (account H.kept H.clashes H.fulls hasher.new) }
        ensures stops { IfErr result (StopsAmong (turns_of event.now) (turn event.now) (run_of self.old) (account H.kept H.clashes H.fulls hasher.old) (account H.kept H.clashes H.fulls hasher.new)) }
        ensures begins { Begins self.old self.new }
    {
        self.effect(rt, alloc, hasher, event)?;
        if let ScheduleEvent::Call { key, .. } = event {
            self.called.push(key.copy(alloc)?)?;
        }
        self.events = self.events.saturating_add(1);
        Ok(())
    }
}
