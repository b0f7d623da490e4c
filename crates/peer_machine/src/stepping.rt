ghost use Rattle.std.specs.Prelude.{◌≡◌, ◌≤◌, ◌+◌, [], true, false, length, OnOk, IfOk, IsErrOf};
ghost use Rattle.ens_base.specs.View.{IsPeer};
ghost use Rattle.wire_frames.specs.Messages.{Obeys};
ghost use Rattle.step_plans.specs.Outboxes.{Grows, room, spare};
ghost use Rattle.step_plans.specs.Steps.{Steps};
ghost use Rattle.peer_state.specs.Ages.{IsYoung, is_young};
ghost use Rattle.peer_spec.specs.Drives.{ticked, shown, got, after_put, put_done, put_in, delivered, first, responded, concluded, whole, step_of, MayCome, most_turns};
ghost use Rattle.peer_state.specs.Moves.{waits};
ghost use Rattle.peer_state.specs.NoAllocation.{IsAllocationFree, IsAllocationFreeMessage, IsSteady};
ghost use Rattle.peer_machine.specs.Outcomes.{Acts};
ghost use Rattle.peer_spec.specs.Owns.{looked, found};

use crate::machine::Machine;
use ens_base::{Epoch, Key, PeerId};
use peer_spec::after_put;
use peer_state::{Event, Phase};
use phase_rows::{PhaseOut, PhaseRule, Seen, Then};
use phase_rules::is_served;
use std::alloc::Global;
use std::thread::Threads;
use step_plans::{Outbox, PeerError, Store, Task, Tasks};
use stored_formats::{Change, Fact, Object};
use wire_frames::Message;

/// A number of tasks that no step reaches.
#[tactic(auto, unfolding(peer_spec::specs::Drives::most_turns))]
fn most_turns() -> u64
    ensures { result ≡ most_turns }
{
    u64::MAX
}

impl<S> Machine<S> {
    /// Rules 2 to 5: a tick.
    #[tactic(auto, using(peer_spec::proofs::Parts::cut))]
    fn tick<H, R: Threads + Sync>(
        &mut self,
        hasher: &mut H,
        rt: &R,
        alloc: Global,
        out: &mut Outbox,
        me: PeerId,
    ) -> Result<Tasks, PeerError>
    where
        S: Store<H>,
        requires me { IsPeer me }
        requires young { IsYoung self.old.state.phase }
        ensures acts { Acts S.does S.refuses (λ x o next. ticked me x.phase x o next) self.old hasher.old out.old result self.new hasher.new out.new }
        ensures grows { Grows out.old out.new }
    {
        if self.state.phase.leads() {
            self.tick_leading(hasher, alloc, out, me)
        } else {
            let row = self.state.age(me);
            self.row_done(hasher, rt, alloc, out, me, row)
        }
    }

    /// Reads the path of the key by rule 21, if the request is served.
    #[tactic(auto, using(peer_spec::proofs::Parts::cut))]
    fn show<H>(
        &mut self,
        hasher: &mut H,
        alloc: Global,
        out: &Outbox,
        served: bool,
        key: &Key,
    ) -> Result<Seen, PeerError>
    where
        S: Store<H>,
        ensures acts { Acts S.does S.refuses (shown served (looked key.now)) self.old hasher.old out.now result self.new hasher.new out.now }
    {
        if served {
            self.looked(hasher, alloc, out, key)
        } else {
            Ok(Seen::Nothing)
        }
    }

    /// Reads the path of the key by rule 22, if the request is served.
    #[tactic(auto, using(peer_spec::proofs::Parts::cut))]
    fn show_entry<H>(
        &mut self,
        hasher: &mut H,
        alloc: Global,
        out: &Outbox,
        served: bool,
        key: &Key,
    ) -> Result<Seen, PeerError>
    where
        S: Store<H>,
        ensures acts { Acts S.does S.refuses (shown served (found key.now)) self.old hasher.old out.now result self.new hasher.new out.now }
    {
        if served {
            self.found(hasher, alloc, out, key)
        } else {
            Ok(Seen::Nothing)
        }
    }

    /// Rule 21: a leader asks what the peer has under a key.
    #[tactic(auto, using(peer_spec::proofs::Parts::cut))]
    fn get<H, R: Threads + Sync>(
        &mut self,
        hasher: &mut H,
        rt: &R,
        alloc: Global,
        out: &mut Outbox,
        me: PeerId,
        from: PeerId,
        ballot: Epoch,
        round: u64,
        key: &Key,
    ) -> Result<Tasks, PeerError>
    where
        S: Store<H>,
        requires me { IsPeer me }
        requires from { IsPeer from }
        ensures acts { Acts S.does S.refuses (got me from ballot round key.now) self.old hasher.old out.old result self.new hasher.new out.new }
        ensures grows { Grows out.old out.new }
    {
        let served = is_served(&self.state.fact, self.state.trusted, ballot);
        let seen = self.show(hasher, alloc, out, served, key)?;
        let key = key.copy(alloc)?;
        let row = self.state.rule_21(from, ballot, round, key, seen)?;
        let tasks = self.row_done(hasher, rt, alloc, out, me, row)?;
        Ok(tasks)
    }

    /// Writes the object of a put, and answers.
    #[tactic(auto, using(peer_spec::proofs::Parts::cut))]
    fn write_put<H, R: Threads + Sync>(
        &mut self,
        hasher: &mut H,
        rt: &R,
        alloc: Global,
        out: &mut Outbox,
        me: PeerId,
        from: PeerId,
        ballot: Epoch,
        object: &Object,
        row: PhaseOut,
    ) -> Result<Tasks, PeerError>
    where
        S: Store<H>,
        requires me { IsPeer me }
        requires from { IsPeer from }
        ensures acts { Acts S.does S.refuses (put_done Then.Put me from ballot object.now row) self.old hasher.old out.old result self.new hasher.new out.new }
        ensures grows { Grows out.old out.new }
    {
        match self.written(hasher, alloc, out, object) {
            Ok(seen) => self.row_done(
                hasher,
                rt,
                alloc,
                out,
                me,
                after_put(from, ballot, row, seen),
            ),
            Err(error) => Err(error),
        }
    }

    /// Answers a put, after the object was written if the answer asks for that.
    #[tactic(auto, using(peer_spec::proofs::Parts::cut))]
    fn put_done<H, R: Threads + Sync>(
        &mut self,
        hasher: &mut H,
        rt: &R,
        alloc: Global,
        out: &mut Outbox,
        me: PeerId,
        from: PeerId,
        ballot: Epoch,
        object: &Object,
        row: PhaseOut,
    ) -> Result<Tasks, PeerError>
    where
        S: Store<H>,
        requires me { IsPeer me }
        requires from { IsPeer from }
        ensures acts { Acts S.does S.refuses (put_done row.then me from ballot object.now row) self.old hasher.old out.old result self.new hasher.new out.new }
        ensures grows { Grows out.old out.new }
    {
        match row.then {
            Then::Put => self.write_put(hasher, rt, alloc, out, me, from, ballot, object, row),
            _ => self.row_done(hasher, rt, alloc, out, me, row),
        }
    }

    /// Rule 22: a leader asks the peer to write an object.
    #[tactic(auto, using(peer_spec::proofs::Parts::cut))]
    fn put_in<H, R: Threads + Sync>(
        &mut self,
        hasher: &mut H,
        rt: &R,
        alloc: Global,
        out: &mut Outbox,
        me: PeerId,
        from: PeerId,
        ballot: Epoch,
        object: &Object,
    ) -> Result<Tasks, PeerError>
    where
        S: Store<H>,
        requires me { IsPeer me }
        requires from { IsPeer from }
        ensures acts { Acts S.does S.refuses (put_in me from ballot object.now) self.old hasher.old out.old result self.new hasher.new out.new }
        ensures grows { Grows out.old out.new }
    {
        let served = is_served(&self.state.fact, self.state.trusted, ballot);
        let seen = self.show_entry(hasher, alloc, out, served, &object.key)?;
        let row = self.state.rule_22(alloc, from, ballot, object, seen)?;
        let tasks = self.put_done(hasher, rt, alloc, out, me, from, ballot, object, row)?;
        Ok(tasks)
    }

    /// Applies the row for a message.
    #[tactic(auto, using(peer_spec::proofs::Parts::cut))]
    fn deliver<H, R: Threads + Sync>(
        &mut self,
        hasher: &mut H,
        rt: &R,
        alloc: Global,
        out: &mut Outbox,
        me: PeerId,
        from: PeerId,
        message: &Message,
    ) -> Result<Tasks, PeerError>
    where
        S: Store<H>,
        requires me { IsPeer me }
        requires from { IsPeer from }
        requires obeys { Obeys message.now }
        ensures acts { Acts S.does S.refuses (delivered me from message.now) self.old hasher.old out.old result self.new hasher.new out.new }
        ensures grows { Grows out.old out.new }
        ensures names { IsAllocationFreeMessage message.now → IfOk result (λ tasks. tasks ≡ []) }
        ensures fits { IsAllocationFreeMessage message.now → waits self.old.state.phase ≡ false → 1 ≤ spare out.old → ¬ IsErrOf result PeerError.Memory }
    {
        match message {
            Message::Get(ballot, round, key) => {
                self.get(hasher, rt, alloc, out, me, from, *ballot, *round, key)
            }
            Message::Put(ballot, object) => {
                self.put_in(hasher, rt, alloc, out, me, from, *ballot, object)
            }
            Message::GetReply(ballot, round, key, entry, object) => {
                if self.state.phase.leads() {
                    self.get_reply(
                        hasher, alloc, out, me, from, *ballot, *round, key, entry, object,
                    )
                } else {
                    Ok(Tasks::none(alloc))
                }
            }
            Message::PutReply(ballot, key, version) => {
                self.put_reply(hasher, alloc, out, me, from, *ballot, key, *version)
            }
            Message::CheckReply(ballot, round) => {
                self.check_reply(hasher, alloc, out, me, from, *ballot, *round)
            }
            Message::TreeAsk(ballot, at, after) => {
                self.ask_in_tree(hasher, rt, alloc, out, me, from, *ballot, *at, after)
            }
            Message::TreeGive(ballot, at, after, trusted, body) => {
                self.give_in_tree(
                    hasher, rt, alloc, out, me, from, *ballot, *at, after, *trusted, body,
                )
            }
            _ => {
                let row = self.state.receive(me, from, message);
                self.row_done(hasher, rt, alloc, out, me, row)
            }
        }
    }

    /// Applies the row for an event.
    #[tactic(auto, using(peer_spec::proofs::Parts::cut))]
    fn first<H, R: Threads + Sync>(
        &mut self,
        hasher: &mut H,
        rt: &R,
        alloc: Global,
        out: &mut Outbox,
        me: PeerId,
        event: &Event,
    ) -> Result<Tasks, PeerError>
    where
        S: Store<H>,
        requires me { IsPeer me }
        requires come { MayCome me event.now }
        requires young { IsYoung self.old.state.phase }
        ensures acts { Acts S.does S.refuses (first me event.now) self.old hasher.old out.old result self.new hasher.new out.new }
        ensures grows { Grows out.old out.new }
        ensures names { IsAllocationFree event.now → IfOk result (λ tasks. tasks ≡ []) }
        ensures fits { IsAllocationFree event.now → waits self.old.state.phase ≡ false → 1 ≤ spare out.old → ¬ IsErrOf result PeerError.Memory }
    {
        match event {
            Event::Deliver(from, message) => self.deliver(
                hasher, rt, alloc, out, me, *from, message,
            ),
            Event::Tick => self.tick(hasher, rt, alloc, out, me),
            Event::Call(call) => self.call(hasher, alloc, out, me, call),
            Event::Change(view) => {
                let (row, taken) = self.state.ask_change(*view);
                out.tell_change(taken)?;
                self.row_done(hasher, rt, alloc, out, me, row)
            }
        }
    }

    /// Applies the row for an event, and runs the rules that follow from it.
    #[tactic(auto, using(peer_spec::proofs::Parts::cut))]
    fn respond<H, R: Threads + Sync>(
        &mut self,
        hasher: &mut H,
        rt: &R,
        alloc: Global,
        out: &mut Outbox,
        me: PeerId,
        event: &Event,
    ) -> Result<(), PeerError>
    where
        S: Store<H>,
        requires me { IsPeer me }
        requires come { MayCome me event.now }
        requires young { IsYoung self.old.state.phase }
        ensures acts { Acts S.does S.refuses (responded me event.now) self.old hasher.old out.old result self.new hasher.new out.new }
        ensures grows { Grows out.old out.new }
        ensures fits { IsAllocationFree event.now → waits self.old.state.phase ≡ false → 1 ≤ spare out.old → ¬ IsErrOf result PeerError.Memory }
    {
        let tasks = self.first(hasher, rt, alloc, out, me, event)?;
        self.drive(hasher, rt, alloc, out, me, most_turns(), tasks)?;
        Ok(())
    }

    /// Rule 6: at the end of each step, a leader may end its epoch. A peer that changes no view has
    /// nothing to end.
    #[tactic(auto, using(peer_spec::proofs::Parts::cut))]
    fn conclude<H, R: Threads + Sync>(
        &mut self,
        hasher: &mut H,
        rt: &R,
        alloc: Global,
        out: &mut Outbox,
        me: PeerId,
    ) -> Result<(), PeerError>
    where
        S: Store<H>,
        requires me { IsPeer me }
        ensures acts { Acts S.does S.refuses (concluded me) self.old hasher.old out.old result self.new hasher.new out.new }
        ensures grows { Grows out.old out.new }
        ensures fits { IsSteady self.old.state → ¬ IsErrOf result PeerError.Memory }
    {
        if !self.state.phase.changes() {
            return Ok(());
        }
        self.end_epoch(hasher, rt, alloc, out, me)
    }

    /// Rule 26: the epoch of a leader may end.
    #[tactic(auto, using(peer_spec::proofs::Parts::cut))]
    #[inline(never)]
    fn end_epoch<H, R: Threads + Sync>(
        &mut self,
        hasher: &mut H,
        rt: &R,
        alloc: Global,
        out: &mut Outbox,
        me: PeerId,
    ) -> Result<(), PeerError>
    where
        S: Store<H>,
        requires me { IsPeer me }
        ensures acts { Acts S.does S.refuses (concluded me) self.old hasher.old out.old result self.new hasher.new out.new }
        ensures grows { Grows out.old out.new }
        ensures fits { IsSteady self.old.state → ¬ IsErrOf result PeerError.Memory }
    {
        let tasks = self.task_done(hasher, rt, alloc, out, me, Task::Phase(PhaseRule::EndEpoch))?;
        self.drive(hasher, rt, alloc, out, me, most_turns(), tasks)?;
        Ok(())
    }

    /// Takes a whole step.
    #[tactic(auto, using(peer_spec::proofs::Parts::cut))]
    fn whole<H, R: Threads + Sync>(
        &mut self,
        hasher: &mut H,
        rt: &R,
        alloc: Global,
        out: &mut Outbox,
        me: PeerId,
        event: &Event,
    ) -> Result<(), PeerError>
    where
        S: Store<H>,
        requires me { IsPeer me }
        requires come { MayCome me event.now }
        requires young { IsYoung self.old.state.phase }
        ensures acts { Acts S.does S.refuses (whole me event.now) self.old hasher.old out.old result self.new hasher.new out.new }
        ensures grows { Grows out.old out.new }
        ensures fits { IsAllocationFree event.now → waits self.old.state.phase ≡ false → IsSteady self.old.state → 1 ≤ spare out.old → ¬ IsErrOf result PeerError.Memory }
    {
        self.respond(hasher, rt, alloc, out, me, event)?;
        self.conclude(hasher, rt, alloc, out, me)?;
        Ok(())
    }

    /// Takes a step of the peer `me`, 1 to 31, on an event. Its messages, answers, notes and replies
    /// to requests to change the view are added to the end of the outbox.
    ///
    /// # Errors
    ///
    /// An error of a call of the stores, or `Memory`. Everything that the step added to the outbox
    /// is removed, except its notes, and the stores are as the step left them.
    pub fn step<H, R: Threads + Sync>(
        &mut self,
        hasher: &mut H,
        rt: &R,
        alloc: Global,
        out: &mut Outbox,
        me: PeerId,
        event: &Event,
    ) -> Result<(), PeerError>
    where
        S: Store<H>,
        requires me { IsPeer me }
        requires come { MayCome me event.now }
        requires young { is_young self.old.state.phase ≡ true }
        requires steady { IsSteady self.old.state }
        ensures steps { Steps S.does S.refuses (step_of me event.now self.old.state) (self.old.stores, hasher.old) out.old result self.new.state (self.new.stores, hasher.new) out.new }
        ensures young { OnOk result (is_young self.new.state.phase ≡ true) }
        ensures steady { OnOk result (IsSteady self.new.state) }
        ensures one { IsAllocationFree event.now → length out.new.sends.items ≤ length out.old.sends.items + 1 }
        ensures no_allocation { IsAllocationFree event.now → waits self.old.state.phase ≡ false → 1 ≤ spare out.old → ¬ IsErrOf result PeerError.Memory }
        ensures room { room out.old ≤ room out.new }
    {
        let mark = out.mark();
        match self.whole(hasher, rt, alloc, out, me, event) {
            Ok(()) => Ok(()),
            Err(error) => {
                out.cut_back(mark);
                Err(error)
            }
        }
    }
}
