ghost use Rattle.std.specs.Prelude.{Some, None};
ghost use Rattle.step_plans.specs.Outboxes.{Grows};
ghost use Rattle.leader.specs.Puts.{row_35_reply};
ghost use Rattle.leader.specs.Rounds.{row_29_reply, row_33_reply};
ghost use Rattle.leader.specs.Rules.{lead_row};
ghost use Rattle.leader.specs.Starts.{row_27};
ghost use Rattle.peer_state.specs.Ages.{IsYoung};
ghost use Rattle.peer_spec.specs.Drives.{owned, own_key, followed_up, lead_done, lead, reminded, led_in, get_replied, called};
ghost use Rattle.peer_machine.specs.Outcomes.{Acts};
ghost use Rattle.peer_state.specs.Rows.{changes};

use crate::machine::Machine;
use ens_base::{Entry, Epoch, Key, PeerId, Reply, Version, copy_entry};
use leader_output::{LeadError, LeadOut, Own};
use peer_spec::own_key;
use peer_state::{CallIn, Phase};
use phase_rows::{KeyRule, Seen, Then};
use std::alloc::Global;
use step_plans::{Outbox, PeerError, Store, Task, Tasks};
use stored_formats::{BoxedObject, Change, Fact, Object};
use wire_frames::Message;

impl<S> Machine<S> {
    /// Asks the peer's own tree and backend for a rule of a leader.
    #[tactic(auto, using(peer_spec::proofs::Parts::cut))]
    fn owned<H>(
        &mut self,
        hasher: &mut H,
        alloc: Global,
        out: &Outbox,
        own: &Own,
    ) -> Result<Seen, PeerError>
    where
        S: Store<H>,
        ensures { Acts S.does S.refuses (owned own.now) self.old hasher.old out.now result self.new hasher.new out.now }
    {
        match own {
            Own::Fetch(key) => self.fetched(hasher, alloc, out, key),
            Own::Look(key) => self.looked(hasher, alloc, out, key),
            Own::Put(object) => self.written(hasher, alloc, out, object),
        }
    }

    /// Applies what follows the messages and notes of a rule of a leader.
    #[tactic(auto, using(peer_spec::proofs::Parts::cut))]
    fn follow_up<H>(
        &mut self,
        hasher: &mut H,
        alloc: Global,
        out: &mut Outbox,
        me: PeerId,
        own: Option<Own>,
        then: Then,
        keys: Vec<Key>,
    ) -> Result<Tasks, PeerError>
    where
        S: Store<H>,
        ensures acts { Acts S.does S.refuses (followed_up me own then keys.items) self.old hasher.old out.old result self.new hasher.new out.new }
        ensures grows { Grows out.old out.new }
    {
        match own {
            None => {
                self.state.turn(alloc, out, me, then)?;
                Ok(Tasks::keyed(alloc, then, keys)?)
            }
            Some(own) => {
                let seen = self.owned(hasher, alloc, out, &own)?;
                Ok(Tasks::again(alloc, own.asked_by(), own_key(&own), seen)?)
            }
        }
    }

    /// Applies the whole row of a rule of a leader, and returns the tasks that follow.
    #[tactic(auto, using(peer_spec::proofs::Parts::cut, step_plans::proofs::Parts::noted_runs))]
    fn lead_done<H>(
        &mut self,
        hasher: &mut H,
        alloc: Global,
        out: &mut Outbox,
        me: PeerId,
        row: LeadOut,
    ) -> Result<Tasks, PeerError>
    where
        S: Store<H>,
        ensures acts { Acts S.does S.refuses (lead_done me row) self.old hasher.old out.old result self.new hasher.new out.new }
        ensures grows { Grows out.old out.new }
    {
        let LeadOut {
            leave,
            sends,
            answers,
            notes,
            own,
            then,
            keys,
        } = row;
        out.note_all(notes.into_vec())?;
        self.state.leave(alloc, out, leave)?;
        out.answer_all(answers.into_vec())?;
        out.send_all(sends.into_vec())?;
        let tasks = self.follow_up(hasher, alloc, out, me, own, then, keys.into_vec())?;
        Ok(tasks)
    }

    /// Runs a rule on a key, if the peer leads.
    #[tactic(auto, using(peer_spec::proofs::Parts::cut))]
    #[inline(never)]
    pub(crate) fn key_done<H>(
        &mut self,
        hasher: &mut H,
        alloc: Global,
        out: &mut Outbox,
        me: PeerId,
        rule: KeyRule,
        key: &Key,
        seen: &Seen,
    ) -> Result<Tasks, PeerError>
    where
        S: Store<H>,
        ensures acts { Acts S.does S.refuses (λ x o next. lead (lead_row rule key.now seen.now) me x.phase x o next) self.old hasher.old out.old result self.new hasher.new out.new }
        ensures grows { Grows out.old out.new }
    {
        match &mut self.state.phase {
            Phase::Leading(leadership) => {
                let row = leadership.leader.rule(alloc, rule, key, seen)?;
                self.lead_done(hasher, alloc, out, me, row)
            }
            _ => Ok(Tasks::none(alloc)),
        }
    }

    /// Rule 29: counts a reply whose object the entry names.
    #[tactic(auto, using(peer_spec::proofs::Parts::cut))]
    fn count_get_reply<H>(
        &mut self,
        hasher: &mut H,
        alloc: Global,
        out: &mut Outbox,
        me: PeerId,
        from: PeerId,
        ballot: Epoch,
        round: u64,
        key: &Key,
        entry: Option<Entry>,
        object: Option<Object>,
    ) -> Result<Tasks, PeerError>
    where
        S: Store<H>,
        ensures acts { Acts S.does S.refuses (λ x o next. lead (row_29_reply from ballot round key.now entry object)
            me x.phase x o next) self.old hasher.old out.old result self.new hasher.new out.new }
        ensures grows { Grows out.old out.new }
    {
        match &mut self.state.phase {
            Phase::Leading(leadership) => {
                let row = leadership
                    .leader
                    .rule_29_reply(alloc, from, ballot, round, key, entry, object)?;
                self.lead_done(hasher, alloc, out, me, row)
            }
            _ => Ok(Tasks::none(alloc)),
        }
    }

    /// Rule 29: counts a GetReply at a leader.
    #[tactic(auto, using(peer_spec::proofs::Parts::cut))]
    #[inline(never)]
    pub(crate) fn get_reply<H>(
        &mut self,
        hasher: &mut H,
        alloc: Global,
        out: &mut Outbox,
        me: PeerId,
        from: PeerId,
        ballot: Epoch,
        round: u64,
        key: &Key,
        entry: &Option<Entry>,
        object: &Option<BoxedObject>,
    ) -> Result<Tasks, PeerError>
    where
        S: Store<H>,
        ensures acts { Acts S.does S.refuses (get_replied me from ballot round key.now entry.now object.now) self.old hasher.old out.old result self.new hasher.new out.new }
        ensures grows { Grows out.old out.new }
    {
        let named = self.confirmed(hasher, alloc, out, entry, object)?;
        let entry = copy_entry(alloc, entry)?;
        let tasks = self.count_get_reply(
            hasher, alloc, out, me, from, ballot, round, key, entry, named,
        )?;
        Ok(tasks)
    }

    /// Rule 35: counts a PutReply, if the peer leads.
    #[tactic(auto, using(peer_spec::proofs::Parts::cut))]
    #[inline(never)]
    pub(crate) fn put_reply<H>(
        &mut self,
        hasher: &mut H,
        alloc: Global,
        out: &mut Outbox,
        me: PeerId,
        from: PeerId,
        ballot: Epoch,
        key: &Key,
        version: Version,
    ) -> Result<Tasks, PeerError>
    where
        S: Store<H>,
        ensures acts { Acts S.does S.refuses (λ x o next. lead (row_35_reply from ballot key.now version) me x.phase x o next) self.old hasher.old out.old result self.new hasher.new out.new }
        ensures grows { Grows out.old out.new }
    {
        match &mut self.state.phase {
            Phase::Leading(leadership) => {
                let row = leadership
                    .leader
                    .rule_35_reply(alloc, from, ballot, key, version)?;
                self.lead_done(hasher, alloc, out, me, row)
            }
            _ => Ok(Tasks::none(alloc)),
        }
    }

    /// Rule 33: counts a CheckReply, if the peer leads.
    #[tactic(auto, using(peer_spec::proofs::Parts::cut))]
    #[inline(never)]
    pub(crate) fn check_reply<H>(
        &mut self,
        hasher: &mut H,
        alloc: Global,
        out: &mut Outbox,
        me: PeerId,
        from: PeerId,
        ballot: Epoch,
        round: u64,
    ) -> Result<Tasks, PeerError>
    where
        S: Store<H>,
        ensures acts { Acts S.does S.refuses (λ x o next. lead (row_33_reply from ballot round) me x.phase x o next) self.old hasher.old out.old result self.new hasher.new out.new }
        ensures grows { Grows out.old out.new }
    {
        match &mut self.state.phase {
            Phase::Leading(leadership) => {
                let row = leadership.leader.rule_33_reply(alloc, from, ballot, round)?;
                self.lead_done(hasher, alloc, out, me, row)
            }
            _ => Ok(Tasks::none(alloc)),
        }
    }

    /// Rule 27: a leader takes a call.
    #[tactic(auto, using(peer_spec::proofs::Parts::cut))]
    fn take_call<H>(
        &mut self,
        hasher: &mut H,
        alloc: Global,
        out: &mut Outbox,
        me: PeerId,
        call: &CallIn,
        finishing: bool,
    ) -> Result<Tasks, PeerError>
    where
        S: Store<H>,
        ensures acts { Acts S.does S.refuses (λ x o next. lead
            (row_27 call.now.from call.now.id call.now.key call.now.command finishing) me x.phase x o next) self.old
            hasher.old out.old result self.new hasher.new out.new }
        ensures grows { Grows out.old out.new }
    {
        match &mut self.state.phase {
            Phase::Leading(leadership) => {
                let row = leadership.leader.rule_27(
                    alloc,
                    call.from,
                    call.id,
                    call.key.copy(alloc)?,
                    call.command.copy(alloc)?,
                    finishing,
                )?;
                self.lead_done(hasher, alloc, out, me, row)
            }
            _ => Ok(Tasks::none(alloc)),
        }
    }

    /// Rule 27: a call. A peer that does not lead answers `unavailable`.
    #[tactic(auto, using(peer_spec::proofs::Parts::cut))]
    #[inline(never)]
    pub(crate) fn call<H>(
        &mut self,
        hasher: &mut H,
        alloc: Global,
        out: &mut Outbox,
        me: PeerId,
        call: &CallIn,
    ) -> Result<Tasks, PeerError>
    where
        S: Store<H>,
        ensures acts { Acts S.does S.refuses (called me call.now) self.old hasher.old out.old result self.new hasher.new out.new }
        ensures grows { Grows out.old out.new }
    {
        if self.state.phase.leads() {
            let finishing = self.state.phase.changes();
            self.take_call(hasher, alloc, out, me, call, finishing)
        } else {
            out.answer(call.from, call.id, Reply::Unavailable)?;
            Ok(Tasks::none(alloc))
        }
    }

    /// Rule 5: a tick of a leader. Its calls come first, and the rest once their keys have gone on.
    #[tactic(auto, using(peer_spec::proofs::Parts::cut))]
    #[inline(never)]
    pub(crate) fn tick_leading<H>(
        &mut self,
        hasher: &mut H,
        alloc: Global,
        out: &mut Outbox,
        me: PeerId,
    ) -> Result<Tasks, PeerError>
    where
        S: Store<H>,
        requires young { IsYoung self.old.state.phase }
        ensures acts { Acts S.does S.refuses (λ x o next. led_in me x.phase x o next) self.old hasher.old out.old result self.new hasher.new out.new }
        ensures grows { Grows out.old out.new }
    {
        let fact = self.state.fact;
        match &mut self.state.phase {
            Phase::Leading(leadership) => {
                let row = leadership.rule_5_calls(alloc, &fact)?;
                let first = self.lead_done(hasher, alloc, out, me, row)?;
                let mut tasks = Tasks::none(alloc);
                tasks.put_first(Task::Remind)?;
                tasks.put_all(first)?;
                Ok(tasks)
            }
            _ => Ok(Tasks::none(alloc)),
        }
    }

    /// Rule 5 (d) and (e), in a leader: sends each other member one message, and begins a change that is
    /// wanted.
    #[tactic(auto, using(peer_spec::proofs::Parts::cut))]
    #[inline(never)]
    pub(crate) fn remind<H>(
        &mut self,
        hasher: &H,
        alloc: Global,
        out: &mut Outbox,
    ) -> Result<Tasks, PeerError>
    where
        S: Store<H>,
        ensures acts { Acts S.does S.refuses (λ x o next. reminded x.phase x o next) self.old hasher.now out.old result self.new hasher.now out.new }
        ensures grows { Grows out.old out.new }
    {
        let fact = self.state.fact;
        match &mut self.state.phase {
            Phase::Leading(leadership) => {
                out.send_all(leadership.ticks(alloc, &fact)?)?;
                let then = leadership.wish();
                Ok(Tasks::named(alloc, then)?)
            }
            _ => Ok(Tasks::none(alloc)),
        }
    }
}
