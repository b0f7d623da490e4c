ghost use Rattle.std.specs.Prelude.{◌≡◌, IfOk, OnOk, Some};
ghost use Rattle.call_table.specs.Best.{better as greatest_of};
ghost use Rattle.call_table.specs.Rows.{check_at};
ghost use Rattle.call_table.specs.declared.row.Stage.TheVariants.{Reading};
ghost use Rattle.quorums.specs.Rounds.{begun, state_of};
ghost use Rattle.quorums.specs.declared.round.RoundState.TheVariants.{AllAnswered};
ghost use Rattle.leader.specs.Leaders.{stands};
ghost use Rattle.phase_rows.specs.declared.phase.Seen.TheVariants as seens;
ghost use Rattle.leader_output.specs.ObjectCommands.{verdict_of};
ghost use Rattle.register_model.specs.Registers.{outcome};
ghost use Rattle.leader.specs.Rounds.{
  counts,
  asked,
  row_29,
  heard,
  row_29_reply,
  without_object,
  on_found,
  on_greatest,
  on_best,
  by_state,
  gathered,
  row_30,
  begins_check,
  check_now,
  checked_for,
  row_33,
  goes_on_checking,
  stood,
  stood_at,
  row_33_reply,
  register_at,
  applied_for,
  row_34,
};

use crate::leader::{Leader, is_last, settled_known};
use crate::pending::Pending;
use call_table::{Found, Known, Stage, Waiting, better};
use ens_base::{Command, Entry, Epoch, Key, PeerId, Reply, copy_entry};
use leader_output::{LeadError, LeadOut, Object, Own, Verdict, apply, on_any};
use phase_rows::{BoxedObject, Change, Fact, KeyRule, Message, Seen, Then};
use quorums::{Round, RoundState};
use std::alloc::Global;

/// Applies the command to the settled object. `None` means that the key is absent.
fn verdict_at(
    alloc: Global,
    command: &Command,
    current: &Option<Object>,
) -> Result<Verdict, LeadError>
    ensures { IfOk result (λ v. v ≡ verdict_of (outcome command.now (register_at current.now))) }
{
    match current {
        None => Ok(apply(alloc, command, None)?),
        Some(object) => Ok(apply(alloc, command, Some(object))?),
    }
}

/// A copy of the object, off the heap.
fn unboxed(alloc: Global, object: &Option<BoxedObject>) -> Result<Option<Object>, LeadError>
    ensures { IfOk result (λ o. o ≡ object.now) }
{
    match object {
        None => Ok(None),
        Some(object) => Ok(Some(object.get().copy(alloc)?)),
    }
}

impl Leader {
    /// Whether a reply with this ballot and round answers the question of round `asked`.
    fn counts(&self, ballot: Epoch, round: u64, asked: u64) -> bool
        ensures { result ≡ counts ballot round asked self.now }
    {
        ballot == self.fact.epoch && round == asked
    }

    fn ask_own(&mut self, alloc: Global, key: &Key) -> Result<LeadOut, LeadError>
        ensures { IfOk result (λ o. (self.new, o) ≡ asked seens.Nothing key.now self.old) }
    {
        if is_last(self.round) {
            return Ok(LeadOut::leaves(alloc));
        }
        let mut out = LeadOut::rests(alloc);
        out.ask(Own::Look(key.copy(alloc)?));
        self.round += 1;
        Ok(out)
    }

    fn begin_reading(
        &mut self,
        alloc: Global,
        entry: &Option<Entry>,
        object: &Option<BoxedObject>,
        key: &Key,
    ) -> Result<(), LeadError>
        ensures { OnOk result (self.new ≡ stands key.now (Reading self.old.round (begun self.old.fact.views self.old.me) (greatest_of None entry.now object.now)) self.old) }
    {
        let entry = copy_entry(alloc, entry)?;
        let object = unboxed(alloc, object)?;
        let stage = Stage::Reading {
            round: self.round,
            heard: Round::start(self.fact.views, self.me),
            best: better(None, entry, object),
        };
        self.stand(alloc, key, stage)
    }

    fn ask_members(
        &mut self,
        alloc: Global,
        entry: &Option<Entry>,
        object: &Option<BoxedObject>,
        key: &Key,
    ) -> Result<LeadOut, LeadError>
        ensures { IfOk result (λ o. (self.new, o) ≡ asked (seens.Held entry.now object.now) key.now self.old) }
    {
        let mut out = LeadOut::leads_on(alloc, KeyRule::EnoughReplies, key)?;
        let get = Message::Get(self.fact.epoch, self.round, key.copy(alloc)?);
        self.tell_members(alloc, get, &mut out)?;
        self.begin_reading(alloc, entry, object, key)?;
        Ok(out)
    }

    /// Rule 29: reads the key in a new round. The peer's own tree and backend reply first, and then
    /// the other members are asked. If the rounds are spent, the leader steps down. Fails only when
    /// out of memory.
    #[inline(never)]
    pub fn rule_29(&mut self, alloc: Global, key: &Key, seen: &Seen) -> Result<LeadOut, LeadError>
        ensures { IfOk result (λ o. (self.new, o) ≡ row_29 key.now seen.now self.old) }
    {
        match self.running(alloc, key)? {
            None => Ok(LeadOut::rests(alloc)),
            Some(_call) => match seen {
                Seen::Nothing => self.ask_own(alloc, key),
                Seen::Damaged(_) => Ok(LeadOut::comes(alloc, Then::Untrust)),
                Seen::Held { entry, object } => self.ask_members(alloc, entry, object, key),
                _ => Ok(LeadOut::rests(alloc)),
            },
        }
    }

    fn hear(
        &mut self,
        alloc: Global,
        stage: Stage,
        from: PeerId,
        ballot: Epoch,
        round: u64,
        key: &Key,
        entry: Option<Entry>,
        object: Option<Object>,
    ) -> Result<LeadOut, LeadError>
        ensures { IfOk result (λ o. (self.new, o) ≡ heard stage from ballot round key.now entry object self.old) }
    {
        match stage {
            Stage::Reading {
                round: asked,
                heard,
                best,
            } => {
                if !self.counts(ballot, round, asked) {
                    return Ok(LeadOut::rests(alloc));
                }
                let mut heard = heard;
                heard.vote(from);
                let stage = Stage::Reading {
                    round: asked,
                    heard,
                    best: better(best, entry, object),
                };
                self.stand(alloc, key, stage)?;
                LeadOut::leads_on(alloc, KeyRule::EnoughReplies, key)
            }
            _other => Ok(LeadOut::rests(alloc)),
        }
    }

    /// Rule 29, GetReply: counts a reply from `from`. It is ignored unless it names the leader's epoch
    /// and the round in which the key is read. Fails only when out of memory.
    #[inline(never)]
    pub fn rule_29_reply(
        &mut self,
        alloc: Global,
        from: PeerId,
        ballot: Epoch,
        round: u64,
        key: &Key,
        entry: Option<Entry>,
        object: Option<Object>,
    ) -> Result<LeadOut, LeadError>
        ensures { IfOk result (λ o. (self.new, o) ≡ row_29_reply from ballot round key.now entry object self.old) }
    {
        let stage = self.stage(alloc, key)?;
        self.hear(alloc, stage, from, ballot, round, key, entry, object)
    }

    /// Answers the running call of the key `lost`.
    fn answer_lost(
        &mut self,
        alloc: Global,
        call: &Waiting,
        key: &Key,
    ) -> Result<LeadOut, LeadError>
        ensures { IfOk result (λ o. (self.new, o) ≡ without_object AllAnswered call.now key.now self.old) }
    {
        let mut out = LeadOut::rests(alloc);
        self.answer(alloc, call, Reply::Lost, key, &mut out)?;
        Ok(out)
    }

    fn on_found(
        &mut self,
        alloc: Global,
        object: Option<Object>,
        state: RoundState,
        entry: &Entry,
        call: &Waiting,
        key: &Key,
    ) -> Result<LeadOut, LeadError>
        ensures { IfOk result (λ o. (self.new, o) ≡ on_found object state entry.now call.now key.now self.old) }
    {
        match object {
            None => match state {
                RoundState::AllAnswered => self.answer_lost(alloc, call, key),
                _ => Ok(LeadOut::rests(alloc)),
            },
            Some(object) => {
                if entry.version.epoch == self.fact.epoch {
                    let known = settled_known(entry.version, &object, entry.digest);
                    self.know(alloc, key, known)?;
                    self.set_task(Pending::Apply(Some(object)));
                    LeadOut::leads_on(alloc, KeyRule::Apply, key)
                } else {
                    self.set_task(Pending::Rewrite(object));
                    LeadOut::leads_on(alloc, KeyRule::Rewrite, key)
                }
            }
        }
    }

    fn on_greatest(
        &mut self,
        alloc: Global,
        verdict: Option<Verdict>,
        state: RoundState,
        found: Found,
        call: &Waiting,
        key: &Key,
    ) -> Result<LeadOut, LeadError>
        ensures { IfOk result (λ o. (self.new, o) ≡ on_greatest verdict state found call.now key.now self.old) }
    {
        match verdict {
            Some(verdict) => self.decide(alloc, Some(found.entry.version), verdict, key),
            None => {
                let Found { entry, object } = found;
                self.on_found(alloc, object, state, &entry, call, key)
            }
        }
    }

    fn on_best(
        &mut self,
        alloc: Global,
        best: Option<Found>,
        state: RoundState,
        call: &Waiting,
        key: &Key,
    ) -> Result<LeadOut, LeadError>
        ensures { IfOk result (λ o. (self.new, o) ≡ on_best best state call.now key.now self.old) }
    {
        match best {
            None => {
                self.know(alloc, key, Known::Absent)?;
                self.set_task(Pending::Apply(None));
                LeadOut::leads_on(alloc, KeyRule::Apply, key)
            }
            Some(found) => {
                let verdict = on_any(alloc, &call.command)?;
                self.on_greatest(alloc, verdict, state, found, call, key)
            }
        }
    }

    fn by_state(
        &mut self,
        alloc: Global,
        state: RoundState,
        best: Option<Found>,
        call: &Waiting,
        key: &Key,
    ) -> Result<LeadOut, LeadError>
        ensures { IfOk result (λ o. (self.new, o) ≡ by_state state best call.now key.now self.old) }
    {
        match state {
            RoundState::Open => Ok(LeadOut::rests(alloc)),
            state => self.on_best(alloc, best, state, call, key),
        }
    }

    fn gather(
        &mut self,
        alloc: Global,
        stage: Stage,
        call: &Waiting,
        key: &Key,
    ) -> Result<LeadOut, LeadError>
        ensures { IfOk result (λ o. (self.new, o) ≡ gathered stage call.now key.now self.old) }
    {
        match stage {
            Stage::Reading { heard, best, .. } => {
                let state = heard.outcome();
                self.by_state(alloc, state, best, call, key)
            }
            _other => Ok(LeadOut::rests(alloc)),
        }
    }

    /// Rule 30: evaluates the replies of a round of reading. Fails only when out of memory.
    #[inline(never)]
    pub fn rule_30(&mut self, alloc: Global, key: &Key) -> Result<LeadOut, LeadError>
        ensures { IfOk result (λ o. (self.new, o) ≡ row_30 key.now self.old) }
    {
        match self.running(alloc, key)? {
            None => Ok(LeadOut::rests(alloc)),
            Some(call) => {
                let stage = self.stage(alloc, key)?;
                self.gather(alloc, stage, &call, key)
            }
        }
    }

    fn begin_check(
        &mut self,
        alloc: Global,
        heard: Round,
        reply: Reply,
        call: &Waiting,
        key: &Key,
        out: &mut LeadOut,
    ) -> Result<(), LeadError>
        ensures { OnOk result ((self.new, out.new) ≡ begins_check (state_of heard) heard reply call.now key.now out.old self.old) }
    {
        match heard.outcome() {
            RoundState::Open => {
                let round = self.round;
                let stage = Stage::Checking {
                    round,
                    heard,
                    reply,
                };
                self.stand(alloc, key, stage)?;
                self.table.begin_check(round, key.copy(alloc)?)?;
                Ok(())
            }
            _ => self.answer_read(alloc, call, reply, key, out),
        }
    }

    fn check(
        &mut self,
        alloc: Global,
        reply: Reply,
        call: &Waiting,
        key: &Key,
    ) -> Result<LeadOut, LeadError>
        ensures { IfOk result (λ o. (self.new, o) ≡ check_now reply call.now key.now self.old) }
    {
        let mut out = LeadOut::rests(alloc);
        let check = Message::Check(self.fact.epoch, self.round);
        self.tell_members(alloc, check, &mut out)?;
        let heard = Round::start(self.fact.views, self.me);
        self.begin_check(alloc, heard, reply, call, key, &mut out)?;
        Ok(out)
    }

    fn check_for(
        &mut self,
        alloc: Global,
        call: &Waiting,
        task: Pending,
        key: &Key,
    ) -> Result<LeadOut, LeadError>
        ensures { IfOk result (λ o. (self.new, o) ≡ checked_for (Some call.now) task key.now self.old) }
    {
        match task {
            Pending::Check(reply) => {
                if is_last(self.round) {
                    return Ok(LeadOut::leaves(alloc));
                }
                self.round += 1;
                self.check(alloc, reply, call, key)
            }
            _other => Ok(LeadOut::rests(alloc)),
        }
    }

    /// Rule 33: asks the members whether they are still at the epoch, before a reply is given without
    /// a round of reading. If the rounds are spent, the leader steps down. Fails only when out of
    /// memory.
    #[inline(never)]
    pub fn rule_33(&mut self, alloc: Global, key: &Key) -> Result<LeadOut, LeadError>
        ensures { IfOk result (λ o. (self.new, o) ≡ row_33 key.now self.old) }
    {
        let running = self.running(alloc, key)?;
        let task = self.take_task();
        match running {
            None => Ok(LeadOut::rests(alloc)),
            Some(call) => self.check_for(alloc, &call, task, key),
        }
    }

    fn go_on_checking(
        &mut self,
        alloc: Global,
        state: RoundState,
        round: u64,
        heard: Round,
        reply: Reply,
        call: &Waiting,
        key: &Key,
    ) -> Result<LeadOut, LeadError>
        ensures { IfOk result (λ o. (self.new, o) ≡ goes_on_checking state round heard reply call.now key.now self.old) }
    {
        match state {
            RoundState::Open => {
                let stage = Stage::Checking {
                    round,
                    heard,
                    reply,
                };
                self.stand(alloc, key, stage)?;
                Ok(LeadOut::rests(alloc))
            }
            _ => self.end_read(alloc, call, reply, key),
        }
    }

    fn stood(
        &mut self,
        alloc: Global,
        call: &Waiting,
        stage: Stage,
        from: PeerId,
        ballot: Epoch,
        round: u64,
        key: &Key,
    ) -> Result<LeadOut, LeadError>
        ensures { IfOk result (λ o. (self.new, o) ≡ stood (Some call.now) stage from ballot round key.now self.old) }
    {
        match stage {
            Stage::Checking {
                round: asked,
                heard,
                reply,
            } => {
                if !self.counts(ballot, round, asked) {
                    return Ok(LeadOut::rests(alloc));
                }
                let mut heard = heard;
                heard.vote(from);
                let state = heard.outcome();
                self.go_on_checking(alloc, state, asked, heard, reply, call, key)
            }
            _other => Ok(LeadOut::rests(alloc)),
        }
    }

    fn stood_at(
        &mut self,
        alloc: Global,
        key: &Key,
        from: PeerId,
        ballot: Epoch,
        round: u64,
    ) -> Result<LeadOut, LeadError>
        ensures { IfOk result (λ o. (self.new, o) ≡ stood_at (Some key.now) from ballot round self.old) }
    {
        match self.running(alloc, key)? {
            None => Ok(LeadOut::rests(alloc)),
            Some(call) => {
                let stage = self.stage(alloc, key)?;
                self.stood(alloc, &call, stage, from, ballot, round, key)
            }
        }
    }

    fn check_key(&self, alloc: Global, round: u64) -> Result<Option<Key>, LeadError>
        ensures { IfOk result (λ k. k ≡ check_at round self.now.table.checks) }
    {
        match self.table.check_key(round) {
            None => Ok(None),
            Some(key) => Ok(Some(key.copy(alloc)?)),
        }
    }

    /// Rule 33, CheckReply: counts a reply from `from`. It is ignored unless it names the leader's
    /// epoch and a round in which a running call checks. Fails only when out of memory.
    #[inline(never)]
    pub fn rule_33_reply(
        &mut self,
        alloc: Global,
        from: PeerId,
        ballot: Epoch,
        round: u64,
    ) -> Result<LeadOut, LeadError>
        ensures { IfOk result (λ o. (self.new, o) ≡ row_33_reply from ballot round self.old) }
    {
        match self.check_key(alloc, round)? {
            None => Ok(LeadOut::rests(alloc)),
            Some(key) => self.stood_at(alloc, &key, from, ballot, round),
        }
    }

    fn apply_for(
        &mut self,
        alloc: Global,
        call: &Waiting,
        task: Pending,
        key: &Key,
    ) -> Result<LeadOut, LeadError>
        ensures { IfOk result (λ o. (self.new, o) ≡ applied_for (Some call.now) task key.now self.old) }
    {
        match task {
            Pending::Apply(current) => {
                let verdict = verdict_at(alloc, &call.command, &current)?;
                self.conclude(alloc, verdict, call, key)
            }
            _other => Ok(LeadOut::rests(alloc)),
        }
    }

    /// Rule 34: applies the command of the running call to the settled object. Fails only when out of
    /// memory.
    #[inline(never)]
    pub fn rule_34(&mut self, alloc: Global, key: &Key) -> Result<LeadOut, LeadError>
        ensures { IfOk result (λ o. (self.new, o) ≡ row_34 key.now self.old) }
    {
        let running = self.running(alloc, key)?;
        let task = self.take_task();
        match running {
            None => Ok(LeadOut::rests(alloc)),
            Some(call) => self.apply_for(alloc, &call, task, key),
        }
    }
}
