ghost use Rattle.std.specs.Prelude.{◌≡◌, IsOk, OnOk, IfOk, map, false};
ghost use Rattle.ens_base.specs.View.{IsPeer};
ghost use Rattle.leader.specs.declared.pending.Pending.TheVariants as tasks;
ghost use Rattle.leader.specs.Leaders.{new_leader, with_task, knows, stands, base, settled_as, answered, read_answered, decided, concluded, is_spent, next_version};
ghost use Rattle.leader.specs.Ticks.{left_answer};
ghost use Rattle.call_table.specs.Calls.{has_calls, running};
ghost use Rattle.call_table.specs.Rows.{row_at};
ghost use Rattle.leader_output.specs.Outs.{rests, and_note};
ghost use Rattle.leader_output.specs.Sends.{tells_all};
ghost use Rattle.phase_rows.specs.Peers.{joined as with_peer};
ghost use Rattle.register_model.specs.declared.note.Note.TheVariants.{Read};

use crate::pending::Pending;
use call_table::{CallTable, Known, Stage, Waiting};
use ens_base::{Digest, Key, PeerId, PeerSet, Reply, Version};
use leader_output::{AnswerOut, LeadError, LeadOut, Object, Verdict};
use phase_rows::{Change, Fact, KeyRule, Message};
use register_model::Note;
use std::alloc::Global;
use std::mem::replace;

/// A peer that leads the epoch of `fact`.
#[derive(Drop)]
pub struct Leader {
    /// The first fact of the epoch.
    pub(crate) fact: Fact,
    pub(crate) me: PeerId,
    /// The members that accepted the epoch.
    pub(crate) accepts: PeerSet,
    /// The number of the last write.
    pub(crate) seq: u64,
    /// The number of the last round.
    pub(crate) round: u64,
    pub(crate) table: CallTable,
    pub(crate) task: Pending,
}

/// Returns what is known of a key once this object is settled.
pub(crate) fn settled_known(version: Version, object: &Object, digest: Digest) -> Known
    ensures { result ≡ settled_as version object.now digest }
{
    Known::Present {
        version,
        stamp: object.stamp,
        digest,
        tombstone: object.value.is_none(),
    }
}

/// Whether no number follows this one.
pub(crate) fn is_last(number: u64) -> bool
    ensures { result ≡ is_spent number }
{
    number == u64::MAX
}

impl Leader {
    /// Makes the leader of the epoch whose first fact is `fact`. It has no calls and knows nothing
    /// of any key. Takes no memory.
    pub fn new(alloc: Global, fact: Fact, me: PeerId, accepts: PeerSet) -> Leader
        ensures { result ≡ new_leader fact me accepts }
    {
        Leader {
            fact,
            me,
            accepts,
            seq: 0,
            round: 0,
            table: CallTable::new(alloc),
            task: Pending::Nothing,
        }
    }

    /// Returns the first fact of the epoch.
    pub fn fact(&self) -> Fact
        ensures { result ≡ self.now.fact }
    {
        self.fact
    }

    /// Returns the members that accepted the epoch.
    pub fn accepts(&self) -> PeerSet
        ensures { result ≡ self.now.accepts }
    {
        self.accepts
    }

    /// Records that `peer`, a number from 1 to 31, accepted the epoch.
    pub fn accept(&mut self, peer: PeerId)
        requires { IsPeer peer }
        ensures { self.new ≡ record self.old { accepts = with_peer peer self.old.accepts } }
    {
        self.accepts.insert(peer);
    }

    /// Whether any call is unanswered.
    pub fn unanswered(&self) -> bool
        ensures { result ≡ has_calls self.now.table.calls }
    {
        self.table.unanswered()
    }

    /// Steps down: answers every unanswered call `timeout`, in order of arrival. Fails only when out
    /// of memory, and never if no call is unanswered.
    pub fn leave(self, alloc: Global) -> Result<Vec<AnswerOut>, LeadError>
        ensures answers { IfOk result (λ v. v.items ≡ map left_answer self.table.calls) }
        ensures none { has_calls self.table.calls ≡ false → IsOk result }
    {
        let Leader {
            fact: _,
            me: _,
            accepts: _,
            seq: _,
            round: _,
            table,
            task: _task,
        } = self;
        answers_left(alloc, table)
    }

    pub(crate) fn set_task(&mut self, task: Pending)
        ensures { self.new ≡ with_task task self.old }
    {
        self.task = task;
    }

    pub(crate) fn take_task(&mut self) -> Pending
        ensures leader { self.new ≡ with_task tasks.Nothing self.old }
        ensures task { result ≡ self.old.task }
    {
        replace(&mut self.task, Pending::Nothing)
    }

    pub(crate) fn running(&self, alloc: Global, key: &Key) -> Result<Option<Waiting>, LeadError>
        ensures { IfOk result (λ w. w ≡ running key.now self.now.table.calls) }
    {
        Ok(self.table.running(alloc, key)?)
    }

    pub(crate) fn stage(&self, alloc: Global, key: &Key) -> Result<Stage, LeadError>
        ensures { IfOk result (λ s. s ≡ (row_at key.now self.now.table.rows).stage) }
    {
        Ok(self.table.stage(alloc, key)?)
    }

    pub(crate) fn base(&self, key: &Key) -> Option<Version>
        ensures { result ≡ base key.now self.now }
    {
        self.table.known(key).base()
    }

    pub(crate) fn know(&mut self, alloc: Global, key: &Key, known: Known) -> Result<(), LeadError>
        ensures { OnOk result (self.new ≡ knows key.now known self.old) }
    {
        self.table.set_known(alloc, key, known)?;
        Ok(())
    }

    pub(crate) fn stand(&mut self, alloc: Global, key: &Key, stage: Stage) -> Result<(), LeadError>
        ensures { OnOk result (self.new ≡ stands key.now stage self.old) }
    {
        self.table.set_stage(alloc, key, stage)?;
        Ok(())
    }

    /// Adds the message to each other member of the views. Fails only when out of memory.
    pub(crate) fn tell_members(
        &self,
        alloc: Global,
        message: Message,
        out: &mut LeadOut,
    ) -> Result<(), LeadError>
        ensures { OnOk result (out.new ≡ tells_all self.now.me self.now.fact.views message out.old) }
    {
        out.tell_all(alloc, self.me, &self.fact.views, &message)
    }

    /// Answers the running call of the key and removes it. The next call of the key then starts.
    pub(crate) fn answer(
        &mut self,
        alloc: Global,
        call: &Waiting,
        reply: Reply,
        key: &Key,
        out: &mut LeadOut,
    ) -> Result<(), LeadError>
        ensures { OnOk result ((self.new, out.new) ≡ answered call.now reply key.now out.old self.old) }
    {
        out.answer(call.from, call.id, reply)?;
        out.then(KeyRule::StartNextCall, key.copy(alloc)?)?;
        self.table.end_running(alloc, key)?;
        Ok(())
    }

    /// Notes that the call reads the settled version.
    fn note_read(
        &self,
        alloc: Global,
        call: &Waiting,
        key: &Key,
        out: &mut LeadOut,
    ) -> Result<(), LeadError>
        ensures { OnOk result (out.new ≡ and_note (Read call.now.id key.now (base key.now self.now)) out.old) }
    {
        out.note(Note::Read {
            id: call.id,
            key: key.copy(alloc)?,
            base: self.base(key),
        })
    }

    /// Notes a read of the settled version, and answers the running call of the key with `reply`.
    pub(crate) fn answer_read(
        &mut self,
        alloc: Global,
        call: &Waiting,
        reply: Reply,
        key: &Key,
        out: &mut LeadOut,
    ) -> Result<(), LeadError>
        ensures { OnOk result ((self.new, out.new) ≡ read_answered call.now reply key.now out.old self.old) }
    {
        self.note_read(alloc, call, key, out)?;
        self.answer(alloc, call, reply, key, out)
    }

    /// Answers the running call of the key with `reply`, as a read of the settled version, and does no
    /// more.
    pub(crate) fn end_read(
        &mut self,
        alloc: Global,
        call: &Waiting,
        reply: Reply,
        key: &Key,
    ) -> Result<LeadOut, LeadError>
        ensures { IfOk result (λ o. (self.new, o) ≡ read_answered call.now reply key.now rests self.old) }
    {
        let mut out = LeadOut::rests(alloc);
        self.answer_read(alloc, call, reply, key, &mut out)?;
        Ok(out)
    }

    /// Goes on after a command was applied to what is known: a write is proposed upon `parent`, and a
    /// reply is given after a check.
    pub(crate) fn decide(
        &mut self,
        alloc: Global,
        parent: Option<Version>,
        verdict: Verdict,
        key: &Key,
    ) -> Result<LeadOut, LeadError>
        ensures { IfOk result (λ o. (self.new, o) ≡ decided parent verdict key.now self.old) }
    {
        match verdict {
            Verdict::Write(content) => {
                self.set_task(Pending::Write { content, parent });
                LeadOut::leads_on(alloc, KeyRule::Write, key)
            }
            Verdict::Answer(reply) => {
                self.set_task(Pending::Check(reply));
                LeadOut::leads_on(alloc, KeyRule::Check, key)
            }
        }
    }

    /// Goes on after a command was applied to what a round found: a write is proposed upon the settled
    /// version, and a reply is given at once.
    pub(crate) fn conclude(
        &mut self,
        alloc: Global,
        verdict: Verdict,
        call: &Waiting,
        key: &Key,
    ) -> Result<LeadOut, LeadError>
        ensures { IfOk result (λ o. (self.new, o) ≡ concluded verdict call.now key.now self.old) }
    {
        match verdict {
            Verdict::Write(content) => {
                let parent = self.base(key);
                self.set_task(Pending::Write { content, parent });
                LeadOut::leads_on(alloc, KeyRule::Write, key)
            }
            Verdict::Answer(reply) => self.end_read(alloc, call, reply, key),
        }
    }

    /// Returns the version of the next write.
    pub(crate) fn next_version(&self) -> Version
        requires { is_spent self.now.seq ≡ false }
        ensures { result ≡ next_version self.now }
    {
        Version {
            epoch: self.fact.epoch,
            seq: self.seq + 1,
        }
    }
}

/// Answers each of the unanswered calls `timeout`.
fn answers_left(alloc: Global, table: CallTable) -> Result<Vec<AnswerOut>, LeadError>
    ensures answers { IfOk result (λ v. v.items ≡ map left_answer table.calls) }
    ensures none { has_calls table.calls ≡ false → IsOk result }
{
    if !table.unanswered() {
        return Ok(Vec::new(alloc));
    }
    let calls = table.into_calls(alloc)?;
    left_answers(alloc, &calls)
}

fn left_answers(alloc: Global, calls: &[Waiting]) -> Result<Vec<AnswerOut>, LeadError>
    ensures { IfOk result (λ v. v.items ≡ map left_answer calls.now) }
{
    let mut answers = Vec::new(alloc);
    for i in 0..calls.len() {
        answers.push(AnswerOut {
            caller: calls[i].from,
            id: calls[i].id,
            reply: Reply::Timeout,
        })?;
    }
    Ok(answers)
}
