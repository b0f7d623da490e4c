ghost use Rattle.std.specs.Prelude.{◌≡◌, ◌+◌, ◌&&◌, IfOk, OnOk, Some};
ghost use Rattle.ens_base.specs.Epochs.{same_version};
ghost use Rattle.phase_rows.specs.Orders.{is_same};
ghost use Rattle.phase_rows.specs.WireFrames.{Put};
ghost use Rattle.phase_rows.specs.declared.phase.Seen.TheVariants as seens;
ghost use Rattle.phase_rows.specs.declared.rules.KeyRule.TheVariants as key_rules;
ghost use Rattle.quorums.specs.Rounds.{state_of};
ghost use Rattle.register_model.specs.declared.note.Note.TheVariants.{Proposed, Settled};
ghost use Rattle.call_table.specs.Calls.{running};
ghost use Rattle.call_table.specs.declared.row.Stage.TheVariants as stages;
ghost use Rattle.leader_output.specs.Outs.{and_note, and_own, and_then};
ghost use Rattle.leader_output.specs.Sends.{tells_all};
ghost use Rattle.leader_output.specs.declared.out.Own.TheVariants as owns;
ghost use Rattle.leader.specs.Leaders.{knows, settled_as, stands};
ghost use Rattle.leader.specs.Puts.{proposed, written_for, row_31, rewritten, row_32, write_settled, settled_for, acknowledged, put_stored, put_seen, put_for, row_35, acknowledged_by, row_35_reply};

use crate::leader::{Leader, is_last, settled_known};
use crate::pending::Pending;
use call_table::{Stage, Waiting};
use ens_base::{Digest, Epoch, Key, PeerId, Reply, Version};
use leader_output::{LeadError, LeadOut, Object, Own};
use phase_rows::{Change, Fact, KeyRule, Message, Seen, Then};
use quorums::{Round, RoundState};
use register_model::Note;
use std::alloc::Global;

/// Notes that the object is proposed, and asks the peer's own tree and backend to put it.
fn ask_put(
    alloc: Global,
    object: &Object,
    parent: Option<Version>,
    call: Option<u64>,
    key: &Key,
    out: &mut LeadOut,
) -> Result<(), LeadError>
    ensures { OnOk result (out.new ≡ and_own (owns.Put object.now) (and_note (Proposed key.now object.now.version parent call) out.old)) }
{
    out.note(Note::Proposed {
        key: key.copy(alloc)?,
        version: object.version,
        parent,
        call,
    })?;
    out.ask(Own::Put(object.copy(alloc)?));
    Ok(())
}

impl Leader {
    fn propose(
        &mut self,
        alloc: Global,
        object: Object,
        parent: Option<Version>,
        call: Option<u64>,
        key: &Key,
    ) -> Result<LeadOut, LeadError>
        requires { object.version.seq ≡ self.old.seq + 1 }
        ensures { IfOk result (λ o. (self.new, o) ≡ proposed object parent call key.now self.old) }
    {
        self.seq = object.version.seq;
        self.set_task(Pending::Propose {
            object,
            parent,
            call,
        });
        LeadOut::leads_on(alloc, KeyRule::Put, key)
    }

    fn write_for(
        &mut self,
        alloc: Global,
        call: &Waiting,
        task: Pending,
        key: &Key,
    ) -> Result<LeadOut, LeadError>
        ensures { IfOk result (λ o. (self.new, o) ≡ written_for (Some call.now) task key.now self.old) }
    {
        match task {
            Pending::Write { content, parent } => {
                if is_last(self.seq) {
                    return Ok(LeadOut::leaves(alloc));
                }
                let version = self.next_version();
                let object = Object {
                    version,
                    stamp: version,
                    key: key.copy(alloc)?,
                    value: content,
                };
                self.propose(alloc, object, parent, Some(call.id), key)
            }
            _other => Ok(LeadOut::rests(alloc)),
        }
    }

    /// Rule 31: proposes a write. Its stamp is its own version. If the numbers of the epoch are spent,
    /// the leader steps down. Fails only when out of memory.
    #[inline(never)]
    pub fn rule_31(&mut self, alloc: Global, key: &Key) -> Result<LeadOut, LeadError>
        ensures { IfOk result (λ o. (self.new, o) ≡ row_31 key.now self.old) }
    {
        let running = self.running(alloc, key)?;
        let task = self.take_task();
        match running {
            None => Ok(LeadOut::rests(alloc)),
            Some(call) => self.write_for(alloc, &call, task, key),
        }
    }

    fn rewrite(&mut self, alloc: Global, task: Pending, key: &Key) -> Result<LeadOut, LeadError>
        ensures { IfOk result (λ o. (self.new, o) ≡ rewritten task key.now self.old) }
    {
        match task {
            Pending::Rewrite(old) => {
                if is_last(self.seq) {
                    return Ok(LeadOut::leaves(alloc));
                }
                let Object {
                    version: parent,
                    stamp,
                    key: _key,
                    value,
                } = old;
                let object = Object {
                    version: self.next_version(),
                    stamp,
                    key: key.copy(alloc)?,
                    value,
                };
                self.propose(alloc, object, Some(parent), None, key)
            }
            _other => Ok(LeadOut::rests(alloc)),
        }
    }

    /// Rule 32: proposes an object of an earlier epoch again. It keeps its stamp, and serves no call.
    /// If the numbers of the epoch are spent, the leader steps down. Fails only when out of memory.
    #[inline(never)]
    pub fn rule_32(&mut self, alloc: Global, key: &Key) -> Result<LeadOut, LeadError>
        ensures { IfOk result (λ o. (self.new, o) ≡ row_32 key.now self.old) }
    {
        let task = self.take_task();
        self.rewrite(alloc, task, key)
    }

    /// Notes that the put of the object is settled, and that the key is known so.
    fn know_settled(
        &mut self,
        alloc: Global,
        object: &Object,
        digest: Digest,
        key: &Key,
        out: &mut LeadOut,
    ) -> Result<(), LeadError>
        ensures leader { OnOk result (self.new ≡ knows key.now (settled_as object.now.version object.now digest) self.old) }
        ensures out { OnOk result (out.new ≡ and_note (Settled key.now object.now.version) out.old) }
    {
        out.note(Note::Settled {
            key: key.copy(alloc)?,
            version: object.version,
        })?;
        let known = settled_known(object.version, object, digest);
        self.know(alloc, key, known)
    }

    /// Ends a rewrite: the command of the running call is applied next.
    fn end_rewrite(&mut self, alloc: Global, key: &Key, out: &mut LeadOut) -> Result<(), LeadError>
        ensures leader { OnOk result (self.new ≡ stands key.now stages.Idle self.old) }
        ensures out { OnOk result (out.new ≡ and_then key_rules.Apply key.now out.old) }
    {
        out.then(KeyRule::Apply, key.copy(alloc)?)?;
        self.stand(alloc, key, Stage::Idle)
    }

    /// Answers a settled write.
    fn answer_write(
        &mut self,
        alloc: Global,
        object: &Object,
        key: &Key,
        out: &mut LeadOut,
    ) -> Result<(), LeadError>
        ensures { OnOk result ((self.new, out.new) ≡ write_settled (running key.now self.old.table.calls) object.now key.now out.old self.old) }
    {
        match self.running(alloc, key)? {
            None => Ok(()),
            Some(call) => self.answer(alloc, &call, Reply::Ok(object.stamp), key, out),
        }
    }

    fn settle(
        &mut self,
        alloc: Global,
        rewrite: bool,
        object: Object,
        key: &Key,
        out: &mut LeadOut,
    ) -> Result<(), LeadError>
        ensures { OnOk result ((self.new, out.new) ≡ settled_for rewrite object key.now out.old self.old) }
    {
        if rewrite {
            self.end_rewrite(alloc, key, out)?;
            self.set_task(Pending::Apply(Some(object)));
            return Ok(());
        }
        self.answer_write(alloc, &object, key, out)
    }

    fn acknowledge(
        &mut self,
        alloc: Global,
        object: Object,
        digest: Digest,
        acks: Round,
        rewrite: bool,
        key: &Key,
        out: &mut LeadOut,
    ) -> Result<(), LeadError>
        ensures { OnOk result ((self.new, out.new) ≡ acknowledged (state_of acks) object digest acks rewrite key.now out.old self.old) }
    {
        match acks.outcome() {
            RoundState::Open => {
                let stage = Stage::Putting {
                    object,
                    digest,
                    acks,
                    rewrite,
                };
                self.stand(alloc, key, stage)
            }
            _ => {
                self.know_settled(alloc, &object, digest, key, out)?;
                self.settle(alloc, rewrite, object, key, out)
            }
        }
    }

    /// Sends the object to the other members.
    fn tell_put(&self, alloc: Global, object: &Object, out: &mut LeadOut) -> Result<(), LeadError>
        ensures { OnOk result (out.new ≡ tells_all self.now.me self.now.fact.views (Put self.now.fact.epoch object.now) out.old) }
    {
        let put = Message::Put(self.fact.epoch, object.copy(alloc)?);
        self.tell_members(alloc, put, out)
    }

    fn put_stored(
        &mut self,
        alloc: Global,
        object: Object,
        digest: Digest,
        rewrite: bool,
        key: &Key,
    ) -> Result<LeadOut, LeadError>
        ensures { IfOk result (λ o. (self.new, o) ≡ put_stored object digest rewrite key.now self.old) }
    {
        let mut out = LeadOut::rests(alloc);
        self.tell_put(alloc, &object, &mut out)?;
        let acks = Round::start(self.fact.views, self.me);
        self.acknowledge(alloc, object, digest, acks, rewrite, key, &mut out)?;
        Ok(out)
    }

    fn put_at_first(
        &mut self,
        alloc: Global,
        object: Object,
        parent: Option<Version>,
        call: Option<u64>,
        key: &Key,
    ) -> Result<LeadOut, LeadError>
        ensures { IfOk result (λ o. (self.new, o) ≡ put_seen seens.Nothing object parent call key.now self.old) }
    {
        let mut out = LeadOut::rests(alloc);
        ask_put(alloc, &object, parent, call, key, &mut out)?;
        self.set_task(Pending::Propose {
            object,
            parent,
            call,
        });
        Ok(out)
    }

    fn put_seen(
        &mut self,
        alloc: Global,
        seen: &Seen,
        object: Object,
        parent: Option<Version>,
        call: Option<u64>,
        key: &Key,
    ) -> Result<LeadOut, LeadError>
        ensures { IfOk result (λ o. (self.new, o) ≡ put_seen seen.now object parent call key.now self.old) }
    {
        match seen {
            Seen::Nothing => self.put_at_first(alloc, object, parent, call, key),
            Seen::Damaged(_) => Ok(LeadOut::comes(alloc, Then::Untrust)),
            Seen::Stored(digest) => { self.put_stored(alloc, object, *digest, call.is_none(), key) }
            _ => Ok(LeadOut::rests(alloc)),
        }
    }

    fn put_for(
        &mut self,
        alloc: Global,
        task: Pending,
        seen: &Seen,
        key: &Key,
    ) -> Result<LeadOut, LeadError>
        ensures { IfOk result (λ o. (self.new, o) ≡ put_for task seen.now key.now self.old) }
    {
        match task {
            Pending::Propose {
                object,
                parent,
                call,
            } => self.put_seen(alloc, seen, object, parent, call, key),
            _other => Ok(LeadOut::rests(alloc)),
        }
    }

    /// Rule 35: puts an object. It goes to the peer's own tree and backend first, and to the other
    /// members once `seen` says that these have stored it. Fails only when out of memory.
    #[inline(never)]
    pub fn rule_35(&mut self, alloc: Global, key: &Key, seen: &Seen) -> Result<LeadOut, LeadError>
        ensures { IfOk result (λ o. (self.new, o) ≡ row_35 key.now seen.now self.old) }
    {
        let task = self.take_task();
        self.put_for(alloc, task, seen, key)
    }

    /// Whether a reply with this ballot and version acknowledges the put of the version `put`.
    fn acknowledges(&self, ballot: Epoch, version: Version, put: Version) -> bool
        ensures { result ≡ (is_same ballot self.now.fact.epoch && same_version version put) }
    {
        ballot == self.fact.epoch && version == put
    }

    fn acknowledge_by(
        &mut self,
        alloc: Global,
        stage: Stage,
        from: PeerId,
        ballot: Epoch,
        version: Version,
        key: &Key,
    ) -> Result<LeadOut, LeadError>
        ensures { IfOk result (λ o. (self.new, o) ≡ acknowledged_by stage from ballot version key.now self.old) }
    {
        match stage {
            Stage::Putting {
                object,
                digest,
                acks,
                rewrite,
            } => {
                if !self.acknowledges(ballot, version, object.version) {
                    return Ok(LeadOut::rests(alloc));
                }
                let mut acks = acks;
                acks.vote(from);
                let mut out = LeadOut::rests(alloc);
                self.acknowledge(alloc, object, digest, acks, rewrite, key, &mut out)?;
                Ok(out)
            }
            _other => Ok(LeadOut::rests(alloc)),
        }
    }

    /// Rule 35, PutReply: counts an acknowledgement from `from`. Any reply is ignored unless it names
    /// the leader's epoch and the version that the key has put. Fails only when out of memory.
    #[inline(never)]
    pub fn rule_35_reply(
        &mut self,
        alloc: Global,
        from: PeerId,
        ballot: Epoch,
        key: &Key,
        version: Version,
    ) -> Result<LeadOut, LeadError>
        ensures { IfOk result (λ o. (self.new, o) ≡ row_35_reply from ballot key.now version self.old) }
    {
        let stage = self.stage(alloc, key)?;
        self.acknowledge_by(alloc, stage, from, ballot, version, key)
    }
}
