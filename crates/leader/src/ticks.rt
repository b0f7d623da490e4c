ghost use Rattle.std.specs.Prelude.{◌≡◌, ◌++◌, IfOk, OnOk};
ghost use Rattle.leader.specs.Ticks.{is_late, and_key_if, timed_out, after_ages, row_5_calls, finishing_message, tick_message, ticks_up_to, row_5_rest, row_5, after_tick, is_to_end};

use crate::leader::Leader;
use call_table::DueCall;
use ens_base::{Key, PeerId, PeerSet, Reply};
use leader_output::{LeadError, LeadOut, is_other_of, members};
use phase_rows::{Change, Fact, KeyRule, Message, PhaseRule, Then};
use std::alloc::Global;

/// Whether the change that ends the epoch has reached age 8.
fn is_late(finishing: &Option<(PeerSet, u8)>) -> bool
    ensures { result ≡ is_late finishing.now }
{
    match finishing {
        None => false,
        Some((_accepts, age)) => *age >= 8,
    }
}

fn add_key(alloc: Global, key: &Option<Key>, out: &mut LeadOut) -> Result<(), LeadError>
    ensures { OnOk result (out.new ≡ and_key_if key.now out.old) }
{
    match key {
        None => Ok(()),
        Some(key) => out.key(key.copy(alloc)?),
    }
}

fn time_out(alloc: Global, due: &[DueCall], out: &mut LeadOut) -> Result<(), LeadError>
    ensures { OnOk result (out.new ≡ timed_out due.now out.old) }
{
    for i in 0..due.len() {
        out.answer(due[i].from, due[i].id, Reply::Timeout)?;
        add_key(alloc, &due[i].running, out)?;
    }
    Ok(())
}

impl Leader {
    fn after_ages(
        &mut self,
        alloc: Global,
        finishing: &Option<(PeerSet, u8)>,
    ) -> Result<LeadOut, LeadError>
        ensures { IfOk result (λ o. (self.new, o) ≡ after_ages finishing.now self.old) }
    {
        if self.table.has_late_put() || is_late(finishing) {
            return Ok(LeadOut::leaves(alloc));
        }
        let mut out = LeadOut::comes(alloc, Then::OnKeys(KeyRule::StartNextCall));
        let due = self.table.drop_due(alloc)?;
        time_out(alloc, &due, &mut out)?;
        Ok(out)
    }

    #[inline(never)]
    fn tick_calls(
        &mut self,
        alloc: Global,
        finishing: &Option<(PeerSet, u8)>,
    ) -> Result<LeadOut, LeadError>
        ensures { IfOk result (λ o. (self.new, o) ≡ row_5_calls finishing.now self.old) }
    {
        self.table.grow_older();
        self.after_ages(alloc, finishing)
    }

    /// Returns the tick message to a member that accepted the epoch.
    fn finishing_message(
        &self,
        finishing: &Option<(PeerSet, u8)>,
        fact: &Fact,
        peer: PeerId,
    ) -> Message
        ensures { result ≡ finishing_message finishing.now fact.now self.now peer }
    {
        match finishing {
            None => Message::Beat(self.fact.epoch),
            Some((accepts, _age)) => {
                if accepts.has(peer) {
                    Message::Beat(self.fact.epoch)
                } else {
                    Message::Commit(*fact)
                }
            }
        }
    }

    /// Returns the tick message to a member.
    fn tick_message(&self, finishing: &Option<(PeerSet, u8)>, fact: &Fact, peer: PeerId) -> Message
        ensures { result ≡ tick_message finishing.now fact.now self.now peer }
    {
        if self.accepts.has(peer) {
            self.finishing_message(finishing, fact, peer)
        } else {
            Message::NewEpoch(self.fact)
        }
    }

    #[tactic(auto, unfolding(crate::specs::Ticks::ticks_up_to))]
    fn tell_ticks(
        &self,
        finishing: &Option<(PeerSet, u8)>,
        fact: &Fact,
        out: &mut LeadOut,
    ) -> Result<(), LeadError>
        ensures { OnOk result (out.new ≡ record out.old { sends = out.old.sends ++ ticks_up_to finishing.now fact.now self.now 31 }) }
    {
        let members = members(&self.fact.views);
        for below in 0..31 {
            let peer = PeerId(below + 1);
            if is_other_of(self.me, &members, peer) {
                out.send(peer, self.tick_message(finishing, fact, peer))?;
            }
        }
        Ok(())
    }

    /// Whether an epoch of two views is to be ended, as it is unless that has begun.
    pub fn is_to_end(&self, finishing: &Option<(PeerSet, u8)>) -> bool
        ensures { result ≡ is_to_end finishing.now self.now.fact }
    {
        finishing.is_none() && self.fact.views.second().is_some()
    }

    /// Returns what follows the messages of a tick: rule 25, if the epoch is to be ended.
    fn after_tick(&self, finishing: &Option<(PeerSet, u8)>) -> Then
        ensures { result ≡ after_tick finishing.now self.now }
    {
        if self.is_to_end(finishing) {
            Then::Rule(PhaseRule::BeginChange)
        } else {
            Then::Stay
        }
    }

    #[inline(never)]
    fn tick_rest(
        &self,
        alloc: Global,
        fact: &Fact,
        finishing: &Option<(PeerSet, u8)>,
    ) -> Result<LeadOut, LeadError>
        ensures { IfOk result (λ o. o ≡ row_5_rest finishing.now fact.now self.now) }
    {
        let mut out = LeadOut::comes(alloc, self.after_tick(finishing));
        self.tell_ticks(finishing, fact, &mut out)?;
        Ok(out)
    }

    /// Rule 5: ticks. It runs twice. If `rest` is false, the age of each call rises by 1, the leader
    /// steps down if a put or the change is late, and the calls of age 8 are answered `timeout`. If
    /// `rest` is true, each other member is sent one message. `fact` is the saved fact. `finishing`
    /// is, of a change being finished, the peers that accepted it and its age, already raised. Fails
    /// only when out of memory.
    pub fn rule_5(
        &mut self,
        alloc: Global,
        rest: bool,
        fact: Fact,
        finishing: Option<(PeerSet, u8)>,
    ) -> Result<LeadOut, LeadError>
        ensures { IfOk result (λ o. (self.new, o) ≡ row_5 rest fact finishing self.old) }
    {
        if rest {
            self.tick_rest(alloc, &fact, &finishing)
        } else {
            self.tick_calls(alloc, &finishing)
        }
    }
}
