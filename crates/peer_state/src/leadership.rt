ghost use Rattle.std.specs.Prelude.{◌≡◌, OnOk, IfOk};
ghost use Rattle.ens_base.specs.View.{IsPeer};
ghost use Rattle.peer_state.specs.Ages.{IsYoungChange};
ghost use Rattle.peer_state.specs.Leading.{older, end_of, wished, begins as begins_by};
ghost use Rattle.peer_state.specs.Rows.{change_heard, ended};

use crate::state::{ChangeState, Leadership};
use ens_base::{Epoch, PeerId, PeerSet};
use leader::{LeadError, LeadOut, Leader, Outgoing};
use phase_rows::{PhaseOut, PhaseRule, Then, silent};
use phase_rules::{Finishing, rule_25};
use std::alloc::Global;
use stored_formats::{Change, Fact};
use wire_frames::Message;

impl ChangeState {
    /// Rule 17: counts an acceptance of the second fact, if the epoch is ending.
    fn hear(&mut self, fact: &Fact, from: PeerId, ballot: Epoch, seq: u64)
        requires { IsPeer from }
        ensures { self.new ≡ change_heard self.old fact.now from ballot seq }
    {
        if let ChangeState::Finishing(finishing) = self {
            finishing.rule_17(*fact, from, ballot, seq);
        }
    }

    /// Rule 26: the epoch ends once enough peers accepted its second fact and no call is unanswered.
    pub(crate) fn end(&self, fact: Fact, me: PeerId, unanswered: bool) -> PhaseOut
        ensures { result ≡ ended self.now fact me unanswered }
    {
        match self {
            ChangeState::Finishing(finishing) => {
                let mut finishing = *finishing;
                finishing.rule_26(fact, me, unanswered)
            }
            ChangeState::Settled | ChangeState::Wanted(_) => silent(Then::Stay),
        }
    }

    /// Adds one tick to the age of an ending epoch.
    fn grow_older(&mut self)
        requires { IsYoungChange self.old }
        ensures { self.new ≡ older self.old }
    {
        if let ChangeState::Finishing(finishing) = self {
            finishing.age += 1;
        }
    }

    /// Of an ending epoch, the peers that accepted its second fact, and its age in ticks.
    fn end_so_far(&self) -> Option<(PeerSet, u8)>
        ensures { result ≡ end_of self.now }
    {
        match self {
            ChangeState::Finishing(finishing) => Some((finishing.accepts2, finishing.age)),
            ChangeState::Settled | ChangeState::Wanted(_) => None,
        }
    }

    /// Plans to drop the old view, if the epoch has two views and no change has begun.
    fn wish(&mut self, leader: &Leader)
        ensures { self.new ≡ wished leader.now.fact self.old }
    {
        if let ChangeState::Settled = self {
            if leader.is_to_end(&None) {
                *self = ChangeState::Wanted(Change::Drop);
            }
        }
    }

    /// Returns rule 25 if a change is wanted, and `Stay` otherwise.
    fn begins(&self) -> Then
        ensures { result ≡ begins_by self.now }
    {
        match self {
            ChangeState::Wanted(_) => Then::Rule(PhaseRule::BeginChange),
            ChangeState::Settled | ChangeState::Finishing(_) => Then::Stay,
        }
    }
}

impl Leadership {
    ghost use Rattle.peer_state.specs.Leading.{calls_ticked, row_5_calls, ticks};
    ghost use Rattle.peer_state.specs.Rows.{begun_change, finishing as finished, leader_heard};

    /// Rule 17: counts an acceptance of the first or the second fact of the epoch.
    pub(crate) fn hear(&mut self, fact: &Fact, from: PeerId, ballot: Epoch, seq: u64)
        requires { IsPeer from }
        ensures { self.new ≡ leader_heard self.old fact.now from ballot seq }
    {
        if ballot == fact.ballot && seq == 1 {
            self.leader.accept(from);
        }
        self.change.hear(fact, from, ballot, seq);
    }

    fn tick_calls(&mut self, alloc: Global, fact: &Fact) -> Result<LeadOut, LeadError>
        ensures { IfOk result (λ row. (self.new, row) ≡ calls_ticked fact.now self.old) }
    {
        let end = self.change.end_so_far();
        self.leader.rule_5(alloc, false, *fact, end)
    }

    /// Rule 5 (a) to (c): the calls and an ending epoch grow older. Fails only when out of memory.
    pub fn rule_5_calls(&mut self, alloc: Global, fact: &Fact) -> Result<LeadOut, LeadError>
        requires { IsYoungChange self.old.change }
        ensures { IfOk result (λ row. (self.new, row) ≡ row_5_calls fact.now self.old) }
    {
        self.change.grow_older();
        self.tick_calls(alloc, fact)
    }

    /// Rule 5 (d): the messages to the other members. Fails only when out of memory.
    pub fn ticks(&mut self, alloc: Global, fact: &Fact) -> Result<Vec<Outgoing>, LeadError>
        ensures sends { IfOk result (λ v. v.items ≡ ticks fact.now self.old) }
        ensures same { OnOk result (self.new ≡ self.old) }
    {
        let end = self.change.end_so_far();
        let row = self.leader.rule_5(alloc, true, *fact, end)?;
        Ok(row.sends.into_vec())
    }

    /// Rule 5 (e): returns rule 25 if a change is wanted, or if the old view of two is to be dropped.
    pub fn wish(&mut self) -> Then
        ensures leadership { self.new ≡ record self.old { change = wished self.old.leader.fact self.old.change } }
        ensures then { result ≡ begins_by (wished self.old.leader.fact self.old.change) }
    {
        self.change.wish(&self.leader);
        self.change.begins()
    }

    /// Records that the epoch is ending, if `finishing` is given.
    fn finish(&mut self, finishing: Option<Finishing>)
        ensures { self.new ≡ finished finishing self.old }
    {
        if let Some(finishing) = finishing {
            self.change = ChangeState::Finishing(finishing);
        }
    }

    /// Rule 25: begins the change that is wanted, if there is one.
    pub(crate) fn begin_change(&mut self, fact: Fact, me: PeerId) -> PhaseOut
        requires { IsPeer me }
        ensures { (self.new, result) ≡ begun_change self.old.change self.old fact me }
    {
        match self.change {
            ChangeState::Wanted(change) => {
                let (row, finishing) = rule_25(fact, me, self.leader.accepts(), change);
                self.finish(finishing);
                row
            }
            ChangeState::Settled | ChangeState::Finishing(_) => silent(Then::Stay),
        }
    }
}
