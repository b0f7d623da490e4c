ghost use Rattle.std.specs.Prelude.{◌≡◌};
ghost use Rattle.ens_base.specs.View.{IsPeer};
ghost use Rattle.peer_state.specs.Ages.{IsYoung};

use crate::state::{ChangeState, Phase, State};
use ens_base::{Epoch, Key, PeerId, View};
use phase_rows::{PhaseOut, PhaseRule, Seen, Then, silent};
use phase_rules::{
    Election, rule_7, rule_8_probe, rule_10, rule_11, rule_15, rule_16, rule_18, rule_19, rule_20,
    rule_21, rule_22, rule_23, rule_24,
};
use std::alloc::Global;
use step_plans::PeerError;
use stored_formats::{Change, Fact};
use tree_sync::Question;
use wire_frames::{Message, NackCause, Object, TreeBody};

impl State {
    ghost use Rattle.peer_state.specs.Rows.{aged, begun, while_8, while_9, prepared, while_10, while_12, while_13, while_14, while_15, while_17};

    /// Rules 2 to 4: a tick of a peer that does not lead.
    pub fn age(&mut self, me: PeerId) -> PhaseOut
        requires { IsYoung self.old.phase }
        ensures { (self.new, result) ≡ aged self.old.phase me self.old }
    {
        match &mut self.phase {
            Phase::Following(follower) => follower.rule_2(self.fact, me),
            Phase::Probing(probing) => probing.rule_3(),
            Phase::Electing(election) => match election {
                Election::Preparing { .. } => election.rule_3(),
                Election::Starting { .. } => election.rule_4(me, self.sync.is_some()),
            },
            Phase::Leading(_) => silent(Then::Stay),
        }
    }

    /// Rule 7: begins to probe.
    #[inline(never)]
    fn rule_7(&mut self, me: PeerId) -> PhaseOut
        requires { IsPeer me }
        ensures { (self.new, result) ≡ begun me self.old }
    {
        let (row, probing) = rule_7(self.fact, me);
        self.seek(probing);
        row
    }

    /// Rule 8: counts a reply to a probe.
    fn rule_8(&mut self, me: PeerId, from: PeerId, reply: Fact) -> PhaseOut
        requires { IsPeer from }
        ensures { (self.new, result) ≡ while_8 self.old.phase me from reply self.old }
    {
        match &mut self.phase {
            Phase::Probing(probing) => probing.rule_8(me, from, reply),
            _ => silent(Then::Stay),
        }
    }

    /// Rule 9: a probing peer asks for a ballot once it heard enough peers.
    #[inline(never)]
    fn rule_9(&mut self) -> PhaseOut
        ensures { (self.new, result) ≡ while_9 self.old.phase self.old }
    {
        match &mut self.phase {
            Phase::Probing(probing) => probing.rule_9(),
            _ => silent(Then::Stay),
        }
    }

    /// Rule 10: prepares the ballot after `count`, with `best` as the base so far.
    fn prepare(&mut self, me: PeerId, best: Fact, count: u64) -> PhaseOut
        requires { IsPeer me }
        ensures { (self.new, result) ≡ prepared me best count self.old }
    {
        let (row, election) = rule_10(self.fact, me, best, count);
        self.stand(election);
        row
    }

    /// Rule 10, from what the peer found while probing, or from its own fact at the end of its
    /// epoch.
    #[inline(never)]
    fn rule_10(&mut self, me: PeerId) -> PhaseOut
        requires { IsPeer me }
        ensures { (self.new, result) ≡ while_10 self.old.phase me self.old }
    {
        match self.phase {
            Phase::Probing(probing) => self.prepare(me, probing.best, probing.count),
            Phase::Leading(_) => self.prepare(me, self.fact, self.fact.ballot.count),
            _ => silent(Then::Stay),
        }
    }

    /// Rule 12: counts a promise.
    fn rule_12(&mut self, me: PeerId, from: PeerId, ballot: Epoch, promised: Fact) -> PhaseOut
        requires { IsPeer me × IsPeer from }
        ensures { (self.new, result) ≡ while_12 self.old.phase me from ballot promised self.old }
    {
        match &mut self.phase {
            Phase::Electing(election) => election.rule_12(self.fact, me, from, ballot, promised),
            _ => silent(Then::Stay),
        }
    }

    /// Rule 13: a preparing peer starts its epoch once enough peers promised.
    #[inline(never)]
    fn rule_13(&mut self, me: PeerId) -> PhaseOut
        requires { IsPeer me }
        ensures { (self.new, result) ≡ while_13 self.old.phase me self.old }
    {
        match &mut self.phase {
            Phase::Electing(election) => election.rule_13(self.fact, me, self.trusted),
            _ => silent(Then::Stay),
        }
    }

    /// Rule 14: a starting peer leads its epoch once enough peers accepted it.
    #[inline(never)]
    fn rule_14(&mut self, me: PeerId) -> PhaseOut
        requires { IsPeer me }
        ensures { (self.new, result) ≡ while_14 self.old.phase me self.old }
    {
        match &mut self.phase {
            Phase::Electing(election) => election.rule_14(me),
            _ => silent(Then::Stay),
        }
    }

    /// Rule 15: a peer that asked for a ballot is refused.
    fn rule_15(&self, ballot: Epoch, cause: NackCause) -> PhaseOut
        ensures { (self.now, result) ≡ while_15 self.now.phase ballot cause self.now }
    {
        match self.phase {
            Phase::Electing(_) | Phase::Leading(_) => rule_15(self.fact, ballot, cause),
            Phase::Following(_) | Phase::Probing(_) => silent(Then::Stay),
        }
    }
}

impl State {
    ghost use Rattle.peer_state.specs.Rows.{announced, while_17, leads, changes, asked_change, while_25, while_26, phase_row, received};

    /// Rule 16: a leader announces the first fact of its epoch.
    fn rule_16(&mut self, me: PeerId, from: PeerId, new: Fact) -> PhaseOut
        requires { IsPeer from }
        ensures { (self.new, result) ≡ announced me from new self.old }
    {
        let runs = self.sync.is_some();
        let row = rule_16(self.fact, me, self.trusted, runs, from, new);
        self.wait_for(&row.then);
        row
    }

    /// Rule 17: counts an acceptance.
    fn rule_17(&mut self, from: PeerId, ballot: Epoch, seq: u64) -> PhaseOut
        requires { IsPeer from }
        ensures { (self.new, result) ≡ while_17 self.old.phase from ballot seq self.old }
    {
        let fact = self.fact;
        match &mut self.phase {
            Phase::Electing(election) => election.rule_17(fact, from, ballot, seq),
            Phase::Leading(leadership) => {
                leadership.hear(&fact, from, ballot, seq);
                silent(Then::Stay)
            }
            Phase::Following(_) | Phase::Probing(_) => silent(Then::Stay),
        }
    }

    /// Rule 25: a leader begins the change that is wanted, if there is one.
    #[inline(never)]
    fn rule_25(&mut self, me: PeerId) -> PhaseOut
        requires { IsPeer me }
        ensures { (self.new, result) ≡ while_25 self.old.phase me self.old }
    {
        let fact = self.fact;
        match &mut self.phase {
            Phase::Leading(leadership) => leadership.begin_change(fact, me),
            _ => silent(Then::Stay),
        }
    }

    /// Rule 26: the epoch ends once enough peers accepted its second fact and no call is unanswered.
    fn rule_26(&self, me: PeerId) -> PhaseOut
        ensures { (self.now, result) ≡ while_26 self.now.phase me self.now }
    {
        match &self.phase {
            Phase::Leading(leadership) => {
                let unanswered = leadership.leader.unanswered();
                leadership.change.end(self.fact, me, unanswered)
            }
            _ => silent(Then::Stay),
        }
    }

    /// The row of the rule.
    pub fn phase_row(&mut self, rule: PhaseRule, me: PeerId) -> PhaseOut
        requires { IsPeer me }
        ensures { (self.new, result) ≡ phase_row rule me self.old }
    {
        match rule {
            PhaseRule::BeginProbing => self.rule_7(me),
            PhaseRule::EnoughHeard => self.rule_9(),
            PhaseRule::Prepare => self.rule_10(me),
            PhaseRule::EnoughPromised => self.rule_13(me),
            PhaseRule::EnoughAccepted => self.rule_14(me),
            PhaseRule::BeginChange => self.rule_25(me),
            PhaseRule::EndEpoch => self.rule_26(me),
        }
    }

    /// The row of the rule for a message, if that asks neither the tree nor the backend. Nothing
    /// happens on a message that does not fit the phase, or that no rule counts.
    pub fn receive(&mut self, me: PeerId, from: PeerId, message: &Message) -> PhaseOut
        requires { IsPeer me × IsPeer from }
        ensures { (self.new, result) ≡ received me from message.now self.old }
    {
        match message {
            Message::Probe => rule_8_probe(self.fact, from),
            Message::ProbeReply(reply) => self.rule_8(me, from, *reply),
            Message::Prepare(ballot) => rule_11(self.fact, from, *ballot),
            Message::Promise(ballot, promised) => self.rule_12(me, from, *ballot, *promised),
            Message::Nack(ballot, cause) => self.rule_15(*ballot, *cause),
            Message::NewEpoch(new) => self.rule_16(me, from, *new),
            Message::Accepted(ballot, seq) => self.rule_17(from, *ballot, *seq),
            Message::Commit(second) => rule_18(self.fact, self.trusted, from, *second),
            Message::Beat(ballot) => rule_19(self.fact, self.trusted, from, *ballot),
            Message::Check(ballot, round) => rule_20(self.fact, from, *ballot, *round),
            _ => silent(Then::Stay),
        }
    }
}

impl State {
    ghost use Rattle.peer_state.specs.Rows.{wanting, asked_change};

    /// Makes this change wanted, if the peer leads.
    fn want(&mut self, change: Change)
        ensures { self.new ≡ wanting change self.old.phase self.old }
    {
        if let Phase::Leading(leadership) = &mut self.phase {
            leadership.change = ChangeState::Wanted(change);
        }
    }

    /// Rule 24: a request to change to this view. Returns whether the request is taken.
    pub fn ask_change(&mut self, view: View) -> (PhaseOut, bool)
        ensures { (self.new, result) ≡ asked_change view self.old }
    {
        let (row, taken) = rule_24(self.fact, self.phase.leads(), self.phase.changes(), view);
        if taken {
            self.want(Change::Add(view));
        }
        (row, taken)
    }
}

impl State {
    ghost use Rattle.std.specs.Prelude.{IfOk, IfErr};
    ghost use Rattle.phase_rules.specs.Requests.{row_21, row_22, row_23};

    /// Rule 21, from what the stores returned. Fails only when out of memory.
    pub fn rule_21(
        &self,
        from: PeerId,
        ballot: Epoch,
        round: u64,
        key: Key,
        seen: Seen,
    ) -> Result<PhaseOut, PeerError>
        requires { IsPeer from }
        ensures ok { IfOk result (λ row. row ≡ row_21 self.now.fact self.now.trusted from ballot round key seen) }
        ensures memory { IfErr result (λ e. e ≡ PeerError.Memory) }
    {
        match rule_21(self.fact, self.trusted, from, ballot, round, key, seen) {
            Ok(row) => Ok(row),
            Err(_) => Err(PeerError::Memory),
        }
    }

    /// Rule 22, from what the stores returned. Fails only when out of memory.
    pub fn rule_22(
        &self,
        alloc: Global,
        from: PeerId,
        ballot: Epoch,
        object: &Object,
        seen: Seen,
    ) -> Result<PhaseOut, PeerError>
        requires { IsPeer from }
        ensures ok { IfOk result (λ row. row ≡ row_22 self.now.fact self.now.trusted from ballot object.now seen) }
        ensures memory { IfErr result (λ e. e ≡ PeerError.Memory) }
    {
        match rule_22(alloc, self.fact, self.trusted, from, ballot, object, seen) {
            Ok(row) => Ok(row),
            Err(_) => Err(PeerError::Memory),
        }
    }

    /// Rule 23, from the node that was read, if the question is answered. Fails only when out of
    /// memory.
    pub fn rule_23(
        &self,
        from: PeerId,
        ballot: Epoch,
        question: Question,
        body: Option<TreeBody>,
    ) -> Result<PhaseOut, PeerError>
        requires { IsPeer from }
        ensures ok { IfOk result (λ row. row ≡ row_23 self.now.fact self.now.trusted from ballot question.position question.after body) }
        ensures memory { IfErr result (λ e. e ≡ PeerError.Memory) }
    {
        let Question { position, after } = question;
        match rule_23(self.fact, self.trusted, from, ballot, position, after, body) {
            Ok(row) => Ok(row),
            Err(_) => Err(PeerError::Memory),
        }
    }
}
