ghost use Rattle.std.specs.Prelude.{◌≡◌, ◌<◌};
ghost use Rattle.ens_base.specs.View.{IsPeer};
ghost use Rattle.phase_rules.specs.Probing.{row_3, row_7, row_8, row_8_probe, row_9};

use ens_base::{PeerId, PeerSet};
use phase_rows::{
    Fact, Message, PhaseOut, PhaseRule, Then, alone, anew_at_6, are_quorum, is_newer, members,
    others_of, others_outside, send, silent, with_members,
};

/// The state of a peer that is probing.
#[derive(Clone, Copy, Debug, PartialEq, Eq)]
pub struct Probing {
    /// The newest fact heard, including its own.
    pub best: Fact,
    /// The greatest count of a ballot heard.
    pub count: u64,
    /// The peers whose fact was heard, including `me`.
    pub heard: PeerSet,
    /// The peers asked for their fact, including `me` if it is a member.
    pub asked: PeerSet,
    /// The number of ticks since probing began, 0 to 6.
    pub age: u8,
}

/// Rule 7: begin to probe. Asks the other members of the fact's views.
pub fn rule_7(fact: Fact, me: PeerId) -> (PhaseOut, Option<Probing>)
    requires { IsPeer me }
    ensures { result ≡ row_7 fact me }
{
    let asked = members(&fact.views);
    let probing = Probing {
        best: fact,
        count: fact.ballot.count,
        heard: alone(me),
        asked,
        age: 0,
    };
    let out = send(
        others_of(me, &asked),
        Message::Probe,
        Then::Rule(PhaseRule::EnoughHeard),
    );
    (out, Some(probing))
}

/// Rule 8, on a probe: send the saved fact to `from`.
pub fn rule_8_probe(fact: Fact, from: PeerId) -> PhaseOut
    requires { IsPeer from }
    ensures { result ≡ row_8_probe fact from }
{
    send(alone(from), Message::ProbeReply(fact), Then::Stay)
}

impl Probing {
    /// Rule 3, on a tick: the age rises by 1, and at 6 probing begins anew.
    pub fn rule_3(&mut self) -> PhaseOut
        requires { self.old.age < 6 }
        ensures { (self.new, result) ≡ row_3 self.old }
    {
        self.age += 1;
        silent(anew_at_6(self.age))
    }

    /// Rule 8, on a reply: count `from` as heard. If its fact is newer than the best one, it
    /// becomes the best, and the members of its views that were not asked before are asked.
    pub fn rule_8(&mut self, me: PeerId, from: PeerId, reply: Fact) -> PhaseOut
        requires { IsPeer from }
        ensures { (self.new, result) ≡ row_8 self.old me from reply }
    {
        self.heard.insert(from);
        self.count = self.count.max(reply.ballot.count);
        if is_newer(&reply, &self.best) {
            let to = others_outside(me, &self.asked, &reply.views);
            self.best = reply;
            self.asked = with_members(&self.asked, &reply.views);
            send(to, Message::Probe, Then::Rule(PhaseRule::EnoughHeard))
        } else {
            silent(Then::Rule(PhaseRule::EnoughHeard))
        }
    }

    /// Rule 9: once a quorum of the best fact's views was heard, ask for a ballot.
    pub fn rule_9(&mut self) -> PhaseOut
        ensures { (self.new, result) ≡ row_9 self.old }
    {
        if are_quorum(&self.heard, &self.best.views) {
            silent(Then::Rule(PhaseRule::Prepare))
        } else {
            silent(Then::Stay)
        }
    }
}
