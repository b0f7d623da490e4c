ghost use Rattle.std.specs.Prelude.{◌≡◌};
ghost use Rattle.ens_base.specs.View.{IsPeer};
ghost use Rattle.phase_rules.specs.Starting.{StartsBelow8, resumes, insists, row_4, row_14, row_17};

use crate::election::Election;
use ens_base::{Epoch, PeerId, PeerSet};
use phase_rows::{
    Message, PhaseOut, PhaseRule, Then, are_quorum, is_same, others_outside, send, silent,
};
use stored_formats::Fact;

/// Resumes a running sync.
fn resume(sync_runs: bool) -> Then
    ensures { result ≡ resumes sync_runs }
{
    if sync_runs { Then::Resume } else { Then::Stay }
}

/// Returns what a starting peer does at this age.
fn insist(new: &Fact, accepts: &PeerSet, age: u8, me: PeerId, sync_runs: bool) -> PhaseOut
    ensures { result ≡ insists new.now accepts.now age me sync_runs }
{
    if age == 8 {
        return silent(Then::Follow);
    }
    let to = others_outside(me, accepts, &new.views);
    send(to, Message::NewEpoch(*new), resume(sync_runs))
}

impl Election {
    /// Rule 4, on a tick: the age of a starting peer rises by 1. At 8 it gives up and follows.
    /// Before that, send the fact again to the members that have not accepted it, and resume a
    /// running sync.
    pub fn rule_4(&mut self, me: PeerId, sync_runs: bool) -> PhaseOut
        requires { StartsBelow8 self.old }
        ensures { (self.new, result) ≡ row_4 self.old me sync_runs }
    {
        match self {
            Election::Preparing { .. } => silent(Then::Stay),
            Election::Starting { fact, accepts, age } => {
                *age += 1;
                insist(fact, accepts, *age, me, sync_runs)
            }
        }
    }

    /// Rule 14: lead, once this peer and a quorum of the fact's views have accepted the fact.
    pub fn rule_14(&mut self, me: PeerId) -> PhaseOut
        ensures { (self.new, result) ≡ row_14 self.old me }
    {
        match self {
            Election::Preparing { .. } => silent(Then::Stay),
            Election::Starting { fact, accepts, .. } => {
                if accepts.has(me) && are_quorum(accepts, &fact.views) {
                    silent(Then::Lead(*fact))
                } else {
                    silent(Then::Stay)
                }
            }
        }
    }

    /// Rule 17: count an acceptance of the first fact of this peer's ballot while starting. Ignore
    /// any other acceptance.
    pub fn rule_17(&mut self, fact: Fact, from: PeerId, ballot: Epoch, seq: u64) -> PhaseOut
        requires { IsPeer from }
        ensures { (self.new, result) ≡ row_17 self.old fact from ballot seq }
    {
        match self {
            Election::Preparing { .. } => silent(Then::Stay),
            Election::Starting { accepts, .. } => {
                if is_same(ballot, fact.ballot) && seq == 1 {
                    accepts.insert(from);
                    silent(Then::Rule(PhaseRule::EnoughAccepted))
                } else {
                    silent(Then::Stay)
                }
            }
        }
    }
}
