ghost use Rattle.std.specs.Prelude.{◌≡◌};
ghost use Rattle.ens_base.specs.View.{IsPeer};

use ens_base::{Epoch, PeerId, PeerSet};
use phase_rows::{PhaseOut, PhaseRule, Then, are_quorum, is_member, joined, silent};
use stored_formats::Fact;

/// The state of a leader that waits for its epoch to end: the peers that accepted the second fact
/// of the epoch, and the number of ticks that it has waited, 0 to 8.
#[derive(Clone, Copy, Debug, PartialEq, Eq)]
pub struct Finishing {
    /// The peers that accepted the second fact.
    pub accepts2: PeerSet,
    /// The number of ticks since the change began, 0 to 8.
    pub age: u8,
}

impl Finishing {
    ghost use Rattle.phase_rules.specs.Finishing.{row_17, row_26};

    /// Rule 17, on an acceptance: count `from` if it accepted the second fact of this peer's
    /// ballot. `from` is 1 to 31.
    pub fn rule_17(&mut self, fact: Fact, from: PeerId, ballot: Epoch, seq: u64) -> PhaseOut
        requires { IsPeer from }
        ensures { (self.new, result) ≡ row_17 self.old fact from ballot seq }
    {
        if ballot == fact.ballot && seq == 2 {
            self.accepts2 = joined(self.accepts2, from);
        }
        silent(Then::Stay)
    }

    /// Rule 26, at the end of a step: end the epoch if it may end. `unanswered` says whether a call
    /// of the leader is unanswered.
    pub fn rule_26(&mut self, fact: Fact, me: PeerId, unanswered: bool) -> PhaseOut
        ensures { (self.new, result) ≡ row_26 self.old fact me unanswered }
    {
        if !are_quorum(&self.accepts2, &fact.views) || unanswered {
            silent(Then::Stay)
        } else if is_member(&fact.next_views(), me) {
            silent(Then::Rule(PhaseRule::Prepare))
        } else {
            silent(Then::Follow)
        }
    }
}
