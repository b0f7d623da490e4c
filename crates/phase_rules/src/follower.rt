ghost use Rattle.std.specs.Prelude.{◌≡◌, ◌<◌};

use ens_base::PeerId;
use phase_rows::{PhaseOut, PhaseRule, Then, is_member, silent};
use wire_frames::Fact;

/// The state of a peer that follows: the number of ticks since it last heard from a leader, 0 to 6.
#[derive(Clone, Copy, Debug, PartialEq, Eq)]
pub struct Follower {
    /// The number of ticks since the peer last heard from a leader, 0 to 6.
    pub quiet: u8,
}

/// The number of quiet ticks after which a peer asks the others for their facts.
const PATIENCE: u8 = 6;

impl Follower {
    ghost use Rattle.phase_rules.specs.Follower.{row_2};

    /// Rule 2, on a tick: a member of the views of its fact counts a quiet tick, and at the sixth
    /// runs rule
    /// 7. `quiet` must be below 6.
    pub fn rule_2(&mut self, fact: Fact, me: PeerId) -> PhaseOut
        requires { self.old.quiet < 6 }
        ensures { (self.new, result) ≡ row_2 self.old fact me }
    {
        if !is_member(&fact.views, me) {
            return silent(Then::Stay);
        }
        self.quiet += 1;
        if self.quiet == PATIENCE {
            silent(Then::Rule(PhaseRule::BeginProbing))
        } else {
            silent(Then::Stay)
        }
    }
}
