ghost use Rattle.std.specs.Prelude.{◌≡◌, true, false, replicate};
ghost use Rattle.ens_base.specs.PeerSet.{holds};
ghost use Rattle.quorums.specs.Quorums.{is_quorum, HasEvery};
ghost use Rattle.quorums.specs.Rounds.{AreWith, IsState, answered, begun, state_of};

use crate::tally::Tally;
use ens_base::{PeerId, Views};

/// The state of a round.
#[derive(Clone, Copy, Debug, PartialEq, Eq)]
pub enum RoundState {
    /// The peers that answered are not a quorum.
    Open,
    /// The peers that answered are a quorum, and some member of some view has not answered.
    Met,
    /// Every member of every view has answered.
    AllAnswered,
}

/// The answers to a question that a leader asked all members of its views. Needs no heap memory.
#[derive(Clone, Copy, Debug)]
pub struct Round {
    /// The answers, as votes.
    pub tally: Tally,
}

impl Round {
    /// Begins a round on these views. The answer of `me` counts if it is a member of some view.
    #[tactic(auto, unfolding(crate::specs::Rounds::begun, crate::specs::Rounds::answered))]
    pub fn start(views: Views, me: PeerId) -> Round
        ensures round { result ≡ begun views me }
        ensures views { result.tally.views ≡ views }
        ensures votes { AreWith views me (replicate 32 false) result.tally.votes }
    {
        let mut tally = Tally::new(views);
        tally.vote(me);
        Round { tally }
    }

    /// Counts the answer of `peer`. A second answer of the same peer, or an answer of a peer that
    /// is in no view, changes nothing.
    #[tactic(auto, unfolding(crate::specs::Rounds::answered))]
    pub fn vote(&mut self, peer: PeerId)
        ensures round { self.new ≡ answered peer self.old }
        ensures views { self.new.tally.views ≡ self.old.tally.views }
        ensures votes { AreWith self.old.tally.views peer self.old.tally.votes self.new.tally.votes }
    {
        self.tally.vote(peer);
    }

    /// Returns the state of the round.
    #[tactic(auto, unfolding(crate::specs::Rounds::state_of))]
    pub fn outcome(&self) -> RoundState
        ensures exact { result ≡ state_of self.now }
        ensures state { IsState (holds self.now.tally.votes) self.now.tally.views result }
        ensures open { is_quorum (holds self.now.tally.votes) self.now.tally.views ≡ false → result ≡ RoundState.Open }
        ensures all { HasEvery (holds self.now.tally.votes) self.now.tally.views → result ≡ RoundState.AllAnswered }
    {
        if self.tally.has_every() {
            RoundState::AllAnswered
        } else if self.tally.is_quorum() {
            RoundState::Met
        } else {
            RoundState::Open
        }
    }
}
