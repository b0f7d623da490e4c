ghost use Rattle.std.specs.Prelude.{◌≡◌};
ghost use Rattle.world_model.specs.Activities.{activity_by, activity_in};

use crate::node::MemNode;
use crate::world::World;
use ens_base::{PeerId, PeerSet};
use peer_state::Phase;
use phase_rules::Election;

/// What a peer is doing: it is down, or runs in a phase. Preparing and starting are the two parts of
/// an election.
#[derive(Clone, Copy, Debug, PartialEq, Eq)]
pub enum Activity {
    Down,
    Following,
    Probing,
    Preparing,
    Starting,
    Leading,
}

/// Returns the activity of a peer that runs in this phase.
fn activity_of_phase(phase: &Phase) -> Activity
    ensures { result ≡ activity_in phase.now }
{
    match phase {
        Phase::Following(_) => Activity::Following,
        Phase::Probing(_) => Activity::Probing,
        Phase::Electing(Election::Preparing { .. }) => Activity::Preparing,
        Phase::Electing(Election::Starting { .. }) => Activity::Starting,
        Phase::Leading(_) => Activity::Leading,
    }
}

impl MemNode {
    /// Returns the activity of the peer.
    fn activity(&self) -> Activity
        ensures { result ≡ activity_by self.now }
    {
        match self {
            MemNode::Up(peer) => activity_of_phase(&peer.state().phase),
            MemNode::Down(_) => Activity::Down,
        }
    }
}

impl World {
    ghost use Rattle.std.specs.Prelude.{slice_index_or, false};
    ghost use Rattle.ens_base.specs.View.{IsPeer};
    ghost use Rattle.network.specs.Mail.{goes, is_among, oldest};
    ghost use Rattle.world_model.specs.Activities.{activity_at, is_stale as is_stale_in};
    ghost use Rattle.world_model.specs.Worlds.{run_of};

    /// Returns what `peer` is doing. A peer that the world does not have is down.
    pub fn activity(&self, peer: PeerId) -> Activity
        requires { IsPeer peer }
        ensures { result ≡ activity_at peer (run_of self.now) }
    {
        match self.peers.get((peer.0 - 1) as usize) {
            Some(found) => found.node.activity(),
            None => Activity::Down,
        }
    }

    /// Whether the message `number`, counted from 0, waits. A message that was not sent does not.
    pub fn waits(&self, number: usize) -> bool
        ensures { result ≡ slice_index_or (run_of self.now).mail.waits number false }
    {
        self.network.waits(number)
    }

    /// Whether the message `number`, counted from 0, was sent before trees got version two. Its
    /// delivery gives it to nobody.
    pub fn is_stale(&self, number: usize) -> bool
        ensures { result ≡ is_stale_in number (run_of self.now) }
    {
        number < self.first_alive
    }

    /// Returns the number, counted from 0, of the oldest message waiting from `from` to `to`.
    pub fn oldest_between(&self, from: PeerId, to: PeerId) -> Option<usize>
        requires { IsPeer from × IsPeer to }
        ensures { result ≡ oldest (goes from to) (run_of self.now).mail }
    {
        self.network.oldest_between(from, to)
    }

    /// Returns the number, counted from 0, of the oldest waiting message whose sender and receiver
    /// are both in `peers`.
    pub fn oldest_among(&self, peers: &PeerSet) -> Option<usize>
        ensures { result ≡ oldest (is_among peers.now) (run_of self.now).mail }
    {
        self.network.oldest_among(peers)
    }
}
