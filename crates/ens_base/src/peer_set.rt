ghost use Rattle.std.specs.Prelude.{◌≡◌, ◌≤◌, ◌==◌, ◌||◌, ℕ, true, false, replicate, slice_set};
ghost use Rattle.ens_base.specs.PeerSet.{holds};

use crate::peer::PeerId;
use std::marker::Model;

/// A set of peers. Contracts see 32 flags, one for each number from 0 to 31.
#[derive(Clone, Copy, Debug, PartialEq, Eq)]
pub struct PeerSet {
    flags: [bool; 32],
}

impl Model for PeerSet {
    ghost use Rattle.std.specs.Prelude.{◌≡◌, Bool, List};

    ghost Value = { List Bool };

    ghost view = { λ s. s.flags };

    ghost inverse = { λ flags. record { flags = flags } };
}

impl PeerSet {
    /// Returns the empty set.
    pub fn empty() -> PeerSet
        ensures { result ≡ replicate 32 false }
    {
        PeerSet { flags: [false; 32] }
    }

    /// Adds `peer`, which must be 1 to 31. Adding a member again changes nothing.
    pub fn insert(&mut self, peer: PeerId)
        requires { (1 ≤ peer) × (peer ≤ 31) }
        ensures set { self.new ≡ slice_set self.old peer true }
        ensures members { (p : ℕ) → holds self.new p ≡ (p == peer || holds self.old p) }
    {
        self.flags[peer.0 as usize] = true;
    }

    /// Returns whether the set contains `peer`. It contains no number above 31.
    pub fn has(&self, peer: PeerId) -> bool
        ensures { result ≡ holds self.now peer }
    {
        let place = peer.0 as usize;
        place < 32 && self.flags[place]
    }
}
