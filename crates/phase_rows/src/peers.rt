ghost use Rattle.std.specs.Prelude.{◌≡◌};
ghost use Rattle.wire_frames.specs.EnsBase.{holds, IsPeer};
ghost use Rattle.quorums.specs.Quorums.{is_quorum};
ghost use Rattle.phase_rows.specs.Peers.{alone as alone_set, joined as joined_set, others_outside as outside_set, with_members as with_set, others_of as others_set};

use quorums::{Tally, is_member};
use wire_frames::{PeerId, PeerSet, Views};

/// Returns the set of this peer alone. Its number is 1 to 31.
pub fn alone(peer: PeerId) -> PeerSet
    requires { IsPeer peer }
    ensures { result ≡ alone_set peer }
{
    joined(PeerSet::empty(), peer)
}

/// Returns the set with this peer added. Its number is 1 to 31.
pub fn joined(set: PeerSet, peer: PeerId) -> PeerSet
    requires { IsPeer peer }
    ensures { result ≡ joined_set peer set }
{
    let mut joined = set;
    joined.insert(peer);
    joined
}

/// Returns the members of the views that are not in the set, except `me`.
pub fn others_outside(me: PeerId, set: &PeerSet, views: &Views) -> PeerSet
    ensures { result ≡ outside_set me set.now views.now }
{
    let mut others = PeerSet::empty();
    for number in 1..32 {
        let peer = PeerId(number);
        if is_member(views, peer) && peer != me && !set.has(peer) {
            others.insert(peer);
        }
    }
    others
}

/// Returns the union of the set and the members of the views.
pub fn with_members(set: &PeerSet, views: &Views) -> PeerSet
    ensures { result ≡ with_set set.now views.now }
{
    let mut all = PeerSet::empty();
    for number in 1..32 {
        let peer = PeerId(number);
        if set.has(peer) || is_member(views, peer) {
            all.insert(peer);
        }
    }
    all
}

/// Returns the set without `me`.
pub fn others_of(me: PeerId, set: &PeerSet) -> PeerSet
    ensures { result ≡ others_set me set.now }
{
    let mut others = PeerSet::empty();
    for number in 1..32 {
        let peer = PeerId(number);
        if set.has(peer) && peer != me {
            others.insert(peer);
        }
    }
    others
}

/// Returns whether these peers are a quorum: a majority of each view.
pub fn are_quorum(peers: &PeerSet, views: &Views) -> bool
    ensures { result ≡ is_quorum (holds peers.now) views.now }
{
    let tally = Tally {
        views: *views,
        votes: *peers,
    };
    tally.is_quorum()
}
