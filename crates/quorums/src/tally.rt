ghost use Rattle.std.specs.Prelude.{◌≡◌, ◌↔◌, ◌≤◌, ◌==◌, ◌||◌, ℕ, IsTrue, length, replicate, true, false};
ghost use Rattle.ens_base.specs.Lists.{is_in as is_in_list};
ghost use Rattle.ens_base.specs.PeerSet.{holds};
ghost use Rattle.quorums.specs.Members.{members as members_of};
ghost use Rattle.quorums.specs.Quorums.{is_majority, is_quorum, is_member as is_member_of, has_all as has_all_of, has_every, voted, IsMember, HasAll, HasEvery};

use ens_base::{PeerId, PeerSet, View, Views};

/// The votes of members on a list of views. The vote of a peer that is in no view, and a second
/// vote of one peer, change nothing.
#[derive(Clone, Copy, Debug)]
pub struct Tally {
    /// The views whose members may vote.
    pub views: Views,
    /// The members that voted.
    pub votes: PeerSet,
}

fn is_majority(votes: &PeerSet, view: &View) -> bool
    ensures { result ≡ is_majority (holds votes.now) view.now }
{
    let members = view.members();
    let voted = members
        .iter()
        .filter(|m| votes.has(PeerId(u32::from(**m))))
        .count();
    voted > members.len() / 2
}

fn has_all(votes: &PeerSet, view: &View) -> bool
    ensures test { result ≡ has_all_of (holds votes.now) view.now }
    ensures all { IsTrue result ↔ HasAll (holds votes.now) view.now }
    ensures majority { IsTrue result → is_majority (holds votes.now) view.now ≡ true }
{
    view.members()
        .iter()
        .all(|m| votes.has(PeerId(u32::from(*m))))
}

/// Returns whether the peer is a member of the view.
pub fn is_in(view: &View, peer: PeerId) -> bool
    ensures member { result ≡ is_in_list view.now peer }
    ensures range { IsTrue result → (1 ≤ peer) × (peer ≤ 31) }
{
    view.has(peer)
}

/// Returns the set with the members of the view added.
fn with_view(set: PeerSet, view: &View) -> PeerSet
    ensures size { length result ≡ length set }
    ensures members { (p : ℕ) → holds result p ≡ (is_in_list view.now p || holds set p) }
    ensures none { holds set 0 ≡ false → holds result 0 ≡ false }
{
    let mut all = set;
    for member in view.members() {
        all.insert(PeerId(u32::from(*member)));
    }
    all
}

/// Returns the members of all the views.
pub fn members(views: &Views) -> PeerSet
    ensures set { result ≡ members_of views.now }
    ensures members { (p : ℕ) → holds result p ≡ is_member_of views.now p }
{
    let set = with_view(PeerSet::empty(), &views.first());
    match views.second() {
        None => set,
        Some(old) => with_view(set, &old),
    }
}

/// Returns whether the peer is a member of some view.
pub fn is_member(views: &Views, peer: PeerId) -> bool
    ensures member { result ≡ is_member_of views.now peer }
    ensures range { IsTrue result → (1 ≤ peer) × (peer ≤ 31) }
{
    let first = views.first();
    match views.second() {
        None => is_in(&first, peer),
        Some(old) => is_in(&first, peer) || is_in(&old, peer),
    }
}

impl Tally {
    /// Begins a tally on these views, without votes.
    pub fn new(views: Views) -> Tally
        ensures views { result.views ≡ views }
        ensures none { result.votes ≡ replicate 32 false }
    {
        Tally {
            views,
            votes: PeerSet::empty(),
        }
    }

    /// Counts the vote of `peer` if it is a member of some view.
    pub fn vote(&mut self, peer: PeerId)
        ensures votes { self.new.votes ≡ voted self.old.views peer self.old.votes }
        ensures views { self.new.views ≡ self.old.views }
        ensures member { IsMember self.old.views peer → (p : ℕ) → holds self.new.votes p ≡ (p == peer || holds self.old.votes p) }
        ensures other { ¬ IsMember self.old.views peer → self.new.votes ≡ self.old.votes }
    {
        if is_member(&self.views, peer) {
            self.votes.insert(peer);
        }
    }

    /// Returns whether more than half of the members of each view voted.
    pub fn is_quorum(&self) -> bool
        ensures { result ≡ is_quorum (holds self.now.votes) self.now.views }
    {
        let first = self.views.first();
        match self.views.second() {
            None => is_majority(&self.votes, &first),
            Some(old) => is_majority(&self.votes, &first) && is_majority(&self.votes, &old),
        }
    }

    /// Returns whether all members of this view voted.
    pub fn has_all(&self, view: View) -> bool
        ensures test { result ≡ has_all_of (holds self.now.votes) view }
        ensures all { IsTrue result ↔ HasAll (holds self.now.votes) view }
    {
        has_all(&self.votes, &view)
    }

    /// Returns whether all members of all views voted. They are a quorum, since every view has a
    /// member.
    pub fn has_every(&self) -> bool
        ensures test { result ≡ has_every (holds self.now.votes) self.now.views }
        ensures every { IsTrue result ↔ HasEvery (holds self.now.votes) self.now.views }
        ensures quorum { IsTrue result → is_quorum (holds self.now.votes) self.now.views ≡ true }
    {
        let first = self.views.first();
        match self.views.second() {
            None => has_all(&self.votes, &first),
            Some(old) => has_all(&self.votes, &first) && has_all(&self.votes, &old),
        }
    }
}
