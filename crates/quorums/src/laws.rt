ghost use Rattle.std.specs.Prelude.{◌≡◌, ◌↔◌, ℕ, Bool, true, false, List};
ghost use Rattle.quorums.specs.Quorums.{is_majority, is_quorum, is_member, has_all, has_every, IsMember, HasAll, HasEvery, Meet, SharesView, QuorumsMeet, MissesEveryQuorum};

/// Two majorities of one view have a member in common, and so have quorums of two lists that share
/// a view. A set with more peers than a quorum is a quorum. Members need not be distinct for this.
pub fn quorums_meet()
    ensures majorities { (left right : ℕ → Bool) (view : List ℕ) → is_majority left view ≡ true → is_majority right view ≡ true → Meet left right view }
    ensures quorums { (left right : ℕ → Bool) (views others : List (List ℕ)) → SharesView views others
        → is_quorum left views ≡ true → is_quorum right others ≡ true → QuorumsMeet left right views others }
    ensures more { (peers more : ℕ → Bool) → ((q : ℕ) → peers q ≡ true → more q ≡ true) → (views : List (List ℕ)) → is_quorum peers views ≡ true → is_quorum more views ≡ true }
{}

/// A set is not a quorum exactly if every quorum has a member, of some view, that is not in the
/// set.
pub fn no_quorum_is_missed()
    ensures { (peers : ℕ → Bool) (views : List (List ℕ)) → ((is_quorum peers views ≡ false) ↔ MissesEveryQuorum peers views) }
{}

/// The tests of membership and of full votes hold exactly if the relations of the same name do.
pub fn tests_decide()
    ensures member { (views : List (List ℕ)) (peer : ℕ) → ((is_member views peer ≡ true) ↔ IsMember views peer) }
    ensures all { (peers : ℕ → Bool) (view : List ℕ) → ((has_all peers view ≡ true) ↔ HasAll peers view) }
    ensures every { (peers : ℕ → Bool) (views : List (List ℕ)) → ((has_every peers views ≡ true) ↔ HasEvery peers views) }
{}
