ghost use Rattle.std.specs.Prelude.{◌≡◌, ◌↔◌, IsTrue};

use ens_base::{Digest, Epoch, Views};
use stored_formats::{Change, Fact, SavedFact};

/// Returns whether both epochs are the same.
fn is_same_epoch(epoch: Epoch, other: Epoch) -> bool
    ensures { IsTrue result ↔ (epoch ≡ other) }
{
    epoch == other
}

/// Returns whether both lists of views are the same.
fn are_same_views(views: Views, others: Views) -> bool
    ensures { IsTrue result ↔ (views ≡ others) }
{
    views == others
}

/// Returns whether both changes are the same.
fn is_same_change(change: Change, other: Change) -> bool
    ensures { IsTrue result ↔ (change ≡ other) }
{
    change == other
}

/// Returns whether both seals are the same.
fn is_same_seal(seal: Option<Digest>, other: Option<Digest>) -> bool
    ensures { IsTrue result ↔ (seal ≡ other) }
{
    seal == other
}

/// Returns whether both facts are the same.
fn is_same_fact(fact: &Fact, other: &Fact) -> bool
    ensures { IsTrue result ↔ (fact.now ≡ other.now) }
{
    is_same_epoch(fact.ballot, other.ballot)
        && is_same_epoch(fact.epoch, other.epoch)
        && fact.seq == other.seq
        && fact.leader == other.leader
        && are_same_views(fact.views, other.views)
        && is_same_change(fact.change, other.change)
}

/// Returns whether both saved facts are the same.
pub(crate) fn is_same(fact: &SavedFact, other: &SavedFact) -> bool
    ensures { IsTrue result ↔ (fact.now ≡ other.now) }
{
    is_same_fact(&fact.fact, &other.fact) && is_same_seal(fact.seal, other.seal)
}
