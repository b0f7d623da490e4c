ghost use Rattle.std.specs.Prelude.{◌≡◌};
ghost use Rattle.ens_base.specs.View.{IsPeer};
ghost use Rattle.phase_rules.specs.Changes.{same_view, may_change as may, row_24, second_fact as second, commits, row_25};

use crate::finishing::Finishing;
use ens_base::{PeerId, PeerSet, View};
use phase_rows::{Message, PhaseOut, PhaseRule, Then, alone, others_of, save_and_send, silent};
use stored_formats::{Change, Fact};

/// Returns whether two views have the same members.
fn is_same_view(a: View, b: View) -> bool
    ensures { result ≡ same_view a b }
{
    a.members() == b.members()
}

/// Returns whether a leader may change to this view.
fn may_change(fact: &Fact, leading: bool, finishing: bool, view: View) -> bool
    ensures { result ≡ may fact.now leading finishing view }
{
    match fact.views.second() {
        Some(_old) => false,
        None => leading && !finishing && !is_same_view(fact.views.first(), view),
    }
}

/// Rule 24: a request to change to this view. Returns whether it is taken.
pub fn rule_24(fact: Fact, leading: bool, finishing: bool, view: View) -> (PhaseOut, bool)
    ensures { result ≡ row_24 fact leading finishing view }
{
    if may_change(&fact, leading, finishing, view) {
        (silent(Then::Rule(PhaseRule::BeginChange)), true)
    } else {
        (silent(Then::Stay), false)
    }
}

/// Returns the second fact of the epoch: the first one with the change.
fn second_fact(fact: &Fact, change: Change) -> Fact
    ensures { result ≡ second fact.now change }
{
    Fact {
        seq: 2,
        change,
        ..*fact
    }
}

/// Saves the second fact, and asks the others to accept it.
fn commit(second: &Fact, others: PeerSet) -> PhaseOut
    ensures { result ≡ commits second.now others }
{
    save_and_send(*second, others, Message::Commit(*second), Then::Stay)
}

/// Rule 25: begin a change. `accepts` are the peers that accepted the epoch. `me` is 1 to 31.
pub fn rule_25(
    fact: Fact,
    me: PeerId,
    accepts: PeerSet,
    change: Change,
) -> (PhaseOut, Option<Finishing>)
    requires { IsPeer me }
    ensures { result ≡ row_25 fact me accepts change }
{
    let second = second_fact(&fact, change);
    let finishing = Finishing {
        accepts2: alone(me),
        age: 0,
    };
    let others = others_of(me, &accepts);
    (commit(&second, others), Some(finishing))
}
