ghost use Rattle.std.specs.Prelude.{◌≡◌};
ghost use Rattle.ens_base.specs.View.{IsPeer};
ghost use Rattle.phase_rules.specs.Preparing.{PreparesBelow6, prepares, first_fact as first, starts, elected, row_3, row_10, row_12, row_13};

use crate::election::Election;
use ens_base::{Epoch, PeerId, PeerSet, Views};
use phase_rows::{
    Message, PhaseOut, PhaseRule, Then, alone, anew_at_6, are_quorum, at_ballot, is_member,
    is_newer, is_same, may_accept, members, others_of, others_outside, save_and_send, send, silent,
    with_members,
};
use stored_formats::{Change, Fact};

/// Saves the ballot, promises it for `me`, and asks the other members of the base's views.
fn prepare(fact: Fact, me: PeerId, base: Fact, ballot: Epoch) -> (PhaseOut, Option<Election>)
    requires { IsPeer me }
    ensures { result ≡ prepares fact me base ballot }
{
    let asked = members(&base.views);
    let out = save_and_send(
        at_ballot(&fact, ballot),
        others_of(me, &asked),
        Message::Prepare(ballot),
        Then::Rule(PhaseRule::EnoughPromised),
    );
    let state = Election::Preparing {
        base,
        promises: alone(me),
        asked,
        age: 0,
    };
    (out, Some(state))
}

/// Rule 10: ask for the ballot after this count. A peer that is in none of the views that follow
/// the best fact follows instead, and so does one whose count is the greatest u64.
pub fn rule_10(fact: Fact, me: PeerId, best: Fact, count: u64) -> (PhaseOut, Option<Election>)
    requires { IsPeer me }
    ensures { result ≡ row_10 fact me best count }
{
    if !is_member(&best.next_views(), me) || count == u64::MAX {
        return (silent(Then::Follow), None);
    }
    let ballot = Epoch {
        count: count + 1,
        proposer: me.0,
    };
    prepare(fact, me, best, ballot)
}

/// Returns the first fact of the epoch that begins at the saved ballot.
fn first_fact(fact: &Fact, me: PeerId, views: Views) -> Fact
    ensures { result ≡ first fact.now me views }
{
    Fact {
        ballot: fact.ballot,
        epoch: fact.ballot,
        seq: 1,
        leader: me,
        views,
        change: Change::None,
    }
}

/// Begins the epoch of the new fact.
#[tactic(auto, unfolding(crate::specs::Preparing::starts))]
fn start(trusted: bool, me: PeerId, new: Fact) -> (Election, PhaseOut)
    requires { IsPeer me }
    ensures { result ≡ starts trusted me new }
{
    let to = others_of(me, &members(&new.views));
    let message = Message::NewEpoch(new);
    if may_accept(trusted, me, &new) {
        let state = Election::Starting {
            fact: new,
            accepts: alone(me),
            age: 0,
        };
        (
            state,
            save_and_send(new, to, message, Then::Rule(PhaseRule::EnoughAccepted)),
        )
    } else {
        let state = Election::Starting {
            fact: new,
            accepts: PeerSet::empty(),
            age: 0,
        };
        (state, send(to, message, Then::SyncOn(new)))
    }
}

impl Election {
    /// Rule 3, on a tick: the age of a peer that prepares rises by 1, and at 6 probing begins anew.
    pub fn rule_3(&mut self) -> PhaseOut
        requires { PreparesBelow6 self.old }
        ensures { (self.new, result) ≡ row_3 self.old }
    {
        match self {
            Election::Preparing { age, .. } => {
                *age += 1;
                silent(anew_at_6(*age))
            }
            Election::Starting { .. } => silent(Then::Stay),
        }
    }

    /// Rule 12: count a promise of this peer's ballot while preparing. If the promised fact is
    /// newer than the base, it becomes the base, and the members of its views that were not asked
    /// before are asked. Ignore any other promise.
    pub fn rule_12(
        &mut self,
        fact: Fact,
        me: PeerId,
        from: PeerId,
        ballot: Epoch,
        promised: Fact,
    ) -> PhaseOut
        requires { IsPeer from }
        ensures { (self.new, result) ≡ row_12 self.old fact me from ballot promised }
    {
        match self {
            Election::Preparing {
                base,
                promises,
                asked,
                ..
            } => {
                if is_same(ballot, fact.ballot) {
                    promises.insert(from);
                    if is_newer(&promised, base) {
                        let to = others_outside(me, asked, &promised.views);
                        *base = promised;
                        *asked = with_members(asked, &promised.views);
                        send(
                            to,
                            Message::Prepare(ballot),
                            Then::Rule(PhaseRule::EnoughPromised),
                        )
                    } else {
                        silent(Then::Rule(PhaseRule::EnoughPromised))
                    }
                } else {
                    silent(Then::Stay)
                }
            }
            Election::Starting { .. } => silent(Then::Stay),
        }
    }

    /// Begins the epoch on these views, or follows if the peer is in none of them.
    fn elect(&mut self, fact: &Fact, me: PeerId, trusted: bool, views: Views) -> PhaseOut
        requires { IsPeer me }
        ensures { (self.new, result) ≡ elected self.old fact.now me trusted views }
    {
        if is_member(&views, me) {
            let (state, out) = start(trusted, me, first_fact(fact, me, views));
            *self = state;
            out
        } else {
            silent(Then::Follow)
        }
    }

    /// Rule 13: once a quorum of the base's views promised, begin the epoch on the views that
    /// follow the base. A peer that is in none of them follows.
    pub fn rule_13(&mut self, fact: Fact, me: PeerId, trusted: bool) -> PhaseOut
        requires { IsPeer me }
        ensures { (self.new, result) ≡ row_13 self.old fact me trusted }
    {
        match self {
            Election::Preparing { base, promises, .. } => {
                if are_quorum(promises, &base.views) {
                    let views = base.next_views();
                    self.elect(&fact, me, trusted, views)
                } else {
                    silent(Then::Stay)
                }
            }
            Election::Starting { .. } => silent(Then::Stay),
        }
    }
}
