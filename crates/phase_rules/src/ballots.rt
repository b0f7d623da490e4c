ghost use Rattle.std.specs.Prelude.{◌≡◌};
ghost use Rattle.ens_base.specs.View.{IsPeer};
ghost use Rattle.phase_rules.specs.Ballots.{promises_to, row_11, row_15};

use ens_base::{Epoch, PeerId};
use phase_rows::{
    Message, NackCause, PhaseOut, Then, alone, at_ballot, is_below, is_same, leave_leading,
    refuse_below, save_and_send, silent,
};
use stored_formats::Fact;

/// Saves the fact with the new ballot, and sends the promise to `from`.
fn promise(promised: &Fact, from: PeerId) -> PhaseOut
    requires { IsPeer from }
    ensures { result ≡ promises_to from promised.now }
{
    let message = Message::Promise(promised.ballot, *promised);
    leave_leading(save_and_send(*promised, alone(from), message, Then::Follow))
}

/// Rule 11: promise a ballot above the saved one, step down if leading, and follow. Ignore an equal
/// ballot; refuse one below.
pub fn rule_11(fact: Fact, from: PeerId, ballot: Epoch) -> PhaseOut
    requires { IsPeer from }
    ensures { result ≡ row_11 fact from ballot }
{
    if is_below(fact.ballot, ballot) {
        promise(&at_ballot(&fact, ballot), from)
    } else if is_same(ballot, fact.ballot) {
        silent(Then::Stay)
    } else {
        refuse_below(from, ballot, &fact)
    }
}

/// Rule 15: if this peer's ballot was refused for a greater one, step down if leading, and follow.
/// Ignore any other `Nack`.
pub fn rule_15(fact: Fact, ballot: Epoch, cause: NackCause) -> PhaseOut
    ensures { result ≡ row_15 fact ballot cause }
{
    match cause {
        NackCause::Greater(other) => {
            if is_same(ballot, fact.ballot) && is_below(ballot, other) {
                leave_leading(silent(Then::Follow))
            } else {
                silent(Then::Stay)
            }
        }
        NackCause::Untrusted => silent(Then::Stay),
        NackCause::Damaged(_position) => silent(Then::Stay),
    }
}
