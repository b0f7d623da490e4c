ghost use Rattle.std.specs.Prelude.{◌≡◌};
ghost use Rattle.wire_frames.specs.EnsBase.{IsPeer};
ghost use Rattle.phase_rows.specs.Rows.{silent as is_silent, sends, saves, saves_and_sends, leaves_leading, refuses, refuses_below, at_ballot as with_ballot, anew_at_6 as then_at};

use crate::peers::alone;
use crate::phase::{PhaseOut, Then};
use crate::rules::PhaseRule;
use wire_frames::{Epoch, Fact, Message, NackCause, PeerId, PeerSet};

/// Saves nothing and sends nothing.
pub fn silent(then: Then) -> PhaseOut
    ensures { result ≡ is_silent then }
{
    PhaseOut {
        leave: false,
        save: None,
        to: PeerSet::empty(),
        message: None,
        then,
    }
}

/// Sends the message to the peers in `to`.
pub fn send(to: PeerSet, message: Message, then: Then) -> PhaseOut
    ensures { result ≡ sends to message then }
{
    PhaseOut {
        leave: false,
        save: None,
        to,
        message: Some(message),
        then,
    }
}

/// Saves the fact, and sends nothing.
pub fn save(fact: Fact, then: Then) -> PhaseOut
    ensures { result ≡ saves fact then }
{
    PhaseOut {
        leave: false,
        save: Some(fact),
        to: PeerSet::empty(),
        message: None,
        then,
    }
}

/// Saves the fact, and then sends the message to the peers in `to`.
pub fn save_and_send(fact: Fact, to: PeerSet, message: Message, then: Then) -> PhaseOut
    ensures { result ≡ saves_and_sends fact to message then }
{
    PhaseOut {
        leave: false,
        save: Some(fact),
        to,
        message: Some(message),
        then,
    }
}

/// Sends `peer` (1 to 31) a `Nack` with the cause, and does nothing else.
pub fn refuse(peer: PeerId, ballot: Epoch, cause: NackCause) -> PhaseOut
    requires { IsPeer peer }
    ensures { result ≡ refuses peer ballot cause }
{
    send(alone(peer), Message::Nack(ballot, cause), Then::Stay)
}

/// Sends `peer` (1 to 31) a `Nack` with the greater ballot that this fact promised, and does
/// nothing else.
pub fn refuse_below(peer: PeerId, ballot: Epoch, fact: &Fact) -> PhaseOut
    requires { IsPeer peer }
    ensures { result ≡ refuses_below peer ballot fact.now }
{
    refuse(peer, ballot, NackCause::Greater(fact.ballot))
}

/// The same answer, but a leader steps down first.
pub fn leave_leading(out: PhaseOut) -> PhaseOut
    ensures { result ≡ leaves_leading out }
{
    PhaseOut { leave: true, ..out }
}

/// Returns the fact with this ballot.
pub fn at_ballot(fact: &Fact, ballot: Epoch) -> Fact
    ensures { result ≡ with_ballot fact.now ballot }
{
    Fact { ballot, ..*fact }
}

/// Returns what to run at this age of probing or preparing: at 6, probing begins anew (rule 7).
pub fn anew_at_6(age: u8) -> Then
    ensures { result ≡ then_at age }
{
    if age == 6 {
        Then::Rule(PhaseRule::BeginProbing)
    } else {
        Then::Stay
    }
}
