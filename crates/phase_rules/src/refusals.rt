ghost use Rattle.std.specs.Prelude.{◌≡◌, ◌&&◌};
ghost use Rattle.ens_base.specs.View.{IsPeer};
ghost use Rattle.phase_rules.specs.Refusals.{refusal as refusal_of, is_served as serves, tells_damage as told_damage};

use ens_base::{Epoch, PeerId};
use phase_rows::{
    PhaseOut, Then, alone, is_below, leave_leading, refuse, refuse_below, send, silent,
};
use wire_frames::{Fact, Message, NackCause};

/// Returns the answer of a peer that does not do what the leader of this epoch asks, or `None` if
/// it does.
pub(crate) fn refusal(fact: &Fact, trusted: bool, from: PeerId, ballot: Epoch) -> Option<PhaseOut>
    requires { IsPeer from }
    ensures { result ≡ refusal_of fact.now trusted from ballot }
{
    if is_below(ballot, fact.ballot) {
        Some(refuse_below(from, ballot, fact))
    } else if fact.epoch != ballot {
        Some(silent(Then::Stay))
    } else if !trusted {
        Some(refuse(from, ballot, NackCause::Untrusted))
    } else {
        None
    }
}

/// Whether rules 21 and 22 do what the leader of this ballot asks, and so read the path of the key.
pub fn is_served(fact: &Fact, trusted: bool, ballot: Epoch) -> bool
    ensures { result ≡ serves fact.now trusted ballot }
{
    !is_below(ballot, fact.ballot) && fact.epoch == ballot && trusted
}

/// Returns the answer of a peer that found damage: it sends `message` to `peer`, 1 to 31, and stops
/// trusting its tree.
pub fn tell_damage(peer: PeerId, message: Message) -> PhaseOut
    requires { IsPeer peer }
    ensures { result ≡ told_damage peer message }
{
    leave_leading(send(alone(peer), message, Then::Untrust))
}
