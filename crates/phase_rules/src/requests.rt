ghost use Rattle.std.specs.Prelude.{◌≡◌, Ok};
ghost use Rattle.ens_base.specs.View.{IsPeer};
ghost use Rattle.phase_rules.specs.Requests.{row_20, gets, row_21, is_damaged as tells_of_damage, gives, row_23};

use crate::error::PhaseError;
use crate::refusals::{refusal, tell_damage};
use ens_base::{Epoch, Key, PeerId};
use phase_rows::{PhaseOut, Seen, Then, alone, is_below, refuse_below, send, silent};
use tree_node::{Position, TreeBody};
use wire_frames::{Fact, Message, NackCause};

/// Rule 20: a leader asks whether the peer is still at its ballot. `from` is 1 to 31.
pub fn rule_20(fact: Fact, from: PeerId, ballot: Epoch, round: u64) -> PhaseOut
    requires { IsPeer from }
    ensures { result ≡ row_20 fact from ballot round }
{
    if is_below(ballot, fact.ballot) {
        refuse_below(from, ballot, &fact)
    } else if ballot == fact.ballot {
        send(alone(from), Message::CheckReply(ballot, round), Then::Stay)
    } else {
        silent(Then::Stay)
    }
}

/// Returns the answer to a Get that is not refused, from what the stores returned.
fn answer_get(from: PeerId, ballot: Epoch, round: u64, key: Key, seen: Seen) -> PhaseOut
    requires { IsPeer from }
    ensures { result ≡ gets from ballot round key seen }
{
    match seen {
        Seen::Damaged(place) => {
            tell_damage(from, Message::Nack(ballot, NackCause::Damaged(place)))
        }
        Seen::Held { entry, object } => {
            let reply = Message::GetReply(ballot, round, key, entry, object);
            send(alone(from), reply, Then::Stay)
        }
        Seen::Nothing | Seen::Kept(_) | Seen::Stored(_) => silent(Then::Stay),
    }
}

/// Rule 21: a leader asks what the peer has under a key. `from` is 1 to 31. Allocates nothing and
/// never fails.
pub fn rule_21(
    fact: Fact,
    trusted: bool,
    from: PeerId,
    ballot: Epoch,
    round: u64,
    key: Key,
    seen: Seen,
) -> Result<PhaseOut, PhaseError>
    requires { IsPeer from }
    ensures { result ≡ Ok (row_21 fact trusted from ballot round key seen) }
{
    match refusal(&fact, trusted, from, ballot) {
        Some(out) => Ok(out),
        None => Ok(answer_get(from, ballot, round, key, seen)),
    }
}

/// Returns whether this give reports damage.
fn is_damaged(body: &TreeBody) -> bool
    ensures { result ≡ tells_of_damage body.now }
{
    match body {
        TreeBody::Inner { .. } | TreeBody::Page { .. } => false,
        TreeBody::Damaged(_place) => true,
    }
}

/// Returns the answer that gives a node.
fn give(
    trusted: bool,
    from: PeerId,
    ballot: Epoch,
    at: Position,
    after: Option<Key>,
    body: TreeBody,
) -> PhaseOut
    requires { IsPeer from }
    ensures { result ≡ gives trusted from ballot at after body }
{
    if is_damaged(&body) {
        tell_damage(from, Message::TreeGive(ballot, at, after, false, body))
    } else {
        send(
            alone(from),
            Message::TreeGive(ballot, at, after, trusted, body),
            Then::Stay,
        )
    }
}

/// Rule 23: a peer that runs a sync asks for a node of the tree, or for the entries of a segment
/// above a key. `body` is what was read of the node, if the ballot is the promised one. `from` is 1
/// to 31. Allocates nothing and never fails.
pub fn rule_23(
    fact: Fact,
    trusted: bool,
    from: PeerId,
    ballot: Epoch,
    at: Position,
    after: Option<Key>,
    body: Option<TreeBody>,
) -> Result<PhaseOut, PhaseError>
    requires { IsPeer from }
    ensures { result ≡ Ok (row_23 fact trusted from ballot at after body) }
{
    if is_below(ballot, fact.ballot) {
        return Ok(refuse_below(from, ballot, &fact));
    }
    if ballot != fact.ballot {
        return Ok(silent(Then::Stay));
    }
    match body {
        None => Ok(silent(Then::Stay)),
        Some(body) => Ok(give(trusted, from, ballot, at, after, body)),
    }
}
