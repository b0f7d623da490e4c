ghost use Rattle.std.specs.Prelude.{◌≡◌, IfOk, OnErr};
ghost use Rattle.ens_base.specs.View.{IsPeer};
ghost use Rattle.phase_rules.specs.Requests.{is_version_below as version_below, acknowledges, IsAcknowledgement, puts_over, puts_at, puts, row_22};

use crate::error::PhaseError;
use crate::refusals::{refusal, tell_damage};
use ens_base::{Entry, Epoch, PeerId, Version};
use phase_rows::{PhaseOut, Seen, Then, alone, is_below, send, silent};
use std::alloc::Global;
use wire_frames::{Fact, Message, NackCause, Object};

/// Returns whether the first version is below the second: by epoch, then by sequence number.
fn is_version_below(a: Version, b: Version) -> bool
    ensures { result ≡ version_below a b }
{
    is_below(a.epoch, b.epoch) || (a.epoch == b.epoch && a.seq < b.seq)
}

/// Acknowledges the put.
fn acknowledge(
    alloc: Global,
    from: PeerId,
    ballot: Epoch,
    object: &Object,
    then: Then,
) -> Result<PhaseOut, PhaseError>
    requires { IsPeer from }
    ensures { IfOk result (λ out. out ≡ acknowledges from ballot object.now then) }
{
    let key = object.key.copy(alloc)?;
    let reply = Message::PutReply(ballot, key, object.version);
    Ok(send(alone(from), reply, then))
}

/// Returns the answer to a put of a key that has an entry of this version in the tree.
fn put_over(
    alloc: Global,
    from: PeerId,
    ballot: Epoch,
    object: &Object,
    version: Version,
) -> Result<PhaseOut, PhaseError>
    requires { IsPeer from }
    ensures ok { IfOk result (λ out. out ≡ puts_over from ballot object.now version) }
    ensures memory { OnErr result (IsAcknowledgement from ballot object.now (puts_over from ballot object.now version)) }
{
    if version == object.version {
        acknowledge(alloc, from, ballot, object, Then::Stay)
    } else if is_version_below(object.version, version) {
        Ok(silent(Then::Stay))
    } else {
        acknowledge(alloc, from, ballot, object, Then::Put)
    }
}

/// Returns the answer to a put, from the entry of its key in the tree.
fn put_at(
    alloc: Global,
    from: PeerId,
    ballot: Epoch,
    object: &Object,
    entry: Option<Entry>,
) -> Result<PhaseOut, PhaseError>
    requires { IsPeer from }
    ensures ok { IfOk result (λ out. out ≡ puts_at from ballot object.now entry) }
    ensures memory { OnErr result (IsAcknowledgement from ballot object.now (puts_at from ballot object.now entry)) }
{
    match entry {
        None => acknowledge(alloc, from, ballot, object, Then::Put),
        Some(entry) => put_over(alloc, from, ballot, object, entry.version),
    }
}

/// Returns the answer to a put that is not refused, from what the stores returned.
fn put(
    alloc: Global,
    from: PeerId,
    ballot: Epoch,
    object: &Object,
    seen: Seen,
) -> Result<PhaseOut, PhaseError>
    requires { IsPeer from }
    ensures ok { IfOk result (λ out. out ≡ puts from ballot object.now seen) }
    ensures memory { OnErr result (IsAcknowledgement from ballot object.now (puts from ballot object.now seen)) }
{
    match seen {
        Seen::Damaged(place) => Ok(tell_damage(
            from,
            Message::Nack(ballot, NackCause::Damaged(place)),
        )),
        Seen::Held {
            entry,
            object: _kept,
        } => put_at(alloc, from, ballot, object, entry),
        Seen::Nothing | Seen::Kept(_) | Seen::Stored(_) => Ok(silent(Then::Stay)),
    }
}

/// Rule 22: a leader asks the peer to write an object. `from` is 1 to 31. Returns `Memory` when out
/// of memory for a copy of the object's key, and only if the put would be acknowledged.
pub fn rule_22(
    alloc: Global,
    fact: Fact,
    trusted: bool,
    from: PeerId,
    ballot: Epoch,
    object: &Object,
    seen: Seen,
) -> Result<PhaseOut, PhaseError>
    requires { IsPeer from }
    ensures ok { IfOk result (λ out. out ≡ row_22 fact trusted from ballot object.now seen) }
    ensures memory { OnErr result (IsAcknowledgement from ballot object.now (row_22 fact trusted from ballot object.now seen)) }
{
    match refusal(&fact, trusted, from, ballot) {
        Some(out) => Ok(out),
        None => put(alloc, from, ballot, object, seen),
    }
}
