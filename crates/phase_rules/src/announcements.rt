ghost use Rattle.std.specs.Prelude.{◌≡◌};
ghost use Rattle.ens_base.specs.View.{IsPeer};
ghost use Rattle.phase_rules.specs.Announcements.{accepts, awaits_sync, takes, row_16, commits, row_18, row_19};

use crate::refusals::refusal;
use ens_base::{Epoch, PeerId};
use phase_rows::{
    PhaseOut, Then, alone, at_ballot, is_below, leave_leading, may_accept, refuse_below, save,
    save_and_send, send, silent,
};
use wire_frames::{Fact, Message};

/// Returns what a peer does that may not accept the fact yet.
fn await_sync(fact: &Fact, sync_runs: bool, new: Fact) -> PhaseOut
    ensures { result ≡ awaits_sync fact.now sync_runs new }
{
    if is_below(fact.ballot, new.epoch) {
        save(at_ballot(fact, new.epoch), Then::SyncOn(new))
    } else if sync_runs {
        silent(Then::Resume)
    } else {
        silent(Then::SyncOn(new))
    }
}

/// Accepts the fact.
fn accept(from: PeerId, new: Fact) -> PhaseOut
    requires { IsPeer from }
    ensures { result ≡ accepts from new }
{
    save_and_send(
        new,
        alone(from),
        Message::Accepted(new.epoch, 1),
        Then::Follow,
    )
}

/// Accepts the fact if the peer may, and otherwise waits for a sync.
fn take_epoch(
    fact: &Fact,
    me: PeerId,
    trusted: bool,
    sync_runs: bool,
    from: PeerId,
    new: Fact,
) -> PhaseOut
    requires { IsPeer from }
    ensures { result ≡ takes fact.now me trusted sync_runs from new }
{
    if may_accept(trusted, me, &new) {
        accept(from, new)
    } else {
        await_sync(fact, sync_runs, new)
    }
}

/// Rule 16: a leader announces the fact of its epoch. `from` is 1 to 31.
pub fn rule_16(
    fact: Fact,
    me: PeerId,
    trusted: bool,
    sync_runs: bool,
    from: PeerId,
    new: Fact,
) -> PhaseOut
    requires { IsPeer from }
    ensures { result ≡ row_16 fact me trusted sync_runs from new }
{
    if is_below(new.epoch, fact.ballot) {
        refuse_below(from, new.epoch, &fact)
    } else if new.epoch == fact.epoch {
        send(alone(from), Message::Accepted(new.epoch, 1), Then::Follow)
    } else {
        leave_leading(take_epoch(&fact, me, trusted, sync_runs, from, new))
    }
}

/// Returns the answer to a second fact, of a peer that accepted its epoch and trusts its tree.
fn take_commit(fact: &Fact, from: PeerId, commit: Fact) -> PhaseOut
    requires { IsPeer from }
    ensures { result ≡ commits fact.now from commit }
{
    let accepted = Message::Accepted(commit.epoch, 2);
    if fact.seq == 1 {
        save_and_send(commit, alone(from), accepted, Then::Follow)
    } else {
        send(alone(from), accepted, Then::Follow)
    }
}

/// Rule 18: a leader announces the second fact of its epoch, with the change. `from` is 1 to 31.
pub fn rule_18(fact: Fact, trusted: bool, from: PeerId, commit: Fact) -> PhaseOut
    requires { IsPeer from }
    ensures { result ≡ row_18 fact trusted from commit }
{
    match refusal(&fact, trusted, from, commit.epoch) {
        Some(out) => out,
        None => take_commit(&fact, from, commit),
    }
}

/// Rule 19: the leader of an epoch shows that it is alive. `from` is 1 to 31.
pub fn rule_19(fact: Fact, trusted: bool, from: PeerId, ballot: Epoch) -> PhaseOut
    requires { IsPeer from }
    ensures { result ≡ row_19 fact trusted from ballot }
{
    if is_below(ballot, fact.ballot) {
        refuse_below(from, ballot, &fact)
    } else if fact.epoch == ballot && trusted {
        silent(Then::Follow)
    } else {
        silent(Then::Stay)
    }
}
