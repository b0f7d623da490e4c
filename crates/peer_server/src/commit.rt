ghost use Rattle.std.specs.Prelude.{◌≡◌, ◌≤◌, ◌↔◌, [], All, IfErr, IfOk, IsTrue, Ok, OnErr, OnOk, Some};
ghost use Rattle.ens_base.specs.Causes.{Rose};
ghost use Rattle.ens_base.specs.View.{IsPeer};
ghost use Rattle.fact_store.specs.Commits.{Committed};
ghost use Rattle.fact_store.specs.Files.{FileRefuses, file_kept};
ghost use Rattle.fact_store.specs.Keeping.{Save};
ghost use Rattle.fact_store.specs.declared.error.KeepError.TheVariants as keeps;
ghost use Rattle.peer_turns.specs.Sending.{SendsInOrder};
ghost use Rattle.peer_server.specs.Commits.{CommitBroke, CommitMade, IsSendable, TurnEnded};
ghost use Rattle.peer_state.specs.Moves.{saved_by};
ghost use Rattle.peer_server.specs.Faults.{status_of};
ghost use Rattle.peer_server.specs.Lines.{frames_waiting};
ghost use Rattle.peer_server.specs.Turning.{IsReady};
ghost use Rattle.peer_server.specs.declared.error.ServeError.TheVariants as errors;

use crate::error::{ServeError, link_error};
use crate::server::Server;
use ens_base::{PeerId, PeerWords};
use environment::{Link, LinkError};
use fact_store::is_kept;
use peer_state::State;
use peer_turns::send_out;
use slot_disk::Disk;
use std::alloc::Global;
use std::mem::replace;
use step_plans::Outbox;
use stored_formats::SavedFact;

/// Returns the fact that the peer saved last, with its seal.
pub(crate) fn fact_of(state: &State) -> SavedFact
    ensures { result ≡ saved_by state.now }
{
    SavedFact {
        fact: state.fact,
        seal: state.seal,
    }
}

/// Sends what some steps put out, in their order.
fn send_all<L: Link>(
    alloc: Global,
    me: PeerId,
    link: &mut L,
    unsent: Vec<Outbox>,
) -> Result<(), LinkError>
    requires me { IsPeer me }
    requires sendable { All (IsSendable me) unsent.items }
    ensures { SendsInOrder L.sent L.given L.fault_count (frames_waiting me unsent.items) link.old link.new result }
{
    for out in unsent {
        send_out(alloc, me, link, out)?;
    }
    Ok(())
}

/// Sends what waits, and leaves nothing waiting.
fn send_waiting<L: Link, D: Disk>(
    alloc: Global,
    me: PeerId,
    link: &mut L,
    server: &mut Server<D>,
) -> Result<(), LinkError>
    requires me { IsPeer me }
    requires sendable { All (IsSendable me) server.old.unsent.items }
    ensures sends { SendsInOrder L.sent L.given L.fault_count (frames_waiting me server.old.unsent.items) link.old link.new result }
    ensures none { server.new.unsent.items ≡ [] }
    ensures peer { server.new.peer ≡ server.old.peer }
    ensures facts { server.new.facts ≡ server.old.facts }
{
    let unsent = replace(&mut server.unsent, Vec::new(alloc));
    send_all(alloc, me, link, unsent)
}

/// Commits the fact of the peer to its disk.
fn save<D: Disk>(server: &mut Server<D>) -> Result<(), ServeError>
    ensures saved { OnOk result (Committed D.seen D.may_leave D.moment D.left_since D.fault_count (saved_by server.old.peer.machine.state) server.old.facts server.new.facts) }
    ensures refused { OnErr result (FileRefuses D.seen D.may_leave D.moment D.left_since D.fault_count server.old.facts (Save (saved_by server.old.peer.machine.state)) keeps.Failed server.new.facts) }
    ensures store { IfErr result (λ e. e ≡ errors.Store) }
    ensures peer { server.new.peer ≡ server.old.peer }
    ensures unsent { server.new.unsent ≡ server.old.unsent }
{
    let fact = fact_of(server.peer.state());
    if fact_store::commit(&mut server.facts, &fact).is_err() {
        return Err(ServeError::Store);
    }
    Ok(())
}

/// Commits the fact of the peer to its disk, and then sends what its steps put out since the last
/// commit.
///
/// # Errors
///
/// `Store` if the fact was not saved, and then nothing is sent; `Link` and `Memory` if a frame was not
/// sent, and then a prefix of the frames was.
pub(crate) fn commit<L: Link, D: Disk>(
    alloc: Global,
    words: &PeerWords,
    link: &mut L,
    server: &mut Server<D>,
) -> Result<(), ServeError>
    requires me { IsPeer words.now.me }
    requires ready { IsReady words.now server.old }
    ensures made { OnOk result (CommitMade D.seen D.may_leave D.moment D.left_since D.fault_count L.sent L.given L.fault_count words.now.me server.old server.new link.old link.new) }
    ensures ready { OnOk result (IsReady words.now server.new) }
    ensures broke { IfErr result (λ e. CommitBroke D.seen D.may_leave D.moment D.left_since D.fault_count L.sent
        L.given L.fault_count words.now.me (status_of e) server.old server.new link.old link.new) }
    ensures later { L.fault_count link.old ≤ L.fault_count link.new }
    ensures fault { IfErr result (λ e. e ≡ errors.Link → Rose (L.fault_count link.old) (L.fault_count link.new)) }
{
    save(server)?;
    match send_waiting(alloc, words.me, link, server) {
        Ok(()) => Ok(()),
        Err(e) => Err(link_error(e)),
    }
}

/// How many turns share a commit at most. A commit costs three syncs of the disk; while frames come one
/// after another, it waits until so many turns were made.
const GROUP: u64 = 32;

/// Returns whether the fact of the peer is on its disk.
fn is_committed<D: Disk>(server: &mut Server<D>) -> bool
    ensures kept { IsTrue result ↔ (file_kept server.old.facts ≡ Some (Ok (saved_by server.old.peer.machine.state))) }
    ensures same { server.new ≡ server.old }
{
    let fact = fact_of(server.peer.state());
    is_kept(&mut server.facts, &fact)
}

/// Sends what the steps of a peer put out, where its fact is on its disk: a commit that saves nothing.
fn send_committed<L: Link, D: Disk>(
    alloc: Global,
    words: &PeerWords,
    link: &mut L,
    server: &mut Server<D>,
) -> Result<(), ServeError>
    requires me { IsPeer words.now.me }
    requires ready { IsReady words.now server.old }
    requires kept { file_kept server.old.facts ≡ Some (Ok (saved_by server.old.peer.machine.state)) }
    ensures made { OnOk result (CommitMade D.seen D.may_leave D.moment D.left_since D.fault_count L.sent L.given L.fault_count words.now.me server.old server.new link.old link.new) }
    ensures ready { OnOk result (IsReady words.now server.new) }
    ensures broke { IfErr result (λ e. CommitBroke D.seen D.may_leave D.moment D.left_since D.fault_count L.sent
        L.given L.fault_count words.now.me (status_of e) server.old server.new link.old link.new) }
    ensures later { L.fault_count link.old ≤ L.fault_count link.new }
    ensures fault { IfErr result (λ e. e ≡ errors.Link → Rose (L.fault_count link.old) (L.fault_count link.new)) }
{
    if let Err(e) = send_waiting(alloc, words.me, link, server) {
        return Err(link_error(e));
    }
    Ok(())
}

/// Ends a turn, the last of those that wait for a commit: commits if the turn found nothing, if its steps
/// changed no fact, or if no more turns may share the commit. Returns how many turns wait now.
pub(crate) fn end_turn<L: Link, D: Disk>(
    alloc: Global,
    words: &PeerWords,
    link: &mut L,
    server: &mut Server<D>,
    is_quiet: bool,
    waiting: u64,
) -> Result<u64, ServeError>
    requires me { IsPeer words.now.me }
    requires ready { IsReady words.now server.old }
    ensures ended { IfOk result (λ left. TurnEnded D.seen D.may_leave D.moment D.left_since D.fault_count L.sent
        L.given L.fault_count words.now.me waiting left server.old server.new link.old link.new) }
    ensures ready { OnOk result (IsReady words.now server.new) }
    ensures broke { IfErr result (λ e. CommitBroke D.seen D.may_leave D.moment D.left_since D.fault_count L.sent
        L.given L.fault_count words.now.me (status_of e) server.old server.new link.old link.new) }
    ensures later { L.fault_count link.old ≤ L.fault_count link.new }
    ensures fault { IfErr result (λ e. e ≡ errors.Link → Rose (L.fault_count link.old) (L.fault_count link.new)) }
{
    if is_committed(server) {
        send_committed(alloc, words, link, server)?;
        return Ok(0);
    }
    if is_quiet || waiting >= GROUP {
        commit(alloc, words, link, server)?;
        return Ok(0);
    }
    Ok(waiting)
}
