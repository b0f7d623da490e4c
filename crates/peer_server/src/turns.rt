ghost use Rattle.std.specs.Prelude.{◌≡◌, ◌≤◌, ◌<◌, ◌+◌, ◌-◌, ◌^◌, [], ◌∷◌, ◌++◌, ℕ, List, Option, Some, None, IfOk, IfErr, OnOk, OnErr, length, true};
ghost use Rattle.ens_base.specs.Causes.{Rose};
ghost use Rattle.environment.specs.Links.{AnswersNext};
ghost use Rattle.ens_base.specs.View.{IsPeer};
ghost use Rattle.peer_spec.specs.Drives.{MayCome, step_of};
ghost use Rattle.peer_server.specs.DiskPeers.{disks_do, disks_refuse};
ghost use Rattle.peer_server.specs.Faults.{status_of};
ghost use Rattle.peer_server.specs.Commits.{IsSendable};
ghost use Rattle.peer_server.specs.Lines.{looked, posted};
ghost use Rattle.peer_server.specs.Rounds.{AllMade, BrokeAt};
ghost use Rattle.peer_server.specs.Turning.{AreCounted, CanStep, FindBroke, IsFound, IsReady, LookBroke, LookMade, Place, RanInto, StepBroke, Stepped, TickCame, TurnBroke, TurnMade, begun_at, point};
ghost use Rattle.peer_server.specs.declared.error.ServeError.TheVariants as errors;
ghost use Rattle.step_plans.specs.Outboxes.{out_of};
ghost use Rattle.step_plans.specs.Plans.{Finished, Runs};
ghost use Rattle.peer_turns.specs.Ends.{ComesFrom};
ghost use Rattle.peer_turns.specs.Going.{Grew};
ghost use Rattle.peer_turns.specs.Turns.{Turn, is_client};

use crate::commit::{commit, end_turn};
use crate::disks::DiskPeer;
use crate::error::{ServeError, link_error, peer_error};
use crate::server::Server;
use ens_base::PeerWords;
use environment::{Link, Ticker};
use hash_book::PlainHasher;
use peer_state::Event;
use peer_turns::event_of;
use slot_disk::Disk;
use std::alloc::Global;
use std::thread::Threads;
use step_plans::Outbox;
use wire_frames::{FrameError, decode_frame};

/// How many frames were steps, and how many were ignored.
#[derive(Clone, Copy, Debug)]
pub(crate) struct Counts {
    pub(crate) taken: u64,
    pub(crate) ignored: u64,
}

/// What a look gave.
#[derive(Drop)]
pub(crate) enum Found {
    /// No frame.
    Nothing,
    /// A frame that the peer ignores.
    Ignored,
    /// A frame that the peer takes.
    Taken(Event),
}

/// Takes one step, and returns what it puts out.
fn take_step<D: Disk, R: Threads + Sync>(
    rt: &R,
    alloc: Global,
    words: &PeerWords,
    peer: &mut DiskPeer<D>,
    event: Event,
) -> Result<Outbox, ServeError>
    requires ready { CanStep words.now peer.old }
    requires may { MayCome words.now.me event }
    requires from { ComesFrom is_client event }
    ensures ran { IfOk result (λ out. Runs (disks_do D.seen D.fault_count) (disks_refuse D.seen D.fault_count)
        (step_of words.now.me event peer.old.machine.state) (peer.old.machine.stores, record {}) []
        (Finished peer.new.machine.state (out_of out)) (peer.new.machine.stores, record {}) out.notes.items) }
    ensures ready { OnOk result (CanStep words.now peer.new) }
    ensures sendable { IfOk result (IsSendable words.now.me) }
    ensures stopped { IfErr result (λ e. RanInto (disks_do D.seen D.fault_count) (disks_refuse D.seen D.fault_count)
        (status_of e) (step_of words.now.me event peer.old.machine.state) (peer.old.machine.stores, record {})
        (peer.new.machine.stores, record {})) }
    ensures no_link { IfErr result (λ e. e ≡ errors.Link → ⊥) }
{
    let mut out = Outbox::new(alloc);
    match peer.step(rt, alloc, event, &mut PlainHasher, &mut out) {
        Ok(()) => Ok(out),
        Err(e) => Err(peer_error(e)),
    }
}

/// Appends what a step put out to what waits for the next commit.
fn keep(unsent: &mut Vec<Outbox>, out: Outbox) -> Result<(), ServeError>
    ensures more { OnOk result (unsent.new.items ≡ unsent.old.items ++ out ∷ []) }
    ensures same { OnErr result (unsent.new.items ≡ unsent.old.items) }
    ensures memory { IfErr result (λ e. e ≡ errors.Memory) }
{
    if unsent.push(out).is_err() {
        return Err(ServeError::Memory);
    }
    Ok(())
}

/// Takes one step. What it puts out waits for the next commit.
fn step<D: Disk, R: Threads + Sync>(
    rt: &R,
    alloc: Global,
    words: &PeerWords,
    server: &mut Server<D>,
    event: Event,
) -> Result<(), ServeError>
    requires ready { IsReady words.now server.old }
    requires may { MayCome words.now.me event }
    requires from { ComesFrom is_client event }
    ensures stepped { OnOk result (Stepped D.seen D.fault_count words.now.me event server.old server.new) }
    ensures ready { OnOk result (IsReady words.now server.new) }
    ensures broke { IfErr result (λ e. StepBroke D.seen D.fault_count words.now.me event (status_of e) server.old server.new) }
    ensures file { server.new.facts ≡ server.old.facts }
    ensures no_link { IfErr result (λ e. e ≡ errors.Link → ⊥) }
{
    let out = take_step(rt, alloc, words, &mut server.peer, event)?;
    keep(&mut server.unsent, out)?;
    Ok(())
}

/// Returns what the peer does on the bytes of a frame.
fn read(alloc: Global, words: &PeerWords, bytes: &[u8]) -> Result<Found, ServeError>
    requires { words.now.peers ≤ 31 }
    ensures found { IfOk result (IsFound words.now (Some bytes.now)) }
    ensures memory { IfErr result (λ e. e ≡ errors.Memory) }
{
    let frame = match decode_frame(alloc, bytes) {
        Ok(frame) => frame,
        Err(error) => {
            return match error {
                FrameError::Memory => Err(ServeError::Memory),
                _ => Ok(Found::Ignored),
            };
        }
    };
    match event_of(words, frame) {
        Some(event) => Ok(Found::Taken(event)),
        None => Ok(Found::Ignored),
    }
}

/// Looks once for a frame.
fn find<L: Link>(alloc: Global, words: &PeerWords, link: &mut L) -> Result<Found, ServeError>
    requires { words.now.peers ≤ 31 }
    ensures found { IfOk result (λ f. (look : Option (List ℕ)) × Grew (L.given link.old) (L.given link.new) (look ∷ []) × IsFound words.now look f) }
    ensures broke { IfErr result (λ e. FindBroke (L.given link.old) (L.given link.new) (status_of e)) }
    ensures sent { Grew (L.sent link.old) (L.sent link.new) [] }
    ensures later { L.fault_count link.old ≤ L.fault_count link.new }
    ensures fault { IfErr result (λ e. e ≡ errors.Link → Rose (L.fault_count link.old) (L.fault_count link.new)) }
{
    let bytes = match link.receive(alloc) {
        Ok(Some(bytes)) => bytes,
        Ok(None) => return Ok(Found::Nothing),
        Err(e) => return Err(link_error(e)),
    };
    read(alloc, words, &bytes)
}

/// Looks once, and takes a step on the frame that is found, if the peer takes it. Returns whether nothing
/// was found.
fn look<L: Link, D: Disk, R: Threads + Sync>(
    rt: &R,
    alloc: Global,
    words: &PeerWords,
    link: &mut L,
    server: &mut Server<D>,
    counts: &mut Counts,
) -> Result<bool, ServeError>
    requires peers { words.now.peers ≤ 31 }
    requires ready { IsReady words.now server.old }
    requires room { counts.old.taken + counts.old.ignored < 2 ^ 64 - 1 }
    ensures made { OnOk result (LookMade (disks_do D.seen D.fault_count) (disks_refuse D.seen D.fault_count)
        (posted L.sent words.now.me) (looked L.given) words.now (point server.old link.old)
        (point server.new link.new) counts.old counts.new) }
    ensures ready { OnOk result (IsReady words.now server.new) }
    ensures file { server.new.facts ≡ server.old.facts }
    ensures sent { Grew (L.sent link.old) (L.sent link.new) [] }
    ensures broke { IfErr result (λ e. LookBroke (disks_do D.seen D.fault_count) (disks_refuse D.seen D.fault_count)
        (posted L.sent words.now.me) (looked L.given) words.now (status_of e) (point server.old link.old)
        (point server.new link.new)) }
    ensures later { L.fault_count link.old ≤ L.fault_count link.new }
    ensures fault { IfErr result (λ e. e ≡ errors.Link → Rose (L.fault_count link.old) (L.fault_count link.new)) }
{
    match find(alloc, words, link)? {
        Found::Nothing => Ok(true),
        Found::Ignored => {
            counts.ignored += 1;
            Ok(false)
        }
        Found::Taken(event) => {
            counts.taken += 1;
            step(rt, alloc, words, server, event)?;
            Ok(false)
        }
    }
}

/// Asks the ticker once, and takes a step on a tick that is due.
fn tick<D: Disk, T: Ticker, R: Threads + Sync>(
    rt: &R,
    alloc: Global,
    words: &PeerWords,
    ticker: &mut T,
    server: &mut Server<D>,
) -> Result<(), ServeError>
    requires ready { IsReady words.now server.old }
    ensures made { OnOk result (TickCame D.seen D.fault_count T.coming words.now.me server.old server.new ticker.old ticker.new) }
    ensures ready { OnOk result (IsReady words.now server.new) }
    ensures broke { IfErr result (λ e. StepBroke D.seen D.fault_count words.now.me Event.Tick (status_of e) server.old server.new) }
    ensures due { OnErr result (AnswersNext (T.coming ticker.old) (T.coming ticker.new) true) }
    ensures file { server.new.facts ≡ server.old.facts }
    ensures no_link { IfErr result (λ e. e ≡ errors.Link → ⊥) }
{
    if ticker.due() {
        step(rt, alloc, words, server, Event::Tick)
    } else {
        Ok(())
    }
}

/// Makes one turn: a look, and then a question to the ticker. Returns whether the look found nothing.
fn turn<L: Link, D: Disk, T: Ticker, R: Threads + Sync>(
    rt: &R,
    alloc: Global,
    words: &PeerWords,
    link: &mut L,
    ticker: &mut T,
    server: &mut Server<D>,
    counts: &mut Counts,
) -> Result<bool, ServeError>
    requires peers { words.now.peers ≤ 31 }
    requires ready { IsReady words.now server.old }
    requires room { counts.old.taken + counts.old.ignored < 2 ^ 64 - 1 }
    ensures made { OnOk result (TurnMade (disks_do D.seen D.fault_count) (disks_refuse D.seen D.fault_count)
        (posted L.sent words.now.me) (looked L.given) T.coming words.now (point server.old link.old)
        (point server.new link.new) ticker.old ticker.new counts.old counts.new) }
    ensures ready { OnOk result (IsReady words.now server.new) }
    ensures file { server.new.facts ≡ server.old.facts }
    ensures sent { Grew (L.sent link.old) (L.sent link.new) [] }
    ensures broke { IfErr result (λ e. TurnBroke (disks_do D.seen D.fault_count) (disks_refuse D.seen D.fault_count)
        (posted L.sent words.now.me) (looked L.given) T.coming words.now (status_of e) (point server.old link.old)
        (point server.new link.new) ticker.old ticker.new) }
    ensures later { L.fault_count link.old ≤ L.fault_count link.new }
    ensures fault { IfErr result (λ e. e ≡ errors.Link → Rose (L.fault_count link.old) (L.fault_count link.new)) }
{
    let is_quiet = look(rt, alloc, words, link, server, counts)?;
    tick(rt, alloc, words, ticker, server)?;
    Ok(is_quiet)
}

/// Makes all turns, and ends with a commit.
pub(crate) fn turns<L: Link, D: Disk, T: Ticker, R: Threads + Sync>(
    rt: &R,
    alloc: Global,
    words: &PeerWords,
    link: &mut L,
    ticker: &mut T,
    server: &mut Server<D>,
) -> Result<Counts, ServeError>
    requires peers { words.now.peers ≤ 31 }
    requires me { IsPeer words.now.me }
    requires ready { IsReady words.now server.old }
    requires none { server.old.unsent.items ≡ [] }
    ensures made { IfOk result (λ counts. (turns : List Turn) × (length turns ≡ words.now.turns)
        × AllMade D.seen D.may_leave D.moment D.left_since D.fault_count L.sent L.given T.coming words.now
        server.old server.new link.old link.new ticker.old ticker.new turns × AreCounted words.now turns counts) }
    ensures broke { IfErr result (λ e. (turns : List Turn) × (place : Place)
        × (length turns + begun_at place ≤ words.now.turns)
        × BrokeAt D.seen D.may_leave D.moment D.left_since D.fault_count L.sent L.given T.coming words.now
        (status_of e) server.old server.new link.old link.new ticker.old ticker.new turns place) }
    ensures later { L.fault_count link.old ≤ L.fault_count link.new }
    ensures fault { IfErr result (λ e. e ≡ errors.Link → Rose (L.fault_count link.old) (L.fault_count link.new)) }
{
    let mut counts = Counts {
        taken: 0,
        ignored: 0,
    };
    let mut waiting = 0;
    for _made in 0..words.turns {
        let is_quiet = turn(rt, alloc, words, link, ticker, server, &mut counts)?;
        let left = end_turn(alloc, words, link, server, is_quiet, waiting + 1)?;
        waiting = left;
    }
    commit(alloc, words, link, server)?;
    Ok(counts)
}
