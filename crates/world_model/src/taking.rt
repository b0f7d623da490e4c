ghost use Rattle.std.specs.Prelude.{◌≡◌, IfOk, IfErr, OnOk};
ghost use Rattle.ens_base.specs.View.{IsPeer};
ghost use Rattle.world_spec.specs.Held.{account, empty_stores as no_stores};
ghost use Rattle.world_spec.specs.PeerSpec.{MayCome, AllMayGo};
ghost use Rattle.step_plans.specs.Outboxes.{out_of};
ghost use Rattle.world_spec.specs.Nodes.{is_down as is_down_node, hashed_by_start, stopped, taken, Down};
ghost use Rattle.world_spec.specs.Steps.{ComesTo, StartsAs};
ghost use Rattle.world_model.specs.Peers.{node_of};
ghost use Rattle.world_model.specs.Refusals.{world_error as error_of, IsCutOff};

use crate::error::WorldError;
use crate::node::{MemNode, empty_stores};
use crate::peer::WorldPeer;
use ens_base::{PeerId, View};
use hash_book::Hasher16;
use peer_core::{Event, Mode, Peer, StartError};
use std::alloc::Global;
use std::thread::Threads;
use step_plans::{Outbox, PeerError};

/// Returns the error with which a failed step ends the run, or `None` if the run goes on: after a
/// store fault the peer is down.
fn world_error(error: PeerError) -> Option<WorldError>
    ensures { result ≡ error_of error }
{
    match error {
        PeerError::StoreFault | PeerError::Halted | PeerError::BadFact(_) => None,
        PeerError::Memory => Some(WorldError::Memory),
        PeerError::Clash { first, second } => Some(WorldError::Clash { first, second }),
        PeerError::BookFull(bytes) => Some(WorldError::BookFull(bytes)),
    }
}

impl WorldPeer {
    /// Makes a peer that is down, over empty stores.
    pub(crate) fn empty(alloc: Global, me: PeerId) -> WorldPeer
        requires { IsPeer me }
        ensures me { result.me ≡ me }
        ensures node { node_of result ≡ Down no_stores }
    {
        WorldPeer {
            me,
            node: MemNode::Down(empty_stores(alloc)),
        }
    }

    /// Stops the peer. It keeps its stores.
    pub(crate) fn stop(&mut self, alloc: Global)
        ensures node { node_of self.new ≡ stopped (node_of self.old) }
        ensures me { self.new.me ≡ self.old.me }
    {
        self.node.stop(alloc);
    }

    /// Whether the peer is down.
    pub(crate) fn is_down(&self) -> bool
        ensures { result ≡ is_down_node (node_of self.now) }
    {
        self.node.is_down()
    }

    /// Starts the peer in this mode if it is down. If the start is refused, the peer stays down.
    #[inline(never)]
    pub(crate) fn start<H: Hasher16, R: Threads + Sync>(
        &mut self,
        rt: &R,
        alloc: Global,
        mode: Mode,
        opening: View,
        hasher: &mut H,
    ) -> Result<(), WorldError>
        ensures ok { OnOk result (StartsAs (account H.kept H.clashes H.fulls hasher.old) (account H.kept H.clashes H.fulls hasher.new) mode opening (node_of self.old) (node_of self.new)) }
        ensures me { self.new.me ≡ self.old.me }
        ensures error { IfErr result (IsCutOff (hashed_by_start mode opening (node_of self.old)) (account H.kept H.clashes H.fulls hasher.old) (account H.kept H.clashes H.fulls hasher.new)) }
    {
        let MemNode::Down(held) = &mut self.node else {
            return Ok(());
        };
        let stores = std::mem::replace(held, empty_stores(alloc));
        match Peer::start(rt, alloc, self.me, opening, mode, stores, hasher) {
            Ok(peer) => {
                self.node = MemNode::Up(peer);
                Ok(())
            }
            Err(refused) => {
                let StartError { error, held } = refused;
                self.node = MemNode::Down(held);
                match world_error(error) {
                    None => Ok(()),
                    Some(error) => Err(error),
                }
            }
        }
    }

    /// Steps the peer, and returns its output. A peer that is down does nothing.
    pub(crate) fn step<H: Hasher16, R: Threads + Sync>(
        &mut self,
        rt: &R,
        alloc: Global,
        hasher: &mut H,
        event: Event,
    ) -> Result<Outbox, WorldError>
        requires { MayCome self.old.me event }
        ensures taken { IfOk result (λ out. ComesTo (account H.kept H.clashes H.fulls hasher.old)
            (account H.kept H.clashes H.fulls hasher.new) (taken self.old.me event (node_of self.old))
            (node_of self.new) (out_of out) out.notes.items) }
        ensures may_go { IfOk result (λ out. AllMayGo self.old.me (out_of out)) }
        ensures me { self.new.me ≡ self.old.me }
        ensures error { IfErr result (IsCutOff (taken self.old.me event (node_of self.old)).hashed (account H.kept H.clashes H.fulls hasher.old) (account H.kept H.clashes H.fulls hasher.new)) }
    {
        let mut out = Outbox::new(alloc);
        let MemNode::Up(peer) = &mut self.node else {
            return Ok(out);
        };
        match peer.step(rt, alloc, event, hasher, &mut out) {
            Ok(()) => Ok(out),
            Err(error) => {
                self.node.stop(alloc);
                match world_error(error) {
                    None => Ok(out),
                    Some(error) => Err(error),
                }
            }
        }
    }
}
