ghost use Rattle.std.specs.Prelude.{◌≡◌, ◌≤◌, ◌<◌, ◌^◌, IfErr, OnOk};
ghost use Rattle.world_spec.specs.Nodes.{over_stores, while_down};
ghost use Rattle.world_spec.specs.Stores.{failing, inner_spoiled, leaves_of, segment_spoiled, spoiled, taken_back};
ghost use Rattle.world_model.specs.MemNodes.{node_from, ResumesAs};
ghost use Rattle.world_model.specs.Peers.{node_of};

use crate::error::WorldError;
use crate::node::{MemNode, MemStores, empty_stores};
use crate::peer::WorldPeer;
use crate::store_faults;
use ens_base::{Bytes, Key};
use peer_core::Suspended;
use schedule_text::{StoreName, Survivor};
use std::alloc::Global;

impl WorldPeer {
    /// Takes the peer apart: returns its stores, and the rest of it if it runs. Until `join`, it is
    /// down over empty stores.
    fn split(&mut self, alloc: Global) -> (Option<Suspended>, MemStores)
        ensures own { ResumesAs self.old.me result.0 }
        ensures node { node_from result.0 result.1 ≡ node_of self.old }
        ensures me { self.new.me ≡ self.old.me }
    {
        match std::mem::replace(&mut self.node, MemNode::Down(empty_stores(alloc))) {
            MemNode::Up(peer) => {
                let (running, stores) = peer.suspend();
                (Some(running), stores)
            }
            MemNode::Down(stores) => (None, stores),
        }
    }

    /// Puts a peer together that was taken apart.
    fn join(&mut self, running: Option<Suspended>, stores: MemStores)
        requires { ResumesAs self.old.me running }
        ensures node { node_of self.new ≡ node_from running stores }
        ensures me { self.new.me ≡ self.old.me }
    {
        match running {
            Some(running) => self.node = MemNode::Up(running.resume(stores)),
            None => self.node = MemNode::Down(stores),
        }
    }

    /// Makes the next write of a store fail.
    #[inline(never)]
    pub(crate) fn fail_next(&mut self, alloc: Global, store: StoreName, survivor: Survivor)
        ensures node { node_of self.new ≡ over_stores (failing store (leaves_of survivor)) (node_of self.old) }
        ensures me { self.new.me ≡ self.old.me }
    {
        let (running, mut stores) = self.split(alloc);
        store_faults::fail_next(alloc, &mut stores, store, survivor);
        self.join(running, stores);
    }

    /// Replaces the bytes of an object, or removes it. Fails when out of memory.
    #[inline(never)]
    pub(crate) fn spoil(
        &mut self,
        alloc: Global,
        key: &Key,
        bytes: &Option<Bytes>,
    ) -> Result<(), WorldError>
        ensures ok { OnOk result (node_of self.new ≡ over_stores (spoiled key.now bytes.now) (node_of self.old)) }
        ensures me { self.new.me ≡ self.old.me }
        ensures memory { IfErr result (λ e. e ≡ WorldError.Memory) }
    {
        let (running, mut stores) = self.split(alloc);
        let spoiled = store_faults::spoil(alloc, &mut stores, key, bytes);
        self.join(running, stores);
        spoiled
    }

    /// Replaces the bytes of the segment of a key, or removes that node. Fails when out of memory.
    #[inline(never)]
    pub(crate) fn damage(
        &mut self,
        alloc: Global,
        key: &Key,
        bytes: &Option<Bytes>,
    ) -> Result<(), WorldError>
        ensures ok { OnOk result (node_of self.new ≡ over_stores (segment_spoiled key.now bytes.now) (node_of self.old)) }
        ensures me { self.new.me ≡ self.old.me }
        ensures memory { IfErr result (λ e. e ≡ WorldError.Memory) }
    {
        let (running, mut stores) = self.split(alloc);
        let damaged = store_faults::damage(alloc, &mut stores, key, bytes);
        self.join(running, stores);
        damaged
    }

    /// Replaces the bytes of the inner node at this level and index, or removes it. Changes nothing at
    /// a level where the tree has no inner node. Fails when out of memory.
    #[inline(never)]
    pub(crate) fn inner(
        &mut self,
        alloc: Global,
        level: u8,
        index: u32,
        bytes: &Option<Bytes>,
    ) -> Result<(), WorldError>
        requires { (level ≤ 4) × (index < 16 ^ level) }
        ensures ok { OnOk result (node_of self.new ≡ over_stores (inner_spoiled level index bytes.now) (node_of self.old)) }
        ensures me { self.new.me ≡ self.old.me }
        ensures memory { IfErr result (λ e. e ≡ WorldError.Memory) }
    {
        let (running, mut stores) = self.split(alloc);
        let damaged = store_faults::inner(alloc, &mut stores, level, index, bytes);
        self.join(running, stores);
        damaged
    }

    /// Takes back the last `changes` writes of the top record, if the peer is down.
    #[inline(never)]
    pub(crate) fn revert(&mut self, alloc: Global, changes: u32)
        ensures node { node_of self.new ≡ while_down (taken_back changes) (node_of self.old) }
        ensures me { self.new.me ≡ self.old.me }
    {
        if let MemNode::Down(stores) = &mut self.node {
            store_faults::revert(alloc, stores, changes);
        }
    }
}
