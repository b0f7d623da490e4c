ghost use Rattle.std.specs.Prelude.{◌≡◌};
ghost use Rattle.world_spec.specs.Held.{empty_stores as no_stores};
ghost use Rattle.world_spec.specs.Nodes.{is_down as is_down_node};
ghost use Rattle.world_model.specs.MemNodes.{node_by, stores_by};
ghost use Rattle.world_model.specs.declared.node.MemNode.TheVariants.{Down};

use peer_core::{Peer, Stores};
use std::alloc::Global;
use synctree::Tree;
use tree_node::TreeVersion;
use world_stores::{HeldFact, HeldNodes, HeldObjects};

/// The stores of a peer of a world.
pub(crate) type MemStores = Stores<HeldObjects, HeldNodes, HeldFact>;

/// A running peer of a world, over its stores.
pub(crate) type MemPeer = Peer<HeldObjects, HeldNodes, HeldFact>;

/// A running peer, over its stores, or the stores of a peer that is down.
#[derive(Drop)]
pub(crate) enum MemNode {
    Up(MemPeer),
    Down(MemStores),
}

/// Returns stores that are empty.
pub(crate) fn empty_stores(alloc: Global) -> MemStores
    ensures { result ≡ no_stores }
{
    Stores {
        backend: HeldObjects::empty(alloc),
        tree: Tree::unopened(HeldNodes::empty(alloc), TreeVersion::One),
        facts: HeldFact::empty(),
    }
}

impl MemNode {
    /// Returns the stores of the peer.
    fn into_stores(self) -> MemStores
        ensures { result ≡ stores_by self }
    {
        match self {
            MemNode::Up(peer) => peer.into_stores(),
            MemNode::Down(stores) => stores,
        }
    }

    /// Whether the peer is down.
    pub(crate) fn is_down(&self) -> bool
        ensures { result ≡ is_down_node (node_by self.now) }
    {
        match self {
            MemNode::Up(_) => false,
            MemNode::Down(_) => true,
        }
    }

    /// Stops the peer. Its stores stay.
    #[inline(never)]
    pub(crate) fn stop(&mut self, alloc: Global)
        ensures { self.new ≡ Down (stores_by self.old) }
    {
        let node = std::mem::replace(self, MemNode::Down(empty_stores(alloc)));
        *self = MemNode::Down(node.into_stores());
    }
}
