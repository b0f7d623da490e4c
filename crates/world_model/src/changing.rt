ghost use Rattle.std.specs.Prelude.{◌≡◌, ◌≤◌, ◌<◌, ◌^◌, length};
ghost use Rattle.world_spec.specs.Held.{account};
ghost use Rattle.world_spec.specs.Lines.{with_damage};
ghost use Rattle.world_spec.specs.Nodes.{over_stores, stopped, while_down};
ghost use Rattle.world_spec.specs.Runs.{changed, may_deepen, mode_at, upgraded, with_deepening, with_start};
ghost use Rattle.world_spec.specs.Stores.{failing, inner_spoiled, leaves_of, spoiled, taken_back};
ghost use Rattle.world_model.specs.Peers.{are_down};
ghost use Rattle.world_model.specs.Worlds.{run_of, Adds, Begins, Reaches};

use crate::error::WorldError;
use crate::hashing::hash;
use crate::peer::WorldPeer;
use crate::world::World;
use ens_base::{Bytes, Key, PeerId};
use hash_book::Hasher16;
use peer_core::Mode;
use schedule_text::{StoreName, Survivor};
use std::alloc::Global;
use std::thread::Threads;
use tree_node::TreeVersion;

/// Whether all peers are down.
fn all_down(peers: &[WorldPeer]) -> bool
    ensures { result ≡ are_down peers.now }
{
    for peer in peers {
        if !peer.is_down() {
            return false;
        }
    }
    true
}

impl World {
    /// Stops `peer`.
    pub(crate) fn stop(&mut self, alloc: Global, peer: PeerId)
        requires { (1 ≤ peer) × (peer ≤ length self.old.peers.items) }
        ensures { run_of self.new ≡ changed peer stopped (run_of self.old) }
    {
        self.peers[(peer.0 - 1) as usize].stop(alloc);
    }

    /// How `peer` starts: with sealing on if its starts have that, and in the version of trees.
    fn mode_of(&self, peer: PeerId) -> Mode
        ensures { result ≡ mode_at peer (run_of self.now) }
    {
        Mode {
            sealing: self.sealing.has(peer),
            tree: self.tree,
        }
    }

    /// Starts `peer` if it is down.
    pub(crate) fn start<H: Hasher16, R: Threads + Sync>(
        &mut self,
        rt: &R,
        alloc: Global,
        hasher: &mut H,
        peer: PeerId,
    ) -> Result<(), WorldError>
        requires { (1 ≤ peer) × (peer ≤ length self.old.peers.items) }
        ensures reaches { Reaches (account H.kept H.clashes H.fulls hasher.old) (with_start peer (run_of self.old)) result (run_of self.new) (account H.kept H.clashes H.fulls hasher.new) }
        ensures begins { Begins self.old self.new }
    {
        let opening = self.opening;
        let mode = self.mode_of(peer);
        self.peers[(peer.0 - 1) as usize].start(rt, alloc, mode, opening, hasher)
    }

    /// Makes all later starts of `peer` have sealing on.
    pub(crate) fn upgrade(&mut self, peer: PeerId)
        requires { (1 ≤ peer) × (peer ≤ length self.old.peers.items) }
        ensures { run_of self.new ≡ upgraded peer (run_of self.old) }
    {
        self.sealing.insert(peer);
    }

    /// Whether a line `deepen` takes effect: all peers are down, and trees had version one at the opening.
    #[tactic(auto, using(crate::proofs::Downs::downs_are))]
    fn may_deepen(&self) -> bool
        ensures { result ≡ may_deepen (run_of self.now) }
    {
        !self.form.is_deep() && all_down(&self.peers)
    }

    /// Makes all later starts have trees of version two, and gives no message that was sent so far to
    /// anyone, if all peers are down and trees had version one at the opening.
    pub(crate) fn deepen(&mut self)
        ensures { run_of self.new ≡ with_deepening (run_of self.old) }
    {
        if self.may_deepen() {
            self.tree = TreeVersion::Two;
            self.first_alive = self.network.sent().len();
        }
    }

    /// Replaces the bytes of an object in the backend of `peer`, or removes the object.
    pub(crate) fn spoil(
        &mut self,
        alloc: Global,
        peer: PeerId,
        key: &Key,
        bytes: &Option<Bytes>,
    ) -> Result<(), WorldError>
        requires { (1 ≤ peer) × (peer ≤ length self.old.peers.items) }
        ensures reaches { Adds (changed peer (over_stores (spoiled key.now bytes.now)) (run_of self.old)) result (run_of self.new) }
        ensures begins { Begins self.old self.new }
    {
        self.peers[(peer.0 - 1) as usize].spoil(alloc, key, bytes)
    }

    /// Hashes the key, and replaces the bytes of its segment in the tree of `peer`, or removes that
    /// node.
    pub(crate) fn damage<H: Hasher16>(
        &mut self,
        alloc: Global,
        hasher: &mut H,
        peer: PeerId,
        key: &Key,
        bytes: &Option<Bytes>,
    ) -> Result<(), WorldError>
        requires { (1 ≤ peer) × (peer ≤ length self.old.peers.items) }
        ensures reaches { Reaches (account H.kept H.clashes H.fulls hasher.old)
            (with_damage peer key.now bytes.now (run_of self.old)) result (run_of self.new)
            (account H.kept H.clashes H.fulls hasher.new) }
        ensures begins { Begins self.old self.new }
    {
        hash(alloc, hasher, key.bytes())?;
        self.peers[(peer.0 - 1) as usize].damage(alloc, key, bytes)
    }

    /// Replaces the bytes of an inner node in the tree of `peer`, or removes that node. Changes nothing
    /// at a level where the tree has no inner node.
    pub(crate) fn inner(
        &mut self,
        alloc: Global,
        peer: PeerId,
        level: u8,
        index: u32,
        bytes: &Option<Bytes>,
    ) -> Result<(), WorldError>
        requires peer { (1 ≤ peer) × (peer ≤ length self.old.peers.items) }
        requires place { (level ≤ 4) × (index < 16 ^ level) }
        ensures reaches { Adds (changed peer (over_stores (inner_spoiled level index bytes.now)) (run_of self.old)) result (run_of self.new) }
        ensures begins { Begins self.old self.new }
    {
        self.peers[(peer.0 - 1) as usize].inner(alloc, level, index, bytes)
    }

    /// Takes back the last `changes` writes of the top record of `peer`, if it is down.
    pub(crate) fn revert(&mut self, alloc: Global, peer: PeerId, changes: u32)
        requires { (1 ≤ peer) × (peer ≤ length self.old.peers.items) }
        ensures { run_of self.new ≡ changed peer (while_down (taken_back changes)) (run_of self.old) }
    {
        self.peers[(peer.0 - 1) as usize].revert(alloc, changes);
    }

    /// Makes the next write of a store of `peer` fail.
    pub(crate) fn fail_next(
        &mut self,
        alloc: Global,
        peer: PeerId,
        store: StoreName,
        survivor: Survivor,
    )
        requires { (1 ≤ peer) × (peer ≤ length self.old.peers.items) }
        ensures { run_of self.new ≡ changed peer (over_stores (failing store (leaves_of survivor))) (run_of self.old) }
    {
        self.peers[(peer.0 - 1) as usize].fail_next(alloc, store, survivor);
    }
}
