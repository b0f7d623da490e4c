ghost use Rattle.std.specs.Prelude.{◌≡◌};
ghost use Rattle.peer_server.specs.DiskPeers.{AreThere, all_there, disks_under};

use disk_stores::{DiskBackend, DiskNodes};
use fact_store::{DelayedFact, FactFile};
use peer_core::{Peer, Stores};
use slot_disk::Disk;

/// The disks of a peer: of its fact, of the nodes of its tree, and of its objects.
#[derive(Drop)]
pub struct Disks<D> {
    pub facts: Option<D>,
    pub nodes: Option<D>,
    pub objects: Option<D>,
}

/// The same, all there.
#[derive(Drop)]
pub(crate) struct Three<D> {
    pub(crate) facts: D,
    pub(crate) nodes: D,
    pub(crate) objects: D,
}

/// The stores of a peer on disks. Its fact is held in memory, and committed to its disk by whoever serves.
pub(crate) type DiskStores<D> = Stores<DiskBackend<D>, DiskNodes<D>, DelayedFact>;

/// A peer on disks.
pub(crate) type DiskPeer<D> = Peer<DiskBackend<D>, DiskNodes<D>, DelayedFact>;

/// Opened stores, and the opened file of facts.
#[derive(Drop)]
pub(crate) struct Storage<D: Disk> {
    pub(crate) stores: DiskStores<D>,
    pub(crate) facts: FactFile<D>,
}

/// Takes the disks, which are all there.
pub(crate) fn take<D: Drop>(disks: &mut Disks<D>) -> Three<D>
    requires { AreThere disks.old }
    ensures { disks.old ≡ all_there result }
{
    let Some(facts) = disks.facts.take() else {
        unreachable!();
    };
    let Some(nodes) = disks.nodes.take() else {
        unreachable!();
    };
    let Some(objects) = disks.objects.take() else {
        unreachable!();
    };
    Three {
        facts,
        nodes,
        objects,
    }
}

/// Puts the disks back.
pub(crate) fn put<D: Drop>(disks: &mut Disks<D>, three: Three<D>)
    ensures { disks.new ≡ all_there three }
{
    let Three {
        facts,
        nodes,
        objects,
    } = three;
    disks.facts = Some(facts);
    disks.nodes = Some(nodes);
    disks.objects = Some(objects);
}

/// Takes the disks out of what was opened on them.
pub(crate) fn close<D: Disk>(storage: Storage<D>) -> Three<D>
    ensures { all_there result ≡ disks_under storage.stores storage.facts }
{
    let Storage {
        stores: Stores {
            backend,
            tree,
            facts: _held,
        },
        facts,
    } = storage;
    let (_mark, nodes) = tree.split();
    Three {
        facts: facts.into_disk(),
        nodes: nodes.into_disk(),
        objects: backend.into_disk(),
    }
}
