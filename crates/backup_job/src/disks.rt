ghost use Rattle.std.specs.Prelude.{IsSome};
ghost use Rattle.backup_job.specs.Disks.{AreBoth, Closed};

use disk_stores::{DiskBackend, DiskNodes};
use slot_disk::Disk;
use synctree::Tree;

/// The disks of the nodes and of the objects of a peer.
#[derive(Drop)]
pub struct Pair<D> {
    pub nodes: D,
    pub objects: D,
}

/// The tree and the objects of a peer, on such disks.
#[derive(Drop)]
pub(crate) struct Logs<D: Disk> {
    pub(crate) tree: Tree<DiskNodes<D>>,
    pub(crate) backend: DiskBackend<D>,
}

/// Takes the disks, which are there.
pub(crate) fn take<D: Drop>(nodes: &mut Option<D>, objects: &mut Option<D>) -> Pair<D>
    requires { IsSome nodes.old × IsSome objects.old }
    ensures { AreBoth nodes.old objects.old result }
{
    let Some(nodes) = nodes.take() else {
        unreachable!();
    };
    let Some(objects) = objects.take() else {
        unreachable!();
    };
    Pair { nodes, objects }
}

/// Puts the disks back.
pub(crate) fn put<D: Drop>(nodes: &mut Option<D>, objects: &mut Option<D>, disks: Pair<D>)
    ensures { AreBoth nodes.new objects.new disks }
{
    *nodes = Some(disks.nodes);
    *objects = Some(disks.objects);
}

/// Takes the disks out of the stores.
pub(crate) fn close<D: Disk>(logs: Logs<D>) -> Pair<D>
    ensures { Closed D.seen D.fault_count logs result }
{
    let Logs { tree, backend } = logs;
    let (_mark, nodes) = tree.split();
    Pair {
        nodes: nodes.into_disk(),
        objects: backend.into_disk(),
    }
}
