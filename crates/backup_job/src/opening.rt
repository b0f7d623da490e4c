ghost use Rattle.std.specs.Prelude.{◌≡◌, IfOk, IfErr, Some};
ghost use Rattle.tree_backup.specs.Causes.{IsFromOutside, of_store, of_tree};
ghost use Rattle.backup_job.specs.Disks.{Became, Changes, Opened, Same};
ghost use Rattle.disk_stores.specs.Records.{entries_of};

use crate::disks::{Logs, Pair, close};
use disk_stores::{DiskBackend, DiskNodes};
use ens_base::Refused;
use environment::StoreError;
use slot_disk::Disk;
use std::alloc::Global;
use synctree::{Tree, TreeError};
use tree_backup::BackupError;
use tree_node::TreeVersion;

/// Returns the error for one of a store.
fn store_error(error: StoreError) -> BackupError
    ensures { result ≡ of_store error }
{
    match error {
        StoreError::Failed => BackupError::Failed,
        StoreError::Memory => BackupError::Memory,
    }
}

/// Returns the error for one of a tree.
pub(crate) fn tree_error(error: TreeError) -> BackupError
    ensures { result ≡ of_tree error }
{
    match error {
        TreeError::Damaged(at) => BackupError::Damaged(at),
        TreeError::Failed => BackupError::Failed,
        TreeError::Clash { first, second } => BackupError::Clash { first, second },
        TreeError::BookFull(bytes) => BackupError::BookFull(bytes),
        TreeError::Memory => BackupError::Memory,
    }
}

/// Opens the stores on the disks, that of the nodes first. The top record is not read yet.
fn open_logs<D: Disk>(
    alloc: Global,
    disks: Pair<D>,
    version: TreeVersion,
) -> Result<Logs<D>, Refused<Pair<D>, BackupError>>
    ensures opened { IfOk result (λ logs. Opened D.seen D.fault_count disks logs) }
    ensures refused { IfErr result (λ r. Changes D.seen D.fault_count disks r.held (Some r.error) Same Same) }
    ensures objects { IfErr result (λ r. Became D.seen D.fault_count entries_of Same disks.objects r.held.objects) }
    ensures outside { IfErr result (λ r. IsFromOutside r.error) }
{
    let Pair { nodes, objects } = disks;
    let nodes = match DiskNodes::open(alloc, nodes) {
        Ok(nodes) => nodes,
        Err(refused) => {
            return Err(Refused {
                error: store_error(refused.error),
                held: Pair {
                    nodes: refused.held,
                    objects,
                },
            });
        }
    };
    match DiskBackend::open(alloc, objects) {
        Ok(backend) => Ok(Logs {
            tree: Tree::unopened(nodes, version),
            backend,
        }),
        Err(refused) => Err(Refused {
            error: store_error(refused.error),
            held: Pair {
                nodes: nodes.into_disk(),
                objects: refused.held,
            },
        }),
    }
}

/// Opens the stores on the disks, and the tree of this version under the top record, without a seal. Fails
/// only if the fault count of a disk rose, or when out of memory, and then returns the disks.
pub(crate) fn open<D: Disk>(
    alloc: Global,
    disks: Pair<D>,
    version: TreeVersion,
) -> Result<Logs<D>, Refused<Pair<D>, BackupError>>
    ensures opened { IfOk result (λ logs. Opened D.seen D.fault_count disks logs) }
    ensures version { IfOk result (λ logs. logs.tree.version ≡ version) }
    ensures top { IfOk result (λ logs. logs.tree.top ≡ logs.tree.store.top) }
    ensures refused { IfErr result (λ r. Changes D.seen D.fault_count disks r.held (Some r.error) Same Same) }
    ensures objects { IfErr result (λ r. Became D.seen D.fault_count entries_of Same disks.objects r.held.objects) }
    ensures outside { IfErr result (λ r. IsFromOutside r.error) }
{
    let mut logs = open_logs(alloc, disks, version)?;
    match logs.tree.reopen(None, version) {
        Ok(()) => Ok(logs),
        Err(error) => Err(Refused {
            error: tree_error(error),
            held: close(logs),
        }),
    }
}
