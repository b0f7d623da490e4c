ghost use Rattle.std.specs.Prelude.{◌≡◌, ◌≢◌, List, ℕ, IsSome};
ghost use Rattle.std.specs.Io.KnownBytes.{Appends};
ghost use Rattle.ens_base.specs.Causes.{Rose};
ghost use Rattle.ens_base.specs.declared.status.Status.{Status};
ghost use Rattle.environment.specs.Written.{AppendsPrefix};
ghost use Rattle.backup_job.specs.Backed.{Backed, Backs, BacksLogs, Ends, EndsBytes, Shapes};
ghost use Rattle.backup_job.specs.Disks.{Between};

use crate::disks::{Logs, Pair, close, put, take};
use crate::ending::{print_ending, refused};
use crate::input::MOST_BYTES;
use crate::opening::{open, tree_error};
use disk_stores::DiskNodes;
use ens_base::Status;
use environment::{Sink, finish, write_all};
use hash_book::PlainHasher;
use slot_disk::Disk;
use std::alloc::Global;
use std::thread::Threads;
use synctree::{Tree, TreeError};
use tree_backup::{BackupError, backup};
use tree_node::TreeVersion;
use tree_repair::NoGate;

/// The bytes of a backup, or why there are none, and the disks.
#[derive(Drop)]
struct Made<D> {
    made: Result<Vec<u8>, BackupError>,
    disks: Pair<D>,
}

/// Gives the tree the version in which its root verifies. Fails with `Damaged` at the root if it does in
/// none.
fn take_shape<D: Disk>(alloc: Global, tree: &mut Tree<DiskNodes<D>>) -> Result<(), TreeError>
    requires { tree.old.top ≡ tree.old.store.top }
    ensures { Shapes D.seen D.fault_count tree.old tree.new result }
{
    let version = tree.shape(alloc, &mut PlainHasher)?;
    tree.reopen(None, version)
}

/// Returns the bytes of the backup of what the stores hold.
fn back_up<D: Disk, R: Threads + Sync>(
    rt: &R,
    alloc: Global,
    logs: &mut Logs<D>,
) -> Result<Vec<u8>, BackupError>
    requires { logs.old.tree.top ≡ logs.old.tree.store.top }
    ensures { BacksLogs D.seen D.fault_count logs.old logs.new result }
{
    match take_shape(alloc, &mut logs.tree) {
        Ok(()) => backup(
            rt,
            alloc,
            &mut logs.tree,
            &mut logs.backend,
            &mut PlainHasher,
            &NoGate,
        ),
        Err(error) => Err(tree_error(error)),
    }
}

/// Makes the backup of what the disks hold.
fn make<D: Disk, R: Threads + Sync>(rt: &R, alloc: Global, disks: Pair<D>) -> Made<D>
    ensures { Backs D.seen D.fault_count disks result.disks result.made }
{
    let mut logs = match open(alloc, disks, TreeVersion::One) {
        Ok(logs) => logs,
        Err(refused) => {
            return Made {
                made: Err(refused.error),
                disks: refused.held,
            };
        }
    };
    let made = back_up(rt, alloc, &mut logs);
    Made {
        made,
        disks: close(logs),
    }
}

/// Writes the bytes of a backup, unless they are too many.
fn print_bytes<O: Sink>(bytes: &[u8], output: &mut O) -> Status
    ensures printed { result ≢ Status.WriteFault → (text : List ℕ) × EndsBytes bytes.now result text × Appends (O.written output.old) (O.written output.new) text }
    ensures prefix { result ≡ Status.WriteFault → (status : Status) × (text : List ℕ) × EndsBytes bytes.now status text × AppendsPrefix (O.written output.old) (O.written output.new) text }
    ensures write { result ≡ Status.WriteFault → Rose (O.fault_count output.old) (O.fault_count output.new) }
{
    if bytes.len() > MOST_BYTES {
        return finish(output, "limit backup 268435456\n", Status::Limit);
    }
    match write_all(output, bytes) {
        Ok(()) => Status::Done,
        Err(_) => Status::WriteFault,
    }
}

/// Writes the bytes of a backup, or why there are none.
fn print_made<O: Sink>(alloc: Global, made: Result<Vec<u8>, BackupError>, output: &mut O) -> Status
    ensures printed { result ≢ Status.WriteFault → (text : List ℕ) × Ends made result text × Appends (O.written output.old) (O.written output.new) text }
    ensures prefix { result ≡ Status.WriteFault → (status : Status) × (text : List ℕ) × Ends made status text × AppendsPrefix (O.written output.old) (O.written output.new) text }
    ensures write { result ≡ Status.WriteFault → Rose (O.fault_count output.old) (O.fault_count output.new) }
{
    match made {
        Ok(bytes) => print_bytes(&bytes, output),
        Err(error) => {
            let ending = refused(alloc, &error);
            print_ending(ending, output)
        }
    }
}

/// Writes the backup of the tree and the objects on two disks, which it leaves as they are. Returns the
/// status.
///
/// The tree is that under the top record, in the version in which its root verifies. A job that ends in
/// any other way prints one line: `backup 9` if a node of the tree does not verify, `backup 4` if the tree
/// has a key twice, `limit backup 268435456` if the backup has more bytes than that, `store fault` if a disk
/// failed, and `memory` when out of memory. If the output failed, a prefix was written of the text with
/// which the job would otherwise have ended. The disks are put back, whatever the status.
pub fn print_backup<D: Disk + Drop, O: Sink, R: Threads + Sync>(
    rt: &R,
    alloc: Global,
    nodes: &mut Option<D>,
    objects: &mut Option<D>,
    output: &mut O,
) -> Status
    requires there { IsSome nodes.old × IsSome objects.old }
    ensures printed { result ≢ Status.WriteFault → (text : List ℕ)
        × Between nodes.old objects.old nodes.new objects.new
        (λ old new. Backed D.seen D.fault_count old new result text)
        × Appends (O.written output.old) (O.written output.new) text }
    ensures prefix { result ≡ Status.WriteFault → (status : Status) × (text : List ℕ)
        × Between nodes.old objects.old nodes.new objects.new
        (λ old new. Backed D.seen D.fault_count old new status text)
        × AppendsPrefix (O.written output.old) (O.written output.new) text }
    ensures write { result ≡ Status.WriteFault → Rose (O.fault_count output.old) (O.fault_count output.new) }
    ensures there { IsSome nodes.new × IsSome objects.new }
{
    let disks = take(nodes, objects);
    let Made { made, disks } = make(rt, alloc, disks);
    put(nodes, objects, disks);
    print_made(alloc, made, output)
}
