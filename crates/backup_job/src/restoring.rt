ghost use Rattle.std.specs.Prelude.{◌≡◌, ◌≢◌, List, ℕ, [], map, IfOk, IsSome, string_bytes};
ghost use Rattle.std.specs.Io.KnownBytes.{Appends, IsAtEnd};
ghost use Rattle.ens_base.specs.Causes.{Rose};
ghost use Rattle.ens_base.specs.declared.status.Status.{Status};
ghost use Rattle.environment.specs.Written.{AppendsPrefix};
ghost use Rattle.synctree.specs.Entries.{IsMap};
ghost use Rattle.tree_node.specs.Entries.{AreAbove};
ghost use Rattle.tree_backup.specs.Items.{KeysAbove};
ghost use Rattle.backup_job.specs.Disks.{Between};
ghost use Rattle.backup_job.specs.Printed.{GaveAtMost, HasRead, NeedsInput};
ghost use Rattle.backup_job.specs.Restored.{EndsWritten, Restored, RestoresTo, Rewrites};

use crate::checking::read_content;
use crate::disks::{Pair, close, put, take};
use crate::ending::{Ending, counted, print_ending, refused, stopped};
use crate::opening::open;
use ens_base::Status;
use environment::{Sink, Source};
use hash_book::PlainHasher;
use slot_disk::Disk;
use std::alloc::{AllocError, Global};
use std::thread::Threads;
use tree_backup::{BackupError, Content, restore};
use tree_node::TreeVersion;
use tree_repair::NoGate;

/// What writing a content to disks came to, and the disks.
#[derive(Drop)]
struct Rewritten<D> {
    result: Result<(), BackupError>,
    disks: Pair<D>,
}

/// How a restore ends, and the disks.
#[derive(Drop)]
struct Outcome<D> {
    ending: Result<Ending, AllocError>,
    disks: Pair<D>,
}

/// Writes the content to the disks: its map as that of the tree in version two, and then its objects.
fn rewrite<D: Disk, R: Threads + Sync>(
    rt: &R,
    alloc: Global,
    content: &Content,
    disks: Pair<D>,
) -> Rewritten<D>
    requires map { IsMap content.now.entries }
    requires entries { AreAbove [] content.now.entries }
    requires objects { KeysAbove [] (map (λ o. o.key) content.now.objects) }
    ensures { Rewrites D.seen D.fault_count content.now disks result.disks result.result }
{
    let mut logs = match open(alloc, disks, TreeVersion::Two) {
        Ok(logs) => logs,
        Err(refused) => {
            return Rewritten {
                result: Err(refused.error),
                disks: refused.held,
            };
        }
    };
    let result = restore(
        rt,
        alloc,
        content,
        &mut logs.tree,
        &mut logs.backend,
        &mut PlainHasher,
        &NoGate,
    );
    Rewritten {
        result,
        disks: close(logs),
    }
}

/// Returns how a restore ends that wrote the content so. Fails when out of memory.
fn rewrite_ending(
    alloc: Global,
    content: &Content,
    written: Result<(), BackupError>,
) -> Result<Ending, AllocError>
    ensures { IfOk result (λ e. EndsWritten content.now written e.status (string_bytes e.text)) }
{
    match written {
        Ok(()) => counted(alloc, content),
        Err(error) => refused(alloc, &error),
    }
}

/// Reads a backup from the input, and only then opens the disks and writes what it holds.
fn read_and_write<S: Source, D: Disk, R: Threads + Sync>(
    rt: &R,
    alloc: Global,
    input: &mut S,
    disks: Pair<D>,
) -> Outcome<D>
    ensures restored { RestoresTo D.seen D.fault_count (S.left input.old) disks result.disks result.ending }
    ensures end { IfOk result.ending (λ e. NeedsInput e.status → IsAtEnd (S.left input.new)) }
    ensures read { IfOk result.ending (λ e. e.status ≡ Status.ReadFault → Rose (S.fault_count input.old) (S.fault_count input.new)) }
    ensures taken { GaveAtMost 268435457 (S.left input.old) (S.left input.new) }
    ensures cut { IfOk result.ending (λ e. e.status ≡ Status.ReadFault → GaveAtMost 268435456 (S.left input.old) (S.left input.new)) }
{
    let content = match read_content(rt, alloc, input) {
        Ok(content) => content,
        Err(error) => {
            return Outcome {
                ending: stopped(alloc, &error),
                disks,
            };
        }
    };
    let Rewritten { result, disks } = rewrite(rt, alloc, &content, disks);
    Outcome {
        ending: rewrite_ending(alloc, &content, result),
        disks,
    }
}

/// Reads a backup from the input, writes what it holds to the disks of nodes and objects, and prints how
/// many entries and objects that is. Returns the status.
///
/// The backup is tested as a whole before a disk is opened: bytes that do not pass change nothing. Then
/// the nodes of the tree of its entries are written in version two, the top record after them, whatever
/// the store held, and after that each object under its key. A job that ends in any other way prints one
/// line: what [`crate::print_check`] prints of such an input, or `store fault` if a disk failed. If the output
/// failed, a prefix was written of the text with which the job would otherwise have ended. The disks are
/// put back, whatever the status.
pub fn restore_disks<S: Source, D: Disk + Drop, O: Sink, R: Threads + Sync>(
    rt: &R,
    alloc: Global,
    input: &mut S,
    nodes: &mut Option<D>,
    objects: &mut Option<D>,
    output: &mut O,
) -> Status
    requires there { IsSome nodes.old × IsSome objects.old }
    ensures printed { result ≢ Status.WriteFault → (text : List ℕ)
        × Between nodes.old objects.old nodes.new objects.new
        (λ old new. Restored D.seen D.fault_count (S.left input.old) old new result text)
        × Appends (O.written output.old) (O.written output.new) text }
    ensures prefix { result ≡ Status.WriteFault → (status : Status) × (text : List ℕ)
        × Between nodes.old objects.old nodes.new objects.new
        (λ old new. Restored D.seen D.fault_count (S.left input.old) old new status text)
        × HasRead (S.left input.old) (S.left input.new) (S.fault_count input.old) (S.fault_count input.new) status
        × AppendsPrefix (O.written output.old) (O.written output.new) text }
    // How far it read: bytes that pass, and bytes that do not, were read to their end.
    ensures input { result ≢ Status.WriteFault → HasRead (S.left input.old) (S.left input.new) (S.fault_count input.old) (S.fault_count input.new) result }
    ensures read { result ≡ Status.ReadFault → Rose (S.fault_count input.old) (S.fault_count input.new) }
    // However it ends, it took at most one byte more than a backup may have.
    ensures taken { GaveAtMost 268435457 (S.left input.old) (S.left input.new) }
    // The input failed before the bytes that it gave decided anything: they could be the prefix of a backup.
    ensures cut { result ≡ Status.ReadFault → GaveAtMost 268435456 (S.left input.old) (S.left input.new) }
    ensures write { result ≡ Status.WriteFault → Rose (O.fault_count output.old) (O.fault_count output.new) }
    ensures there { IsSome nodes.new × IsSome objects.new }
{
    let disks = take(nodes, objects);
    let Outcome { ending, disks } = read_and_write(rt, alloc, input, disks);
    put(nodes, objects, disks);
    print_ending(ending, output)
}
