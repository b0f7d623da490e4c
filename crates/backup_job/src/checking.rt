ghost use Rattle.std.specs.Prelude.{◌≡◌, ◌≢◌, ◌≤◌, List, ℕ, [], map, IfErr, IfOk, IsErrOf, string_bytes};
ghost use Rattle.std.specs.Io.KnownBytes.{Appends, IsAtEnd};
ghost use Rattle.ens_base.specs.Causes.{Rose};
ghost use Rattle.ens_base.specs.declared.status.Status.{Status};
ghost use Rattle.environment.specs.Written.{AppendsPrefix};
ghost use Rattle.synctree.specs.Entries.{IsMap};
ghost use Rattle.tree_node.specs.Entries.{AreAbove};
ghost use Rattle.tree_backup.specs.Items.{KeysAbove};
ghost use Rattle.backup_job.specs.Printed.{GaveAtMost, HasRead, NeedsInput, PrintsCheck, Reads, WasReadWhole};

use crate::ending::{Ending, counted, print_ending, stopped};
use crate::input::{InputError, read_all};
use ens_base::Status;
use environment::{Sink, Source};
use hash_book::PlainHasher;
use std::alloc::{AllocError, Global};
use std::thread::Threads;
use tree_backup::{BackupError, Content, check};
use tree_repair::NoGate;

/// Why no content was read.
#[derive(Drop)]
pub(crate) enum ReadError {
    /// The input was not read to its end.
    Input(InputError),
    /// Its bytes do not pass, or out of memory.
    Backup(BackupError),
}

/// Reads a backup from the input, to its end, and returns what it holds.
pub(crate) fn read_content<S: Source, R: Threads + Sync>(
    rt: &R,
    alloc: Global,
    input: &mut S,
) -> Result<Content, ReadError>
    ensures reads { Reads (S.left input.old) result }
    ensures end { IfOk result (λ _. IsAtEnd (S.left input.new)) }
    ensures later { S.fault_count input.old ≤ S.fault_count input.new }
    ensures failed { IsErrOf result (ReadError.Input InputError.Failed) → Rose (S.fault_count input.old) (S.fault_count input.new) }
    ensures whole { IfErr result (WasReadWhole (S.left input.new)) }
    ensures taken { GaveAtMost 268435457 (S.left input.old) (S.left input.new) }
    ensures cut { IsErrOf result (ReadError.Input InputError.Failed) → GaveAtMost 268435456 (S.left input.old) (S.left input.new) }
    ensures map { IfOk result (λ c. IsMap c.entries) }
    ensures entries { IfOk result (λ c. AreAbove [] c.entries) }
    ensures objects { IfOk result (λ c. KeysAbove [] (map (λ o. o.key) c.objects)) }
{
    let bytes = match read_all(alloc, input) {
        Ok(bytes) => bytes,
        Err(error) => return Err(ReadError::Input(error)),
    };
    match check(rt, alloc, &bytes, &mut PlainHasher, &NoGate) {
        Ok(content) => Ok(content),
        Err(error) => Err(ReadError::Backup(error)),
    }
}

/// Returns how the test of the input ends. Fails when out of memory.
fn check_ending<S: Source, R: Threads + Sync>(
    rt: &R,
    alloc: Global,
    input: &mut S,
) -> Result<Ending, AllocError>
    ensures printed { IfOk result (λ e. PrintsCheck (S.left input.old) e.status (string_bytes e.text)) }
    ensures end { IfOk result (λ e. NeedsInput e.status → IsAtEnd (S.left input.new)) }
    ensures read { IfOk result (λ e. e.status ≡ Status.ReadFault → Rose (S.fault_count input.old) (S.fault_count input.new)) }
    ensures taken { GaveAtMost 268435457 (S.left input.old) (S.left input.new) }
    ensures cut { IfOk result (λ e. e.status ≡ Status.ReadFault → GaveAtMost 268435456 (S.left input.old) (S.left input.new)) }
{
    match read_content(rt, alloc, input) {
        Ok(content) => counted(alloc, &content),
        Err(error) => stopped(alloc, &error),
    }
}

/// Reads a backup from the input, and prints how many entries and objects it holds. Returns the status.
///
/// A job that ends in any other way prints one line: `read fault` if the input failed, `limit backup
/// 268435456` if it has more bytes than that, `backup CAUSE` if the bytes do not pass, and `memory` when
/// out of memory. If the output failed, a prefix was written of the text with which the job would
/// otherwise have ended.
pub fn print_check<S: Source, O: Sink, R: Threads + Sync>(
    rt: &R,
    alloc: Global,
    input: &mut S,
    output: &mut O,
) -> Status
    ensures printed { result ≢ Status.WriteFault → (text : List ℕ) × PrintsCheck (S.left input.old) result text × Appends (O.written output.old) (O.written output.new) text }
    ensures prefix { result ≡ Status.WriteFault → (status : Status) × (text : List ℕ)
        × PrintsCheck (S.left input.old) status text
        × HasRead (S.left input.old) (S.left input.new) (S.fault_count input.old) (S.fault_count input.new) status
        × AppendsPrefix (O.written output.old) (O.written output.new) text }
    // How far it read: bytes that pass, and bytes that do not, were read to their end.
    ensures input { result ≢ Status.WriteFault → HasRead (S.left input.old) (S.left input.new) (S.fault_count input.old) (S.fault_count input.new) result }
    ensures read { result ≡ Status.ReadFault → Rose (S.fault_count input.old) (S.fault_count input.new) }
    // However it ends, it took at most one byte more than a backup may have.
    ensures taken { GaveAtMost 268435457 (S.left input.old) (S.left input.new) }
    // The input failed before the bytes that it gave decided anything: they could be the prefix of a backup.
    ensures cut { result ≡ Status.ReadFault → GaveAtMost 268435456 (S.left input.old) (S.left input.new) }
    ensures write { result ≡ Status.WriteFault → Rose (O.fault_count output.old) (O.fault_count output.new) }
{
    let ending = check_ending(rt, alloc, input);
    print_ending(ending, output)
}
