ghost use Rattle.std.specs.Prelude.{◌≡◌, ◌≢◌, ℕ, List, IfOk, string_bytes};
ghost use Rattle.std.specs.Io.KnownBytes.{Appends};
ghost use Rattle.ens_base.specs.Causes.{Rose};
ghost use Rattle.ens_base.specs.declared.status.Status.{Status};
ghost use Rattle.environment.specs.Written.{AppendsPrefix};
ghost use Rattle.world_spec.specs.Held.{Account, account};
ghost use Rattle.scripts.specs.RootInput.{WasTakenTo};
ghost use Rattle.scripts.specs.Spelling.{IsScript};
ghost use Rattle.scripts.specs.declared.script.RootScript.{RootScript as AScript};
ghost use Rattle.root.specs.Ends.{IsStopped};
ghost use Rattle.root.specs.Jobs.{EndsSo, HasRead, Prints, PrintsWith};

use crate::run::{RootRun, run_root};
use ens_base::Status;
use environment::{Sink, Source, finish, write_all};
use hash_book::{HashBook, Hasher16};
use replay::{WorldError, clash_text};
use schedule_input::Ending;
use scripts::{RootScript, read_root_script, unread};
use std::alloc::{AllocError, Global};
use std::thread::Threads;

/// The number of bytes that the book of a root keeps.
const BOOK_LIMIT: u64 = 1_073_741_824;

/// How a job ends: its status, and the text that it prints.
#[derive(Drop)]
struct RootEnding {
    status: Status,
    text: Vec<u8>,
}

/// Returns the same ending, with its text as bytes.
fn as_bytes(ending: Ending) -> RootEnding
    ensures status { result.status ≡ ending.status }
    ensures text { result.text.items ≡ string_bytes ending.text }
{
    let Ending { status, text } = ending;
    RootEnding {
        status,
        text: text.into_bytes(),
    }
}

/// Returns how a job ends whose run was refused. Fails when out of memory.
fn refused(alloc: Global, error: WorldError) -> Result<Ending, AllocError>
    ensures status { IfOk result (λ e. e.status ≢ Status.ReadFault) }
    ensures ends { IfOk result (λ e. (s : AScript) (first now : Account) → IsStopped s first now error → EndsSo first now s e.status (string_bytes e.text)) }
{
    match error {
        WorldError::Clash { first, second } => Ok(Ending {
            status: Status::Clash,
            text: clash_text(alloc, &first, &second)?,
        }),
        WorldError::BookFull(_) => Ending::new(alloc, Status::Limit, "limit book 1073741824\n"),
        WorldError::MessageLimit => Ending::new(alloc, Status::Limit, "limit messages 500000\n"),
        WorldError::Memory => Err(AllocError),
    }
}

/// Returns how the job ends that read this script: with the text of its run, or with why the run was refused. Fails
/// when out of memory.
fn run_ending<H: Hasher16, R: Threads + Sync>(
    rt: &R,
    alloc: Global,
    script: &RootScript,
    hasher: &mut H,
) -> Result<RootEnding, AllocError>
    requires { IsScript script.now }
    ensures ends { IfOk result (λ e. EndsSo (account H.kept H.clashes H.fulls hasher.old) (account H.kept H.clashes H.fulls hasher.new) script.now e.status e.text.items) }
    ensures status { IfOk result (λ e. e.status ≢ Status.ReadFault) }
{
    match run_root(rt, alloc, script, hasher) {
        Ok(
            RootRun {
                text,
                opened: _opened,
            },
        ) => Ok(RootEnding {
            status: Status::Done,
            text,
        }),
        Err(error) => Ok(as_bytes(refused(alloc, error)?)),
    }
}

/// Returns the ending of the job on this input. Fails when out of memory.
fn root_ending<S: Source, H: Hasher16, R: Threads + Sync>(
    rt: &R,
    alloc: Global,
    input: &mut S,
    hasher: &mut H,
) -> Result<RootEnding, AllocError>
    ensures printed { IfOk result (λ e. PrintsWith (account H.kept H.clashes H.fulls hasher.old) (account H.kept H.clashes H.fulls hasher.new) (S.left input.old) e.status e.text.items) }
    ensures input { IfOk result (λ e. HasRead (S.left input.old) (S.left input.new) (S.fault_count input.old) (S.fault_count input.new) e.status) }
    ensures taken { WasTakenTo (S.left input.old) (S.left input.new) }
    ensures read { IfOk result (λ e. e.status ≡ Status.ReadFault → Rose (S.fault_count input.old) (S.fault_count input.new)) }
{
    match read_root_script(alloc, input) {
        Ok(script) => run_ending(rt, alloc, &script, hasher),
        Err(error) => Ok(as_bytes(unread(alloc, error)?)),
    }
}

/// Writes the text with which a job ends. Returns `status`, or `WriteFault` if the output failed; then a prefix of
/// the text was written.
fn write_ending<O: Sink>(output: &mut O, text: &[u8], status: Status) -> Status
    requires { status ≢ Status.WriteFault }
    ensures written { result ≢ Status.WriteFault → (result ≡ status) × Appends (O.written output.old) (O.written output.new) text.now }
    ensures prefix { result ≡ Status.WriteFault → AppendsPrefix (O.written output.old) (O.written output.new) text.now }
    ensures failed { result ≡ Status.WriteFault → Rose (O.fault_count output.old) (O.fault_count output.new) }
{
    match write_all(output, text) {
        Ok(()) => status,
        Err(_) => Status::WriteFault,
    }
}

/// Reads a script from the input, runs it with this hasher, and writes what the run prints, followed by the
/// histories of the slots and of the routed keys, to the output. Returns the status.
///
/// A job that ends in any other way writes one line: `read fault` if the input failed, `schedule LINE CAUSE` if
/// the input is not a script, `limit lines 200000` if it has too many lines, `clash KEPT NEW` if the hasher finds
/// two different strings with the same MD5, `limit book 1073741824` if a string does not fit into its book,
/// `limit messages 500000` if an ensemble would send more messages, and `memory` when out of memory. If the
/// output fails, a prefix was written of the text with which the job would otherwise have ended.
pub fn root_with<S: Source, O: Sink, H: Hasher16, R: Threads + Sync>(
    rt: &R,
    alloc: Global,
    input: &mut S,
    output: &mut O,
    hasher: &mut H,
) -> Status
    ensures printed { result ≢ Status.WriteFault → (text : List ℕ)
        × PrintsWith (account H.kept H.clashes H.fulls hasher.old) (account H.kept H.clashes H.fulls hasher.new)
        (S.left input.old) result text × Appends (O.written output.old) (O.written output.new) text }
    ensures prefix { result ≡ Status.WriteFault → (status : Status) × (text : List ℕ)
        × PrintsWith (account H.kept H.clashes H.fulls hasher.old) (account H.kept H.clashes H.fulls hasher.new)
        (S.left input.old) status text
        × HasRead (S.left input.old) (S.left input.new) (S.fault_count input.old) (S.fault_count input.new) status
        × AppendsPrefix (O.written output.old) (O.written output.new) text }
    ensures input { result ≢ Status.WriteFault → HasRead (S.left input.old) (S.left input.new) (S.fault_count input.old) (S.fault_count input.new) result }
    ensures read { result ≡ Status.ReadFault → Rose (S.fault_count input.old) (S.fault_count input.new) }
    ensures write { result ≡ Status.WriteFault → Rose (O.fault_count output.old) (O.fault_count output.new) }
{
    match root_ending(rt, alloc, input, hasher) {
        Ok(ending) => write_ending(output, &ending.text, ending.status),
        Err(_) => finish(output, "memory\n", Status::Memory),
    }
}

/// Runs a script as `root_with` does, with a book of the hashed strings that keeps at most 1,073,741,824 bytes.
pub fn root<S: Source, O: Sink, R: Threads + Sync>(
    rt: &R,
    alloc: Global,
    input: &mut S,
    output: &mut O,
) -> Status
    ensures printed { result ≢ Status.WriteFault → (text : List ℕ) × Prints (S.left input.old) result text × Appends (O.written output.old) (O.written output.new) text }
    ensures prefix { result ≡ Status.WriteFault → (status : Status) × (text : List ℕ)
        × Prints (S.left input.old) status text
        × HasRead (S.left input.old) (S.left input.new) (S.fault_count input.old) (S.fault_count input.new) status
        × AppendsPrefix (O.written output.old) (O.written output.new) text }
    ensures input { result ≢ Status.WriteFault → HasRead (S.left input.old) (S.left input.new) (S.fault_count input.old) (S.fault_count input.new) result }
    ensures read { result ≡ Status.ReadFault → Rose (S.fault_count input.old) (S.fault_count input.new) }
    ensures write { result ≡ Status.WriteFault → Rose (O.fault_count output.old) (O.fault_count output.new) }
{
    let mut book = HashBook::new(alloc, BOOK_LIMIT);
    root_with(rt, alloc, input, output, &mut book)
}
