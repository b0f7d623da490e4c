ghost use Rattle.std.specs.Prelude.{◌≡◌, ◌≢◌, List, ℕ, IfOk, IsSomeAnd, string_bytes};
ghost use Rattle.std.specs.Io.KnownBytes.{Appends};
ghost use Rattle.ens_base.specs.Causes.{Rose};
ghost use Rattle.ens_base.specs.declared.status.Status.{Status};
ghost use Rattle.environment.specs.Written.{AppendsPrefix};
ghost use Rattle.world_model.specs.WorldSpec.{account};
ghost use Rattle.schedule_input.specs.Reading.{WasTakenTo};
ghost use Rattle.schedule_text.specs.Spelling.{IsSchedule};
ghost use Rattle.replay.specs.Jobs.{EndsSo, HasRead, IsRunnable, Prints, PrintsWith, RanOut};

use crate::worlds::run_world;
use ens_base::Status;
use environment::{Sink, Source, finish};
use hash_book::{HashBook, Hasher16};
use schedule_input::{Ending, read_schedule};
use schedule_text::Schedule;
use std::alloc::{AllocError, Global};
use std::thread::Threads;

/// The number of bytes that the book of a replay keeps.
const BOOK_LIMIT: u64 = 1_073_741_824;

/// Returns how the job ends that read this schedule: with the first view that fails the premise if
/// there is one, and otherwise with its run in a world.
fn run_ending<H: Hasher16, R: Threads + Sync>(
    rt: &R,
    alloc: Global,
    schedule: Schedule,
    hasher: &mut H,
) -> Result<Ending, AllocError>
    requires { IsSchedule schedule }
    ensures ends { IfOk result (λ e. EndsSo (account H.kept H.clashes H.fulls hasher.old) (account H.kept H.clashes H.fulls hasher.new) schedule e.status (string_bytes e.text)) }
    ensures status { IfOk result (λ e. e.status ≢ Status.ReadFault) }
{
    match Ending::unsound(alloc, &schedule)? {
        Some(ending) => Ok(ending),
        None => run_world(rt, alloc, &schedule, hasher),
    }
}

/// Returns the ending of a replay of the input. Fails when out of memory.
#[tactic(auto, using(crate::proofs::Unread::unread_prints))]
fn replay_ending<S: Source, H: Hasher16, R: Threads + Sync>(
    rt: &R,
    alloc: Global,
    input: &mut S,
    hasher: &mut H,
) -> Result<Ending, AllocError>
    ensures printed { IfOk result (λ e. PrintsWith (account H.kept H.clashes H.fulls hasher.old) (account H.kept H.clashes H.fulls hasher.new) (S.left input.old) e.status (string_bytes e.text)) }
    ensures input { IfOk result (λ e. HasRead (S.left input.old) (S.left input.new) (S.fault_count input.old) (S.fault_count input.new) e.status) }
    ensures taken { WasTakenTo (S.left input.old) (S.left input.new) }
    ensures read { IfOk result (λ e. e.status ≡ Status.ReadFault → Rose (S.fault_count input.old) (S.fault_count input.new)) }
{
    match read_schedule(alloc, input) {
        Ok(schedule) => run_ending(rt, alloc, schedule, hasher),
        Err(error) => Ending::unread(alloc, error),
    }
}

/// Reads a schedule from the input, runs it with this hasher, and writes what the run prints, followed
/// by the histories, to the output. Returns the status.
///
/// A job that ends in any other way writes one line: `read fault` if the input failed, `schedule
/// LINE CAUSE` if the input is not a schedule, `limit lines 200000` if it has too many lines,
/// `premise VIEW reverted MEMBERS` if at least half of the members of a view are reverted, `clash KEPT
/// NEW` if the hasher finds two different strings of the run with the same MD5, `limit book
/// 1073741824` if a string of the run does not fit into its book, `limit messages 500000` if the run
/// would send more messages, and `memory` when out of memory. If the output fails, a prefix was
/// written of the text with which the job would otherwise have ended.
pub fn replay_with<S: Source, O: Sink, H: Hasher16, R: Threads + Sync>(
    rt: &R,
    alloc: Global,
    input: &mut S,
    output: &mut O,
    hasher: &mut H,
) -> Status
    ensures printed { result ≢ Status.WriteFault → (text : List ℕ)
        × PrintsWith (account H.kept H.clashes H.fulls hasher.old) (account H.kept H.clashes H.fulls hasher.new)
        (S.left input.old) result text × Appends (O.written output.old) (O.written output.new) text }
    ensures prefix { result ≡ Status.WriteFault → (status : Status) × (text : List ℕ)
        × PrintsWith (account H.kept H.clashes H.fulls hasher.old) (account H.kept H.clashes H.fulls hasher.new)
        (S.left input.old) status text
        × HasRead (S.left input.old) (S.left input.new) (S.fault_count input.old) (S.fault_count input.new) status
        × AppendsPrefix (O.written output.old) (O.written output.new) text }
    ensures input { result ≢ Status.WriteFault → HasRead (S.left input.old) (S.left input.new) (S.fault_count input.old) (S.fault_count input.new) result }
    ensures read { result ≡ Status.ReadFault → Rose (S.fault_count input.old) (S.fault_count input.new) }
    ensures write { result ≡ Status.WriteFault → Rose (O.fault_count output.old) (O.fault_count output.new) }
{
    match replay_ending(rt, alloc, input, hasher) {
        Ok(ending) => finish(output, ending.text.as_str(), ending.status),
        Err(_) => finish(output, "memory\n", Status::Memory),
    }
}

/// Replays a schedule as `replay_with` does, with a book of the hashed strings that keeps at most
/// 1,073,741,824 bytes.
pub fn replay<S: Source, O: Sink, R: Threads + Sync>(
    rt: &R,
    alloc: Global,
    input: &mut S,
    output: &mut O,
) -> Status
    ensures printed { result ≢ Status.WriteFault → (text : List ℕ) × Prints (S.left input.old) result text × Appends (O.written output.old) (O.written output.new) text }
    ensures prefix { result ≡ Status.WriteFault → (status : Status) × (text : List ℕ)
        × Prints (S.left input.old) status text
        × HasRead (S.left input.old) (S.left input.new) (S.fault_count input.old) (S.fault_count input.new) status
        × AppendsPrefix (O.written output.old) (O.written output.new) text }
    ensures input { result ≢ Status.WriteFault → HasRead (S.left input.old) (S.left input.new) (S.fault_count input.old) (S.fault_count input.new) result }
    ensures read { result ≡ Status.ReadFault → Rose (S.fault_count input.old) (S.fault_count input.new) }
    ensures write { result ≡ Status.WriteFault → Rose (O.fault_count output.old) (O.fault_count output.new) }
    // If no other end has a cause, the replay runs to its end, unless out of memory.
    ensures completes { IsSomeAnd (S.left input.old) IsRunnable
        → ¬ Rose (S.fault_count input.old) (S.fault_count input.new)
        → ¬ Rose (O.fault_count output.old) (O.fault_count output.new) → RanOut result }
{
    let mut book = HashBook::new(alloc, BOOK_LIMIT);
    replay_with(rt, alloc, input, output, &mut book)
}
