ghost use Rattle.std.specs.Prelude.{◌≡◌, ◌≢◌, ◌++◌, ◌∷◌, [], ℕ, List, IfOk, OnErr, codes, length};
ghost use Rattle.std.specs.Io.KnownBytes.{Appends};
ghost use Rattle.cluster.specs.Ends.{Ends, EndsOverBook, HasRead, IsCluster, RunEnds};
ghost use Rattle.scripts.specs.Scripts.{IsScript, ended, next_line};
ghost use Rattle.ens_base.specs.Causes.{Rose};
ghost use Rattle.ens_base.specs.declared.status.Status.{Status};
ghost use Rattle.environment.specs.Written.{AppendsPrefix};
ghost use Rattle.schedule_input.specs.Counting.{WasTakenTo};
ghost use Rattle.world_model.specs.WorldSpec.{account};

use crate::ending::{Printout, stopped, unread};
use crate::recorder::Recorder;
use ens_base::{ClusterWords, Seq, Status};
use environment::{Link, Sink, Source, finish};
use hash_book::{HashBook, Hasher16};
use scripts::{ScriptLine, read_script};
use std::alloc::{AllocError, Global};
use std::thread::Threads;

/// The number of bytes that the book of a cluster keeps.
const BOOK_LIMIT: u64 = 1_073_741_824;

/// Returns how a cluster ends that read this script. Fails when out of memory.
fn run_ending<L: Link, H: Hasher16, R: Threads + Sync>(
    rt: &R,
    alloc: Global,
    words: &ClusterWords,
    script: Seq<ScriptLine>,
    link: &mut L,
    hasher: &mut H,
) -> Result<Printout, AllocError>
    requires words { IsCluster words.now }
    requires script { IsScript words.now.peers script }
    ensures ends { IfOk result (λ p. RunEnds L.sent L.given L.fault_count
        (account H.kept H.clashes H.fulls hasher.old) (account H.kept H.clashes H.fulls hasher.new) words.now script
        link.old link.new p.status p.text.items) }
    ensures memory { OnErr result (RunEnds L.sent L.given L.fault_count
        (account H.kept H.clashes H.fulls hasher.old) (account H.kept H.clashes H.fulls hasher.new) words.now script
        link.old link.new Status.Memory (codes "memory" ++ 10 ∷ [])) }
{
    match Recorder::follow(rt, alloc, words, script, link, hasher) {
        Ok(recorder) => Ok(Printout {
            status: Status::Done,
            text: recorder.text(alloc)?,
        }),
        Err(stop) => Ok(Printout::of(stopped(alloc, stop)?)),
    }
}

/// Returns how a cluster ends. Fails when out of memory.
fn cluster_ending<S: Source, L: Link, H: Hasher16, R: Threads + Sync>(
    rt: &R,
    alloc: Global,
    words: &ClusterWords,
    input: &mut S,
    link: &mut L,
    hasher: &mut H,
) -> Result<Printout, AllocError>
    requires { IsCluster words.now }
    ensures ends { IfOk result (λ p. Ends L.sent L.given L.fault_count (account H.kept H.clashes H.fulls hasher.old)
        (account H.kept H.clashes H.fulls hasher.new) words.now (S.left input.old) link.old link.new p.status
        p.text.items) }
    ensures memory { OnErr result (Ends L.sent L.given L.fault_count (account H.kept H.clashes H.fulls hasher.old)
        (account H.kept H.clashes H.fulls hasher.new) words.now (S.left input.old) link.old link.new Status.Memory
        (codes "memory" ++ 10 ∷ [])) }
    ensures taken { WasTakenTo (next_line words.now.peers) ended [] length (S.left input.old) (S.left input.new) }
    ensures read { IfOk result (λ p. HasRead words.now (S.left input.old) (S.left input.new) (S.fault_count input.old) (S.fault_count input.new) p.status) }
    ensures status { IfOk result (λ p. p.status ≢ Status.WriteFault) }
{
    match read_script(alloc, input, words.peers) {
        Ok(script) => run_ending(rt, alloc, words, script, link, hasher),
        Err(error) => Ok(Printout::of(unread(alloc, error)?)),
    }
}

/// Reads a script from the input, and runs the peers of a cluster as it says, over this link and with this
/// hasher. Writes a record to the output: the schedule of what happened, the line `answers`, and what a
/// replay of this schedule prints. Returns the status.
///
/// An event of the script happens as it stands, and is recorded. Of a line `turn N` each of the N looks at
/// the link records the delivery of the oldest message that waits with the bytes that the look gave, or
/// nothing if none does. Each message is handed to the link once, for the number of its receiver, in the
/// order of sending.
///
/// A job that ends in any other way writes one line: `schedule LINE CAUSE` if the input is not a script,
/// `read fault` if the input failed, `link fault` if the link failed, `clash KEPT NEW` if the hasher finds
/// two different strings of the run with the same MD5, `limit lines 200000` if the script or the recorded
/// schedule has too many lines, `limit messages 500000` if the run would send more messages, `limit book
/// 1073741824` if a string of the run does not fit into the book of the hasher, and `memory` when out of
/// memory. If the output fails, a prefix was written of the text with which the job would otherwise have
/// ended.
pub fn cluster_with<S: Source, O: Sink, L: Link, H: Hasher16, R: Threads + Sync>(
    rt: &R,
    alloc: Global,
    words: &ClusterWords,
    input: &mut S,
    output: &mut O,
    link: &mut L,
    hasher: &mut H,
) -> Status
    requires { IsCluster words.now }
    ensures printed { result ≢ Status.WriteFault → (text : List ℕ)
        × Ends L.sent L.given L.fault_count (account H.kept H.clashes H.fulls hasher.old)
        (account H.kept H.clashes H.fulls hasher.new) words.now (S.left input.old) link.old link.new result text
        × Appends (O.written output.old) (O.written output.new) text }
    ensures prefix { result ≡ Status.WriteFault → (status : Status) × (text : List ℕ)
        × Ends L.sent L.given L.fault_count (account H.kept H.clashes H.fulls hasher.old)
        (account H.kept H.clashes H.fulls hasher.new) words.now (S.left input.old) link.old link.new status text
        × HasRead words.now (S.left input.old) (S.left input.new) (S.fault_count input.old)
        (S.fault_count input.new) status × AppendsPrefix (O.written output.old) (O.written output.new) text }
    ensures input { result ≢ Status.WriteFault → HasRead words.now (S.left input.old) (S.left input.new) (S.fault_count input.old) (S.fault_count input.new) result }
    ensures write { result ≡ Status.WriteFault → Rose (O.fault_count output.old) (O.fault_count output.new) }
{
    match cluster_ending(rt, alloc, words, input, link, hasher) {
        Ok(printout) => printout.print(output),
        Err(_) => finish(output, "memory\n", Status::Memory),
    }
}

/// Runs a cluster as `cluster_with` does, with a book of the hashed strings that keeps at most 1,073,741,824
/// bytes.
pub fn cluster<S: Source, O: Sink, L: Link, R: Threads + Sync>(
    rt: &R,
    alloc: Global,
    words: &ClusterWords,
    input: &mut S,
    output: &mut O,
    link: &mut L,
) -> Status
    requires { IsCluster words.now }
    ensures printed { result ≢ Status.WriteFault → (text : List ℕ)
        × EndsOverBook L.sent L.given L.fault_count words.now (S.left input.old) link.old link.new result text
        × Appends (O.written output.old) (O.written output.new) text }
    ensures prefix { result ≡ Status.WriteFault → (status : Status) × (text : List ℕ)
        × EndsOverBook L.sent L.given L.fault_count words.now (S.left input.old) link.old link.new status text
        × HasRead words.now (S.left input.old) (S.left input.new) (S.fault_count input.old)
        (S.fault_count input.new) status × AppendsPrefix (O.written output.old) (O.written output.new) text }
    ensures input { result ≢ Status.WriteFault → HasRead words.now (S.left input.old) (S.left input.new) (S.fault_count input.old) (S.fault_count input.new) result }
    ensures write { result ≡ Status.WriteFault → Rose (O.fault_count output.old) (O.fault_count output.new) }
{
    let mut book = HashBook::new(alloc, BOOK_LIMIT);
    cluster_with(rt, alloc, words, input, output, link, &mut book)
}
