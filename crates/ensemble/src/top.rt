ghost use Rattle.std.specs.Prelude.{◌≡◌, ◌≢◌, ℕ, List, map};
ghost use Rattle.std.specs.Io.KnownBytes.{Appends};
ghost use Rattle.ens_base.specs.Causes.{Rose};
ghost use Rattle.ens_base.specs.declared.peer_words.ClusterWords.{ClusterWords as OfCluster};
ghost use Rattle.ens_base.specs.declared.peer_words.PeerWords.{PeerWords as Words};
ghost use Rattle.ens_base.specs.declared.status.Status.{Status};
ghost use Rattle.environment.specs.Written.{AppendsPrefix};
ghost use Rattle.command_line.specs.Forms.{AskFor, IsJob};
ghost use Rattle.command_line.specs.declared.job.Job.{Job};
ghost use Rattle.command_line.specs.declared.job.Job.TheVariants as jobs;
ghost use Rattle.ensemble.specs.Arguments.{words_given};
ghost use Rattle.ensemble.specs.Peers.{
  AreSound,
  AreUntouched,
  AskForOutside,
  CameToBackUp,
  CameToRecord,
  CameToRestore,
  CameToServe,
  GivenForOutside,
  HasBackedUp,
  HasRecorded,
  HasRestored,
  HasServed,
  OnOutside,
};
ghost use Rattle.ensemble.specs.Top.{AskToRead, DidRead, Does, Ends, EndsGiven, GivenFor, GivenToRead, IsUnhindered, ReadsInput};
ghost use Rattle.peer_server.specs.DiskPeers.{AreThere};
ghost use Rattle.root.specs.ReplayJob.{RanOut};

use crate::arguments::{ArgumentsError, words_of};
use crate::generating::{print_generated, print_summary};
use audit::print_report;
use backup_job::{print_backup, print_check, restore_disks};
use cluster::cluster;
use command_line::{Job, WordsError, read_words};
use ens_base::Status;
use environment::{Link, Sink, Source, Ticker, finish};
use peer_server::{Disks, serve};
use root::{replay, root};
use slot_disk::Disk;
use std::alloc::Global;
use std::thread::Threads;

/// Runs a job on this input and output. A peer also uses the link, the disks and the ticker, a cluster the
/// link, and a backup and a restore the disks of nodes and of objects. Returns the status.
fn run_job<S: Source, O: Sink, L: Link, D: Disk + Drop, T: Ticker, R: Threads + Sync>(
    rt: &R,
    alloc: Global,
    job: Job,
    input: &mut S,
    output: &mut O,
    link: &mut L,
    disks: &mut Disks<D>,
    ticker: &mut T,
) -> Status
    requires job { IsJob job }
    requires there { AreThere disks.old }
    ensures printed { result ≢ Status.WriteFault → (text : List ℕ) × Does job (S.left input.old) result text × Appends (O.written output.old) (O.written output.new) text }
    ensures prefix { result ≡ Status.WriteFault → (status : Status) × (text : List ℕ)
        × Does job (S.left input.old) status text
        × DidRead job (S.left input.old) (S.left input.new) (S.fault_count input.old) (S.fault_count input.new)
        status × AppendsPrefix (O.written output.old) (O.written output.new) text }
    ensures input { result ≢ Status.WriteFault → DidRead job (S.left input.old) (S.left input.new) (S.fault_count input.old) (S.fault_count input.new) result }
    ensures untouched { ¬ ReadsInput job → input.new ≡ input.old }
    ensures read { result ≡ Status.ReadFault → Rose (S.fault_count input.old) (S.fault_count input.new) }
    ensures write { result ≡ Status.WriteFault → Rose (O.fault_count output.old) (O.fault_count output.new) }
    ensures linked { OnOutside job (HasServed D.seen D.may_leave D.moment D.left_since D.fault_count L.sent L.given
        L.fault_count T.coming disks.old disks.new link.old link.new ticker.old ticker.new (O.written output.old)
        (O.written output.new) (O.fault_count output.old) (O.fault_count output.new) result)
        (HasRecorded D.seen D.may_leave D.moment D.left_since D.fault_count L.sent L.given L.fault_count T.coming
        disks.old disks.new link.old link.new ticker.old ticker.new (S.left input.old) (O.written output.old)
        (O.written output.new) (O.fault_count output.old) (O.fault_count output.new) result)
        (HasBackedUp D.seen D.fault_count disks.old disks.new link.old link.new ticker.old ticker.new
        (O.written output.old) (O.written output.new) (O.fault_count output.old) (O.fault_count output.new) result)
        (HasRestored D.seen D.fault_count disks.old disks.new link.old link.new ticker.old ticker.new
        (S.left input.old) (O.written output.old) (O.written output.new) (O.fault_count output.old)
        (O.fault_count output.new) result)
        (AreUntouched disks.old disks.new link.old link.new ticker.old ticker.new) }
    ensures there { AreThere disks.new }
{
    match job {
        Job::Replay => replay(rt, alloc, input, output),
        Job::Audit => print_report(alloc, input, output),
        Job::Backup => print_backup(rt, alloc, &mut disks.nodes, &mut disks.objects, output),
        Job::Check => print_check(rt, alloc, input, output),
        Job::Restore => restore_disks(
            rt,
            alloc,
            input,
            &mut disks.nodes,
            &mut disks.objects,
            output,
        ),
        Job::Root => root(rt, alloc, input, output),
        Job::Peer(words) => serve(rt, alloc, &words, link, disks, ticker, output),
        Job::Cluster(words) => cluster(rt, alloc, &words, input, output, link),
        Job::Generate {
            number,
            calls,
            summary,
        } => {
            if summary {
                print_summary(rt, alloc, number, calls, output)
            } else {
                print_generated(alloc, number, calls, output)
            }
        }
    }
}

/// Runs the job that the arguments ask for, on this input and output. Returns the status.
///
/// The argument `replay` reads a schedule, and writes what its run prints and one history for each
/// key. `audit` reads a record, which is a schedule with such a text, and writes the report on its
/// histories. `backup` writes the tree and the objects on the disks of nodes and of objects, `check` reads
/// such a backup and writes how many entries and objects it holds, and `restore` reads one and writes it to
/// these disks. `root` reads a script of a root ensemble, and writes what the run of it and of the ensembles
/// that it opens prints, and a history for each slot and each key. `generate NUMBER CALLS schedule` writes
/// the schedule of 1 to 20,000 calls that is generated from a number, and `generate NUMBER CALLS summary`
/// the six lines that sum up its run.
/// `peer ID PEERS PORT TURNS MEMBER ..` serves as one peer over the link, on the disks, and writes how
/// many frames it took and ignored. `cluster PEERS PORT MEMBER ..` reads a script, runs peers as it says
/// over the link, and writes a record: what happened as a schedule, and what a replay of it prints.
/// Whoever makes the link makes it for these words: with the ports from PORT on, as the number ID or as
/// the numbers 1 to PEERS. Any other arguments are a usage error.
pub fn ensemble_main<S: Source, O: Sink, L: Link, D: Disk + Drop, T: Ticker, R: Threads + Sync>(
    rt: &R,
    alloc: Global,
    words: &[&str],
    input: &mut S,
    output: &mut O,
    link: &mut L,
    disks: &mut Disks<D>,
    ticker: &mut T,
) -> Status
    requires there { AreThere disks.old }
    // What is written, for each status: for a replay that ran to its end, what the world printed,
    // and a history for each key; for an audit, the report of the record that was read.
    ensures printed { result ≢ Status.WriteFault → (text : List ℕ) × Ends (map (λ w. w.now) words.now) (S.left input.old) result text × Appends (O.written output.old) (O.written output.new) text }
    // If the output failed, a prefix of the text with which the job would otherwise have ended.
    ensures prefix { result ≡ Status.WriteFault → (status : Status) × (text : List ℕ)
        × Ends (map (λ w. w.now) words.now) (S.left input.old) status text
        × ((job : Job) → AskFor (map (λ w. w.now) words.now) job
        → DidRead job (S.left input.old) (S.left input.new) (S.fault_count input.old) (S.fault_count input.new)
        status) × AppendsPrefix (O.written output.old) (O.written output.new) text }
    // How far a replay, an audit, a cluster, or the test or the restore of a backup read the input.
    ensures input { result ≢ Status.WriteFault → (job : Job) → AskFor (map (λ w. w.now) words.now) job
        → DidRead job (S.left input.old) (S.left input.new) (S.fault_count input.old) (S.fault_count input.new) result }
    // No other job reads the input.
    ensures untouched { ¬ AskToRead (map (λ w. w.now) words.now) → input.new ≡ input.old }
    ensures read { result ≡ Status.ReadFault → Rose (S.fault_count input.old) (S.fault_count input.new) }
    ensures write { result ≡ Status.WriteFault → Rose (O.fault_count output.old) (O.fault_count output.new) }
    // If no other end has a cause, the job runs to its end, unless out of memory.
    ensures completes { (job : Job) → AskFor (map (λ w. w.now) words.now) job → IsUnhindered job (S.left input.old)
        → AreSound D.seen D.fault_count L.fault_count disks.old disks.new link.old link.new job
        → ¬ Rose (S.fault_count input.old) (S.fault_count input.new) → ¬ Rose (O.fault_count output.old) (O.fault_count output.new) → RanOut result }
    // What became of a peer: its turns, its steps and what they sent, its disks, and what it printed.
    ensures served { (w : Words) → AskFor (map (λ w. w.now) words.now) (jobs.Peer w)
        → CameToServe D.seen D.may_leave D.moment D.left_since D.fault_count L.sent L.given L.fault_count T.coming
        disks.old disks.new link.old link.new ticker.old ticker.new (O.written output.old) (O.written output.new)
        (O.fault_count output.old) (O.fault_count output.new) result w }
    // What became of a cluster: its script, its looks, what was handed to the link, and what it printed.
    ensures recorded { (w : OfCluster) → AskFor (map (λ w. w.now) words.now) (jobs.Cluster w)
        → CameToRecord D.seen D.may_leave D.moment D.left_since D.fault_count L.sent L.given L.fault_count T.coming
        disks.old disks.new link.old link.new ticker.old ticker.new (S.left input.old) (O.written output.old)
        (O.written output.new) (O.fault_count output.old) (O.fault_count output.new) result w }
    // What became of the disks of nodes and of objects under a backup, and what it printed. The disk of facts, the
    // link and the ticker are as they were.
    ensures backed { AskFor (map (λ w. w.now) words.now) jobs.Backup
        → CameToBackUp D.seen D.fault_count disks.old disks.new link.old link.new ticker.old ticker.new
        (O.written output.old) (O.written output.new) (O.fault_count output.old) (O.fault_count output.new) result }
    // The same of a restore.
    ensures restored { AskFor (map (λ w. w.now) words.now) jobs.Restore
        → CameToRestore D.seen D.fault_count disks.old disks.new link.old link.new ticker.old ticker.new
        (S.left input.old) (O.written output.old) (O.written output.new) (O.fault_count output.old)
        (O.fault_count output.new) result }
    // Only a peer and a cluster touch the link, only a peer, a backup and a restore the disks, and only a peer
    // the ticker. The disks stay there.
    ensures alone { ¬ AskForOutside (map (λ w. w.now) words.now) → AreUntouched disks.old disks.new link.old link.new ticker.old ticker.new }
    ensures there { AreThere disks.new }
{
    match read_words(alloc, words) {
        Ok(job) => run_job(rt, alloc, job, input, output, link, disks, ticker),
        Err(WordsError::Usage) => finish(output, "usage\n", Status::Usage),
        Err(WordsError::Memory) => finish(output, "memory\n", Status::Memory),
    }
}

/// Runs the program with all its arguments, its name first, or with why they could not be read: it
/// ends with a usage error if one of them is not valid text. Returns the status.
pub fn run_program<S: Source, O: Sink, L: Link, D: Disk + Drop, T: Ticker, R: Threads + Sync>(
    rt: &R,
    alloc: Global,
    all: &Result<Vec<String>, ArgumentsError>,
    input: &mut S,
    output: &mut O,
    link: &mut L,
    disks: &mut Disks<D>,
    ticker: &mut T,
) -> Status
    requires there { AreThere disks.old }
    ensures printed { result ≢ Status.WriteFault → (text : List ℕ) × EndsGiven (words_given all.now) (S.left input.old) result text × Appends (O.written output.old) (O.written output.new) text }
    // If the output failed, a prefix of the text with which the program would otherwise have ended.
    ensures prefix { result ≡ Status.WriteFault → (status : Status) × (text : List ℕ)
        × EndsGiven (words_given all.now) (S.left input.old) status text
        × ((job : Job) → GivenFor (words_given all.now) job
        → DidRead job (S.left input.old) (S.left input.new) (S.fault_count input.old) (S.fault_count input.new)
        status) × AppendsPrefix (O.written output.old) (O.written output.new) text }
    // How far a replay, an audit, a cluster, or the test or the restore of a backup read the input.
    ensures input { result ≢ Status.WriteFault → (job : Job) → GivenFor (words_given all.now) job
        → DidRead job (S.left input.old) (S.left input.new) (S.fault_count input.old) (S.fault_count input.new) result }
    // No other job reads the input.
    ensures untouched { ¬ GivenToRead (words_given all.now) → input.new ≡ input.old }
    ensures read { result ≡ Status.ReadFault → Rose (S.fault_count input.old) (S.fault_count input.new) }
    ensures write { result ≡ Status.WriteFault → Rose (O.fault_count output.old) (O.fault_count output.new) }
    // If no other end has a cause, the job runs to its end, unless out of memory.
    ensures completes { (job : Job) → GivenFor (words_given all.now) job → IsUnhindered job (S.left input.old) → AreSound D.seen D.fault_count L.fault_count disks.old disks.new link.old link.new job
        → ¬ Rose (S.fault_count input.old) (S.fault_count input.new) → ¬ Rose (O.fault_count output.old) (O.fault_count output.new) → RanOut result }
    // What became of a peer, unless memory ran out before its words were read.
    ensures served { (w : Words) → GivenFor (words_given all.now) (jobs.Peer w)
        → CameToServe D.seen D.may_leave D.moment D.left_since D.fault_count L.sent L.given L.fault_count T.coming
        disks.old disks.new link.old link.new ticker.old ticker.new (O.written output.old) (O.written output.new)
        (O.fault_count output.old) (O.fault_count output.new) result w }
    // What became of a cluster, unless memory ran out before its words were read.
    ensures recorded { (w : OfCluster) → GivenFor (words_given all.now) (jobs.Cluster w)
        → CameToRecord D.seen D.may_leave D.moment D.left_since D.fault_count L.sent L.given L.fault_count T.coming
        disks.old disks.new link.old link.new ticker.old ticker.new (S.left input.old) (O.written output.old)
        (O.written output.new) (O.fault_count output.old) (O.fault_count output.new) result w }
    // What became of the disks under a backup, unless memory ran out before its word was read.
    ensures backed { GivenFor (words_given all.now) jobs.Backup
        → CameToBackUp D.seen D.fault_count disks.old disks.new link.old link.new ticker.old ticker.new
        (O.written output.old) (O.written output.new) (O.fault_count output.old) (O.fault_count output.new) result }
    // The same of a restore.
    ensures restored { GivenFor (words_given all.now) jobs.Restore
        → CameToRestore D.seen D.fault_count disks.old disks.new link.old link.new ticker.old ticker.new
        (S.left input.old) (O.written output.old) (O.written output.new) (O.fault_count output.old)
        (O.fault_count output.new) result }
    // Only a peer and a cluster touch the link, only a peer, a backup and a restore the disks, and only a peer
    // the ticker.
    ensures alone { ¬ GivenForOutside (words_given all.now) → AreUntouched disks.old disks.new link.old link.new ticker.old ticker.new }
{
    match all {
        Ok(all) => match words_of(alloc, all) {
            Ok(words) => ensemble_main(rt, alloc, &words, input, output, link, disks, ticker),
            Err(_) => finish(output, "memory\n", Status::Memory),
        },
        Err(ArgumentsError::NotText) => finish(output, "usage\n", Status::Usage),
        Err(ArgumentsError::Memory) => finish(output, "memory\n", Status::Memory),
    }
}
