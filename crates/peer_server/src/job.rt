ghost use Rattle.std.specs.Prelude.{◌⊎◌, ℕ, List, IfOk, IfErr};
ghost use Rattle.ens_base.specs.declared.status.Status.{Status};
ghost use Rattle.peer_server.specs.DiskPeers.{AreThere, all_there};
ghost use Rattle.peer_server.specs.Faults.{fault_text, status_of};
ghost use Rattle.peer_server.specs.Serving.{Ended, Failed, IsAmongPeers, Printed, Served, counts_text};
ghost use Rattle.peer_server.specs.Turning.{AreCounted};
ghost use Rattle.peer_turns.specs.Turns.{Turn};

use crate::disks::{Disks, Storage, Three, close, put, take};
use crate::error::ServeError;
use crate::server::Server;
use crate::starting::start;
use crate::turns::{Counts, turns};
use ens_base::{PeerWords, Status};
use environment::{Link, Sink, Ticker, finish};
use slot_disk::Disk;
use std::alloc::Global;
use std::thread::Threads;

/// How a peer ended, and the disks.
#[derive(Drop)]
struct Outcome<D> {
    ended: Result<Counts, ServeError>,
    disks: Three<D>,
}

/// Starts a peer on the disks, and makes its turns.
fn run<L: Link, D: Disk, T: Ticker, R: Threads + Sync>(
    rt: &R,
    alloc: Global,
    words: &PeerWords,
    link: &mut L,
    ticker: &mut T,
    disks: Three<D>,
) -> Outcome<D>
    requires { IsAmongPeers words.now }
    ensures served { IfOk result.ended (λ counts. (turns : List Turn)
        × Served D.seen D.may_leave D.moment D.left_since D.fault_count L.sent L.given L.fault_count T.coming
        words.now (all_there disks) (all_there result.disks) link.old link.new ticker.old ticker.new turns
        × AreCounted words.now turns counts) }
    ensures failed { IfErr result.ended (λ e. Failed D.seen D.may_leave D.moment D.left_since D.fault_count L.sent
        L.given L.fault_count T.coming words.now (status_of e) (all_there disks) (all_there result.disks) link.old
        link.new ticker.old ticker.new) }
{
    let mut server = match start(rt, alloc, words, disks) {
        Ok(server) => server,
        Err(refused) => {
            return Outcome {
                ended: Err(refused.error),
                disks: refused.held,
            };
        }
    };
    let ended = turns(rt, alloc, words, link, ticker, &mut server);
    let Server {
        peer,
        facts,
        unsent: _unsent,
    } = server;
    let stores = peer.into_stores();
    Outcome {
        ended,
        disks: close(Storage { stores, facts }),
    }
}

/// Prints the line with which a peer ends after its last turn. If there is no memory for it, prints
/// `memory`.
fn print_counts<O: Sink>(alloc: Global, words: &PeerWords, counts: Counts, output: &mut O) -> Status
    ensures { Printed (O.written output.old) (O.written output.new) (O.fault_count output.old)
        (O.fault_count output.new) Status.Done (counts_text words.now.me counts.taken counts.ignored) result
        ⊎ Printed (O.written output.old) (O.written output.new) (O.fault_count output.old)
        (O.fault_count output.new) Status.Memory (fault_text Status.Memory) result }
{
    let (me, taken, ignored) = (words.me.0, counts.taken, counts.ignored);
    match format!(in alloc; "peer {me} frames {taken} refused {ignored}\n") {
        Ok(text) => finish(output, &text, Status::Done),
        Err(_) => finish(output, "memory\n", Status::Memory),
    }
}

/// Prints the line of a fault.
fn print_fault<O: Sink>(error: ServeError, output: &mut O) -> Status
    ensures { Printed (O.written output.old) (O.written output.new) (O.fault_count output.old) (O.fault_count output.new) (status_of error) (fault_text (status_of error)) result }
{
    match error {
        ServeError::Store => finish(output, "store fault\n", Status::StoreFault),
        ServeError::Link => finish(output, "link fault\n", Status::LinkFault),
        ServeError::Memory => finish(output, "memory\n", Status::Memory),
    }
}

/// Serves as one peer on three disks, for the turns of the words, and prints one line. Each turn is one
/// look at the link and then one question to the ticker. The disks are put back, whatever the status.
pub fn serve<L: Link, D: Disk + Drop, T: Ticker, O: Sink, R: Threads + Sync>(
    rt: &R,
    alloc: Global,
    words: &PeerWords,
    link: &mut L,
    disks: &mut Disks<D>,
    ticker: &mut T,
    output: &mut O,
) -> Status
    requires words { IsAmongPeers words.now }
    requires there { AreThere disks.old }
    ensures there { AreThere disks.new }
    ensures ended { (status : Status) × (text : List ℕ)
        × Ended D.seen D.may_leave D.moment D.left_since D.fault_count L.sent L.given L.fault_count T.coming
        words.now disks.old disks.new link.old link.new ticker.old ticker.new status text
        × Printed (O.written output.old) (O.written output.new) (O.fault_count output.old)
        (O.fault_count output.new) status text result }
{
    let three = take(disks);
    let Outcome {
        ended,
        disks: after,
    } = run(rt, alloc, words, link, ticker, three);
    put(disks, after);
    match ended {
        Ok(counts) => print_counts(alloc, words, counts, output),
        Err(error) => print_fault(error, output),
    }
}
