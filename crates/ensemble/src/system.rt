ghost use Rattle.std.specs.Prelude.{IfOk};
ghost use Rattle.ensemble.specs.Arguments.{words_given};
ghost use Rattle.ensemble.specs.Peers.{IsJobOf};
ghost use Rattle.peer_server.specs.DiskPeers.{AreThere};

use crate::arguments::{ArgumentsError, words_of};
use command_line::{Job, WordsError, read_words};
use host::{ClockTicker, FileDisk, UdpLink};
use peer_server::Disks;
use std::alloc::{AllocError, Global};
use std::fs::File;
use std::io;
use std::net::Net;
use std::rt::{Clock, Files};
use std::time::Duration;

/// The time between two ticks, in milliseconds.
const TICK: u64 = 100;

/// Opens the current folder three times. As long as they are held, no file and no socket gets the number
/// of a standard stream, also where one of these was closed when the program began: what is printed
/// would else be written into a file of the peer. Nothing can be read from an open folder, and nothing
/// written to it.
pub fn stand_in<R: Files<File = File>>(files: &R) -> io::Result<(File, File, File)> {
    let first = File::open(files, ".")?;
    let second = File::open(files, ".")?;
    let third = File::open(files, ".")?;
    Ok((first, second, third))
}

/// Returns the job that all the arguments of the program ask for, or `None` if they ask for none.
pub fn job_of(
    alloc: Global,
    all: &Result<Vec<String>, ArgumentsError>,
) -> Result<Option<Job>, AllocError>
    ensures { IfOk result (IsJobOf (words_given all.now)) }
{
    let Ok(all) = all else {
        return Ok(None);
    };
    let words = words_of(alloc, all)?;
    match read_words(alloc, &words) {
        Ok(job) => Ok(Some(job)),
        Err(WordsError::Usage) => Ok(None),
        Err(WordsError::Memory) => Err(AllocError),
    }
}

/// Makes the link of a job over UDP: of a peer that of its own number, and of a cluster that of all its
/// peers. It binds its sockets once it is used, so that for any other job it does not matter which
/// numbers it has.
pub fn link_of<R: Net>(net: R, job: Option<Job>) -> UdpLink<R> {
    match job {
        Some(Job::Peer(words)) => UdpLink::new(net, words.port, words.me.0, words.me.0),
        Some(Job::Cluster(words)) => UdpLink::new(net, words.port, 1, words.peers),
        Some(
            Job::Replay
            | Job::Audit
            | Job::Backup
            | Job::Check
            | Job::Restore
            | Job::Root
            | Job::Generate { .. },
        )
        | None => UdpLink::new(net, 0, 0, 0),
    }
}

/// Makes the disks of a peer over the files `facts`, `nodes` and `objects` of the current folder. Each
/// is opened once it is used.
pub fn disks_of<R: Files<File = File> + Copy>(files: R) -> Disks<FileDisk<R>>
    ensures { AreThere result }
{
    Disks {
        facts: Some(FileDisk::new(files, "facts")),
        nodes: Some(FileDisk::new(files, "nodes")),
        objects: Some(FileDisk::new(files, "objects")),
    }
}

/// Makes the ticker of a peer over the clock.
pub fn ticker_of<R: Clock>(clock: R) -> ClockTicker<R> {
    ClockTicker::new(clock, Duration::from_millis(TICK))
}
