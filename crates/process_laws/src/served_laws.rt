ghost use Rattle.process_laws.specs.Served.{ServedPeersLive};

use environment::{Link, Ticker};
use slot_disk::Disk;

/// A peer that served has lived, unless it made no turn: over every disk, link and ticker, what
/// `serve` promises of its end is a life, over the disks and the link that it was given.
pub fn served_peers_lived<D: Disk, L: Link, T: Ticker>()
    ensures { ServedPeersLive D.seen D.may_leave D.moment D.left_since D.fault_count L.sent L.given L.fault_count T.coming }
{}
