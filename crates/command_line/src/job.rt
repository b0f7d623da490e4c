use ens_base::{ClusterWords, PeerWords};

/// What the words of a command line ask for.
#[derive(Clone, Copy, Debug, PartialEq, Eq)]
pub enum Job {
    /// `replay`: read a schedule, and write what its run prints.
    Replay,
    /// `peer ID PEERS PORT TURNS MEMBER ..`: run one peer over UDP.
    Peer(PeerWords),
    /// `cluster PEERS PORT MEMBER ..`: run peers over UDP as a script says.
    Cluster(ClusterWords),
    /// `audit`: read a record, and write a report on its histories.
    Audit,
    /// `backup`: write the tree and the objects of a peer that has stopped.
    Backup,
    /// `check`: read a backup, and write what it holds.
    Check,
    /// `restore`: read a backup, and write it to the disks of a peer that has stopped.
    Restore,
    /// `root`: read a script of a root ensemble, and write what its run prints.
    Root,
    /// `generate NUMBER CALLS schedule` or `generate NUMBER CALLS summary`: generate a schedule of 1
    /// to 20,000 calls from a number, and write it, or a summary of its run.
    Generate {
        number: u64,
        calls: u64,
        summary: bool,
    },
}

/// Why words were not read.
#[derive(Clone, Copy, Debug, PartialEq, Eq)]
pub enum WordsError {
    /// The words ask for no job.
    Usage,
    /// Out of memory.
    Memory,
}
