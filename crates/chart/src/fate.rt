use ens_base::PeerId;

/// What became of a message.
#[derive(Clone, Copy, Debug, PartialEq, Eq)]
pub enum Fate {
    /// Its receiver took it.
    Taken,
    /// It was lost, its receiver was down, or it was sent before trees got version two.
    Missed,
    /// It still waits at the end of the run.
    Waiting,
}

/// Which messages are meant.
#[derive(Debug, Drop)]
pub enum Which {
    /// All of them.
    Every,
    /// Those from one peer to another.
    Between { from: PeerId, to: PeerId },
}
