use std::fmt;

/// An epoch: a period with at most one leader. It consists of a count and the number of the peer
/// that proposed it. Epochs are ordered by count, then by proposer. The opening epoch is 0.0.
/// Displayed as `count.proposer`.
#[derive(Clone, Copy, Debug, PartialEq, Eq, PartialOrd, Ord, Hash)]
pub struct Epoch {
    /// The count, which orders epochs first.
    pub count: u64,
    /// The number of the peer that proposed the epoch.
    pub proposer: u32,
}

impl fmt::Display for Epoch {
    ghost use Rattle.std.specs.Prelude.{Some};
    ghost use Rattle.ens_base.specs.Words.{epoch_word};

    ghost output = { λ e. Some (epoch_word e) };

    fn fmt<W: fmt::Write>(&self, f: &mut fmt::Formatter<W>) -> fmt::Result {
        let count = self.count;
        let proposer = self.proposer;
        write!(f, "{count}.{proposer}")
    }
}

/// The version of a write: the epoch in which it was proposed, and its sequence number in that
/// epoch. Versions are ordered by epoch, then by sequence number. Displayed as
/// `count.proposer.seq`.
#[derive(Clone, Copy, Debug, PartialEq, Eq, PartialOrd, Ord, Hash)]
pub struct Version {
    /// The epoch in which the write was proposed.
    pub epoch: Epoch,
    /// The sequence number of the write in its epoch.
    pub seq: u64,
}

impl fmt::Display for Version {
    ghost use Rattle.std.specs.Prelude.{Some};
    ghost use Rattle.ens_base.specs.Words.{version_word};

    ghost output = { λ v. Some (version_word v) };

    fn fmt<W: fmt::Write>(&self, f: &mut fmt::Formatter<W>) -> fmt::Result {
        let epoch = self.epoch;
        let seq = self.seq;
        write!(f, "{epoch}.{seq}")
    }
}
