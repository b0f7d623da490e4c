use ens_base::PeerSet;
use stored_formats::Fact;

/// The state of a peer that asks for a ballot, and then starts the ballot's epoch. The ballot is
/// that of its saved fact.
#[derive(Clone, Copy, Debug, PartialEq, Eq)]
pub enum Election {
    /// The peer waits for promises.
    Preparing {
        /// The newest fact found, which the new epoch follows.
        base: Fact,
        /// The peers that promised the ballot, including `me`.
        promises: PeerSet,
        /// The peers asked for a promise, including `me` if it is a member.
        asked: PeerSet,
        /// The number of ticks since it began to prepare, 0 to 6.
        age: u8,
    },
    /// The peer waits until the first fact of its epoch is accepted.
    Starting {
        /// The first fact of the epoch.
        fact: Fact,
        /// The peers that accepted it.
        accepts: PeerSet,
        /// The number of ticks since it started, 0 to 8.
        age: u8,
    },
}
