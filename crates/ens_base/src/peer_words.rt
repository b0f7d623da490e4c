use crate::peer::PeerId;
use crate::view::View;

/// One peer, which talks to the others over UDP. The peer with the number N has the port `port` + N.
#[derive(Clone, Copy, Debug, PartialEq, Eq)]
pub struct PeerWords {
    /// The peer, one of `peers`.
    pub me: PeerId,
    /// The number of peers, from 1 to 31.
    pub peers: u32,
    /// The port below that of peer 1, from 1 to 65,000.
    pub port: u16,
    /// How often the peer looks for a frame before it ends, from 1 to 1,000,000,000.
    pub turns: u64,
    /// The view that the peer opens with.
    pub view: View,
}

/// Several peers in one process, which talk to each other over UDP. The peer with the number N has
/// the port `port` + N.
#[derive(Clone, Copy, Debug, PartialEq, Eq)]
pub struct ClusterWords {
    /// The number of peers, from 1 to 31.
    pub peers: u32,
    /// The port below that of peer 1, from 1 to 65,000.
    pub port: u16,
    /// The view that the peers open with.
    pub view: View,
}
