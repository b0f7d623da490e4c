use crate::position::Position;
use crate::version::TreeVersion;
use ens_base::{Digest, Entry, Seq};

/// An inner node: bit c of the mask says whether child c exists, and the digests are those of the children
/// that exist, that of the lowest bit first. Child c of the node at (level, index) is at (level + 1,
/// 16 * index + c).
#[derive(Debug, Drop)]
pub struct InnerNode {
    pub version: TreeVersion,
    pub position: Position,
    pub mask: u16,
    pub digests: Seq<Digest>,
}

/// A segment: entries whose keys strictly ascend.
#[derive(Debug, Drop)]
pub struct Segment {
    pub version: TreeVersion,
    pub position: Position,
    pub entries: Seq<Entry>,
}
