use ens_base::{Digest, Seq};
use synctree::StoredNode;

/// A tree: its nodes from the lowest level to the root, those of a level from left to right, and
/// the digest of the root.
#[derive(Debug, Drop)]
pub struct Built {
    /// The nodes.
    pub nodes: Seq<StoredNode>,
    /// The digest of the root.
    pub top: Digest,
}
