use ens_base::Digest;
use tree_node::Position;

/// A place of a level: the node to be read there, named by its digest, or, without a digest, a
/// position that did not verify.
#[derive(Clone, Copy, Debug)]
pub struct Slot {
    /// The position.
    pub at: Position,
    /// The digest of the node.
    pub digest: Option<Digest>,
}
