use ens_base::{Bytes, Digest};

/// A node, and the digest that it is stored under.
#[derive(Debug, Drop)]
pub struct StoredNode {
    /// The digest.
    pub digest: Digest,
    /// The bytes of the node.
    pub bytes: Bytes,
}
