use thiserror::Error;

/// Why bytes are not a node at the position asked for: the first fault from the left, or bytes left over.
#[derive(Clone, Copy, Debug, PartialEq, Eq, Error)]
pub enum NodeError {
    /// The bytes end before the node does.
    #[error("the bytes end inside the node")]
    Short,
    /// Bytes follow the node.
    #[error("bytes follow the node")]
    Trailing,
    /// The keys of the entries do not strictly ascend, or the length of a key is not 1 to 64.
    #[error("the keys of the entries do not strictly ascend")]
    Order,
    /// The position of the node is another one.
    #[error("the node has another position")]
    Position,
    /// Memory ran out.
    #[error("out of memory")]
    Memory,
    /// The tag is not that of this kind of node.
    #[error("the tag is not that of this kind of node")]
    BadTag,
}
