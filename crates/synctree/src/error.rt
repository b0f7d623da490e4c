ghost use Rattle.std.specs.Prelude.{◌≡◌};
ghost use Rattle.synctree.specs.declared.error.TreeError.TheVariants.{Memory};

use ens_base::CopyError;
use std::alloc::{AllocError, AllocFailed};
use tree_node::Position;

/// Why a call of a tree failed.
#[derive(Debug, PartialEq, Eq, Drop)]
pub enum TreeError {
    /// The first position from the root that does not verify: its node is missing, its MD5 is not
    /// the digest that names it, or its bytes are not a node of this position.
    Damaged(Position),
    /// The store failed: its count of faults rose.
    Failed,
    /// Two different strings have the same digest: the one kept, and the new one.
    Clash { first: Vec<u8>, second: Vec<u8> },
    /// The book of hashes would pass its limit with the new string. Holds the number of bytes kept.
    BookFull(u64),
    /// Out of memory.
    Memory,
}

impl From<AllocError> for TreeError {
    ghost from_gives = { λ _ e. e ≡ Memory };

    fn from(_e: AllocError) -> TreeError {
        TreeError::Memory
    }
}

impl<T: Drop> From<AllocFailed<T>> for TreeError {
    ghost from_gives = { λ _ e. e ≡ Memory };

    fn from(_e: AllocFailed<T>) -> TreeError {
        TreeError::Memory
    }
}

impl From<CopyError> for TreeError {
    ghost from_gives = { λ _ e. e ≡ Memory };

    fn from(_e: CopyError) -> TreeError {
        TreeError::Memory
    }
}
