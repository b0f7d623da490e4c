ghost use Rattle.std.specs.Prelude.{◌≡◌, IfOk};

use ens_base::{CopyError, Key, copy_key};
use std::alloc::Global;
use tree_node::Position;

/// A question of one peer to another: the node at a position, or the entries of a segment with keys
/// greater than `after`.
#[derive(Debug, PartialEq, Eq, Drop)]
pub struct Question {
    /// The position.
    pub position: Position,
    /// The last key received of the segment, if there is one.
    pub after: Option<Key>,
}

impl Question {
    /// Returns a copy. Fails only when out of memory.
    pub fn copy(&self, alloc: Global) -> Result<Question, CopyError>
        ensures { IfOk result (λ q. q ≡ self.now) }
    {
        Ok(Question {
            position: self.position,
            after: copy_key(alloc, &self.after)?,
        })
    }
}
