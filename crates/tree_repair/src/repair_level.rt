ghost use Rattle.std.specs.Prelude.{◌≡◌, ◌++◌, ◌∷◌, [], Some, OnOk};

use ens_base::{Bytes, Digest};
use std::alloc::{AllocError, Global};

/// The nodes of a level that are there, from left to right: their indexes, and beside each its bytes.
#[derive(Drop)]
pub(crate) struct Texts {
    pub(crate) indexes: Vec<u32>,
    pub(crate) texts: Vec<Option<Bytes>>,
}

/// The nodes of a level that are there, from left to right: their indexes, and beside each its
/// digest.
#[derive(Drop)]
pub(crate) struct Names {
    pub(crate) indexes: Vec<u32>,
    pub(crate) names: Vec<Option<Digest>>,
}

impl Texts {
    pub(crate) fn new(alloc: Global) -> Texts
        ensures indexes { result.indexes.items ≡ [] }
        ensures texts { result.texts.items ≡ [] }
    {
        Texts {
            indexes: Vec::new(alloc),
            texts: Vec::new(alloc),
        }
    }

    /// Appends a node.
    pub(crate) fn push(&mut self, index: u32, text: Bytes) -> Result<(), AllocError>
        ensures indexes { OnOk result (self.new.indexes.items ≡ self.old.indexes.items ++ index ∷ []) }
        ensures texts { OnOk result (self.new.texts.items ≡ self.old.texts.items ++ Some text ∷ []) }
    {
        self.indexes.push(index)?;
        self.texts.push(Some(text))?;
        Ok(())
    }
}
