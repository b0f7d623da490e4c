ghost use Rattle.std.specs.Prelude.{◌≡◌, IfOk};

use ens_base::{CopyError, Key, Version};
use std::alloc::Global;

/// A note that a leader makes of its work on a key, for the history.
#[derive(Debug, PartialEq, Eq, Drop)]
pub enum Note {
    /// A version was proposed, with its parent, and with the call that it is the write of unless it
    /// is a rewrite.
    Proposed {
        key: Key,
        version: Version,
        parent: Option<Version>,
        call: Option<u64>,
    },
    /// A quorum acknowledged the version.
    Settled {
        key: Key,
        version: Version,
    },
    /// The call was answered from the base, without a write.
    Read {
        id: u64,
        key: Key,
        base: Option<Version>,
    },
}

impl Note {
    /// Returns a copy. Fails only when out of memory.
    pub fn copy(&self, alloc: Global) -> Result<Note, CopyError>
        ensures { IfOk result (λ n. n ≡ self.now) }
    {
        match self {
            Note::Proposed {
                key,
                version,
                parent,
                call,
            } => Ok(Note::Proposed {
                key: key.copy(alloc)?,
                version: *version,
                parent: *parent,
                call: *call,
            }),
            Note::Settled { key, version } => Ok(Note::Settled {
                key: key.copy(alloc)?,
                version: *version,
            }),
            Note::Read { id, key, base } => Ok(Note::Read {
                id: *id,
                key: key.copy(alloc)?,
                base: *base,
            }),
        }
    }
}
