ghost use Rattle.std.specs.Prelude.{◌≡◌, IfOk};

use crate::copy_error::CopyError;
use crate::digest::Digest;
use crate::epoch::Version;
use crate::key::Key;
use std::alloc::Global;

/// What the tree keeps of an object: its key, its version, and the MD5 of its encoding.
#[derive(Debug, PartialEq, Eq, Drop)]
pub struct Entry {
    /// The key of the object.
    pub key: Key,
    /// The version of the object.
    pub version: Version,
    /// The MD5 of the object's encoding.
    pub digest: Digest,
}

impl Entry {
    /// Returns a copy. Fails only when out of memory.
    pub fn copy(&self, alloc: Global) -> Result<Entry, CopyError>
        ensures { IfOk result (λ e. e ≡ self.now) }
    {
        Ok(Entry {
            key: self.key.copy(alloc)?,
            version: self.version,
            digest: self.digest,
        })
    }
}

/// Returns a copy of the entry, if there is one. Fails only when out of memory.
pub fn copy_entry(alloc: Global, entry: &Option<Entry>) -> Result<Option<Entry>, CopyError>
    ensures { IfOk result (λ e. e ≡ entry.now) }
{
    match entry {
        None => Ok(None),
        Some(entry) => Ok(Some(entry.copy(alloc)?)),
    }
}
