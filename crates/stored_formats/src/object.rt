ghost use Rattle.std.specs.Prelude.{◌≡◌, ◌↔◌, IsTrue, IfOk};

use ens_base::{CopyError, Digest, Entry, Key, Value, Version};
use std::alloc::Global;

/// What a peer keeps of one key: the version under which it was last proposed, the stamp of the write
/// that made it, and the value. An object without a value is a tombstone: the key was deleted.
#[derive(Debug, PartialEq, Eq, Drop)]
pub struct Object {
    pub version: Version,
    pub stamp: Version,
    pub key: Key,
    pub value: Option<Value>,
}

fn copy_value(value: &Option<Value>, alloc: Global) -> Result<Option<Value>, CopyError>
    ensures { IfOk result (λ v. v ≡ value.now) }
{
    match value {
        None => Ok(None),
        Some(value) => Ok(Some(value.copy(alloc)?)),
    }
}

impl Object {
    /// An equal object.
    pub fn copy(&self, alloc: Global) -> Result<Object, CopyError>
        ensures { IfOk result (λ o. o ≡ self.now) }
    {
        Ok(Object {
            version: self.version,
            stamp: self.stamp,
            key: self.key.copy(alloc)?,
            value: copy_value(&self.value, alloc)?,
        })
    }

    /// Whether the entry describes this object, whose spelling has the MD5 `digest`: the key, the version
    /// and the digest are the entry's.
    pub fn matches(&self, digest: &Digest, entry: &Entry) -> bool
        ensures { IsTrue result ↔ ((self.now.key ≡ entry.now.key) × (self.now.version ≡ entry.now.version) × (digest.now ≡ entry.now.digest)) }
    {
        self.key == entry.key && self.version == entry.version && *digest == entry.digest
    }
}

/// Returns a copy of the object, if there is one. Fails only when out of memory.
pub fn copy_object(alloc: Global, object: &Option<Object>) -> Result<Option<Object>, CopyError>
    ensures { IfOk result (λ o. o ≡ object.now) }
{
    match object {
        None => Ok(None),
        Some(object) => Ok(Some(object.copy(alloc)?)),
    }
}
