ghost use Rattle.std.specs.Prelude.{◌≡◌, ◌↔◌, IsTrue, IfOk, IfErr};
ghost use Rattle.object_commands.specs.Kept.{object_in as object_in_bytes, is_named as is_named_by, matching as matching_of, entry_of as entry_of_object};

use ens_base::{CopyError, Digest, Entry};
use std::alloc::Global;
use stored_formats::{Object, ObjectError};

/// Decodes the object in `bytes`, or returns `None` if they are not an object. Fails only when out
/// of memory, with `Memory`.
pub fn object_in(alloc: Global, bytes: &[u8]) -> Result<Option<Object>, ObjectError>
    ensures exact { IfOk result (λ o. o ≡ object_in_bytes bytes.now) }
    ensures memory { IfErr result (λ e. e ≡ ObjectError.Memory) }
{
    match Object::decode(alloc, bytes) {
        Ok(object) => Ok(Some(object)),
        Err(ObjectError::Memory) => Err(ObjectError::Memory),
        Err(_) => Ok(None),
    }
}

/// Whether the entry names this object, with this digest of its bytes: the key, the version and the
/// digest are those of the entry.
pub fn is_named(entry: &Entry, object: &Object, digest: &Digest) -> bool
    ensures exact { result ≡ is_named_by entry.now object.now digest.now }
    ensures named { IsTrue result ↔ ((object.now.key ≡ entry.now.key) × (object.now.version ≡ entry.now.version) × (digest.now ≡ entry.now.digest)) }
{
    object.key == entry.key && object.version == entry.version && *digest == entry.digest
}

/// Given the object that the backend keeps and the digest of its bytes, returns the object if the
/// entry names it, and `None` otherwise.
pub fn matching(entry: &Entry, kept: Option<(Object, Digest)>) -> Option<Object>
    ensures { result ≡ matching_of entry.now kept }
{
    match kept {
        None => None,
        Some((object, digest)) => {
            if is_named(entry, &object, &digest) {
                Some(object)
            } else {
                None
            }
        }
    }
}

/// Makes the entry that names this object, with this digest of its bytes. Fails when out of memory.
pub fn entry_of(alloc: Global, object: &Object, digest: Digest) -> Result<Entry, CopyError>
    ensures { IfOk result (λ e. e ≡ entry_of_object object.now digest) }
{
    Ok(Entry {
        key: object.key.copy(alloc)?,
        version: object.version,
        digest,
    })
}
