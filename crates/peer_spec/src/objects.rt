ghost use Rattle.std.specs.Prelude.{◌≡◌, IfOk, IfErr};
ghost use Rattle.stored_formats.specs.Objects.{object_spelling};
ghost use Rattle.object_commands.specs.Kept.{object_in as object_in_bytes};

use object_commands::object_in;
use std::alloc::Global;
use step_plans::PeerError;
use stored_formats::Object;

/// Encodes the object. Fails only when out of memory.
pub fn bytes_of(alloc: Global, object: &Object) -> Result<Vec<u8>, PeerError>
    ensures ok { IfOk result (λ v. v.items ≡ object_spelling object.now) }
    ensures memory { IfErr result (λ e. e ≡ PeerError.Memory) }
{
    match object.encode(alloc) {
        Ok(bytes) => Ok(bytes),
        Err(_) => Err(PeerError::Memory),
    }
}

/// Decodes the object in the bytes, if they are one. Fails only when out of memory.
pub fn object_of(alloc: Global, bytes: &[u8]) -> Result<Option<Object>, PeerError>
    ensures ok { IfOk result (λ o. o ≡ object_in_bytes bytes.now) }
    ensures memory { IfErr result (λ e. e ≡ PeerError.Memory) }
{
    match object_in(alloc, bytes) {
        Ok(object) => Ok(object),
        Err(_) => Err(PeerError::Memory),
    }
}
