ghost use Rattle.std.specs.Prelude.{◌≤◌, IsErrOf};
ghost use Rattle.ens_base.specs.Causes.{Rose};
ghost use Rattle.tree_backup.specs.Stores.{DidPut, DidPutOne};

use environment::{Backend, StoreError};
use std::alloc::Global;
use stored_formats::Object;

/// Stores the spelling of the object under its key.
fn put<B: Backend>(alloc: Global, backend: &mut B, object: &Object) -> Result<(), StoreError>
    ensures did { DidPutOne B.may_answer B.may_refuse object.now backend.old result backend.new }
    ensures later { B.fault_count backend.old ≤ B.fault_count backend.new }
    ensures failed { IsErrOf result StoreError.Failed → Rose (B.fault_count backend.old) (B.fault_count backend.new) }
{
    match object.encode(alloc) {
        Ok(bytes) => backend.put(alloc, &object.key, bytes.as_slice()),
        Err(_) => Err(StoreError::Memory),
    }
}

/// Stores the spelling of each object under its key, in order.
pub(crate) fn put_all<B: Backend>(
    alloc: Global,
    backend: &mut B,
    objects: &[Object],
) -> Result<(), StoreError>
    ensures did { DidPut B.may_answer B.may_refuse objects.now backend.old result backend.new }
    ensures later { B.fault_count backend.old ≤ B.fault_count backend.new }
    ensures failed { IsErrOf result StoreError.Failed → Rose (B.fault_count backend.old) (B.fault_count backend.new) }
{
    for object in objects {
        put(alloc, backend, object)?;
    }
    Ok(())
}
