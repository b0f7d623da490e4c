ghost use Rattle.std.specs.Prelude.{◌≡◌, ◌≤◌, IfOk, IfErr, IsErrOf};
ghost use Rattle.ens_base.specs.Causes.{Rose};
ghost use Rattle.environment.specs.Told.{bytes_of};
ghost use Rattle.tree_backup.specs.Stores.{decoded, DidFetch, DidFetchOne};

use crate::item::Item;
use ens_base::{Entry, Key};
use environment::{Backend, StoreError};
use object_commands::object_in;
use std::alloc::Global;
use stored_formats::{BoxedObject, box_object};

/// Returns the object in what a backend returned, if it is one. Fails only when out of memory.
fn decode(alloc: Global, bytes: &Option<Vec<u8>>) -> Result<Option<BoxedObject>, StoreError>
    ensures ok { IfOk result (λ o. o ≡ decoded (bytes_of bytes.now)) }
    ensures memory { IfErr result (λ e. e ≡ StoreError.Memory) }
{
    match bytes {
        None => Ok(None),
        Some(bytes) => match object_in(alloc, bytes.as_slice()) {
            Ok(object) => Ok(box_object(alloc, object)?),
            Err(_) => Err(StoreError::Memory),
        },
    }
}

/// Returns the object that the backend has under a key, if it is one.
fn fetch<B: Backend>(
    alloc: Global,
    backend: &mut B,
    key: &Key,
) -> Result<Option<BoxedObject>, StoreError>
    ensures did { DidFetchOne B.may_answer B.may_refuse key.now backend.old result backend.new }
    ensures later { B.fault_count backend.old ≤ B.fault_count backend.new }
    ensures failed { IsErrOf result StoreError.Failed → Rose (B.fault_count backend.old) (B.fault_count backend.new) }
{
    match backend.get(alloc, key) {
        Ok(bytes) => decode(alloc, &bytes),
        Err(error) => Err(error),
    }
}

/// Returns an item for each entry, with the object that the backend has under its key, if it is one.
pub(crate) fn fetch_items<B: Backend>(
    alloc: Global,
    backend: &mut B,
    entries: &[Entry],
) -> Result<Vec<Item>, StoreError>
    ensures did { DidFetch B.may_answer B.may_refuse entries.now backend.old result backend.new }
    ensures later { B.fault_count backend.old ≤ B.fault_count backend.new }
    ensures failed { IsErrOf result StoreError.Failed → Rose (B.fault_count backend.old) (B.fault_count backend.new) }
{
    let mut items = Vec::with_capacity(alloc, entries.len())?;
    for entry in entries {
        let object = fetch(alloc, backend, &entry.key)?;
        let copy = entry.copy(alloc)?;
        items.push(Item {
            entry: copy,
            object,
        })?;
    }
    Ok(items)
}
