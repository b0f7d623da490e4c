ghost use Rattle.std.specs.Prelude.{◌≡◌, ◌<◌, ◌^◌, ◌++◌, ◌∷◌, [], length, IfOk, IfErr, OnOk};
ghost use Rattle.std.specs.List.{AllByRecursion};
ghost use Rattle.byteorder.specs.Endian.{big_bytes};
ghost use Rattle.tree_backup.specs.Checks.{backup_with};
ghost use Rattle.tree_backup.specs.Items.{IsHeld, held_spelling, IsItem, item_spelling, items_spelling, backup_spelling};
ghost use Rattle.tree_backup.specs.declared.error.BackupError.TheVariants.{Memory};

use crate::error::BackupError;
use crate::item::Item;
use crate::reading::{FORMAT, MAGIC, TREE};
use ens_base::Digest;
use fields::{FieldError, put_digest, put_entry, put_u8, put_u16, put_u32};
use std::alloc::Global;
use stored_formats::{BoxedObject, put_object};

/// Appends the flag, and the object behind it.
fn put_held(object: &Option<BoxedObject>, out: &mut Vec<u8>) -> Result<(), FieldError>
    ensures ok { OnOk result (out.new.items ≡ out.old.items ++ held_spelling object.now) }
    ensures valid { OnOk result (IsHeld object.now) }
    ensures memory { IfErr result (λ e. e ≡ FieldError.Memory) }
{
    match object {
        None => put_u8(0, out),
        Some(object) => {
            put_u8(1, out)?;
            put_object(object.get(), out)
        }
    }
}

/// Appends the spelling of the item. Out of memory leaves a part of it behind what `out` held.
fn put_item(item: &Item, out: &mut Vec<u8>) -> Result<(), FieldError>
    ensures ok { OnOk result (out.new.items ≡ out.old.items ++ item_spelling item.now) }
    ensures valid { OnOk result (IsItem item.now) }
    ensures memory { IfErr result (λ e. e ≡ FieldError.Memory) }
{
    put_entry(&item.entry, out)?;
    put_held(&item.object, out)
}

/// Appends the spellings of the items. Out of memory leaves some of them behind what `out` held.
fn put_items(items: &[Item], out: &mut Vec<u8>) -> Result<(), FieldError>
    ensures ok { OnOk result (out.new.items ≡ out.old.items ++ items_spelling items.now) }
    ensures valid { OnOk result (AllByRecursion IsItem items.now) }
    ensures memory { IfErr result (λ e. e ≡ FieldError.Memory) }
{
    for item in items {
        put_item(item, out)?;
    }
    Ok(())
}

/// Appends the fields before the items.
fn put_head(top: &Digest, count: u32, out: &mut Vec<u8>) -> Result<(), FieldError>
    ensures ok { OnOk result (out.new.items ≡ out.old.items ++ (82 ∷ 66 ∷ 1 ∷ 2 ∷ [] ++ (top.now ++ big_bytes 4 count))) }
    ensures memory { IfErr result (λ e. e ≡ FieldError.Memory) }
{
    put_u16(MAGIC, out)?;
    put_u8(FORMAT, out)?;
    put_u8(TREE, out)?;
    put_digest(top, out)?;
    put_u32(count, out)
}

/// Appends the spelling of the backup.
fn put_backup(top: &Digest, count: u32, items: &[Item], out: &mut Vec<u8>) -> Result<(), FieldError>
    requires { count ≡ length items.now }
    ensures ok { OnOk result (out.new.items ≡ out.old.items ++ backup_spelling (backup_with top.now items.now)) }
    ensures valid { OnOk result (AllByRecursion IsItem items.now) }
    ensures memory { IfErr result (λ e. e ≡ FieldError.Memory) }
{
    put_head(top, count, out)?;
    put_items(items, out)
}

/// Returns the spelling of a backup with these items. Fails only when out of memory, which 2^32 items
/// or more count as.
pub(crate) fn encode(alloc: Global, top: &Digest, items: &[Item]) -> Result<Vec<u8>, BackupError>
    ensures ok { IfOk result (λ v. v.items ≡ backup_spelling (backup_with top.now items.now)) }
    ensures few { OnOk result (length items.now < 2 ^ 32) }
    ensures valid { OnOk result (AllByRecursion IsItem items.now) }
    ensures memory { IfErr result (λ e. e ≡ Memory) }
{
    let count = match u32::try_from(items.len()) {
        Ok(count) => count,
        Err(_) => return Err(BackupError::Memory),
    };
    let mut out = Vec::new(alloc);
    match put_backup(top, count, items, &mut out) {
        Ok(()) => Ok(out),
        Err(_) => Err(BackupError::Memory),
    }
}
