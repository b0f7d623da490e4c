ghost use Rattle.std.specs.Prelude.{◌≡◌, map, IfOk};
ghost use Rattle.tree_repair.specs.Hashers.{digest_if};
ghost use Rattle.tree_backup.specs.Checks.{matches as matches_of, mismatch as mismatch_of, text_at};
ghost use Rattle.tree_backup.specs.Runs.{matched as matched_of};

use crate::item::Item;
use ens_base::{CopyError, Digest, Key};
use object_commands::is_named;
use std::alloc::Global;

/// Whether the object of the item, if it has one, matches the entry. `digest` is the MD5 of its
/// spelling.
fn matches(item: &Item, digest: Option<Digest>) -> bool
    requires { digest ≡ digest_if (text_at item.now) }
    ensures { result ≡ matches_of item.now }
{
    match &item.object {
        None => true,
        Some(object) => match digest {
            Some(digest) => is_named(&item.entry, object.get(), &digest),
            None => false,
        },
    }
}

/// Returns the key of the first item whose object does not match its entry. Fails only when out of
/// memory.
pub(crate) fn mismatch(
    alloc: Global,
    items: &[Item],
    digests: &[Option<Digest>],
) -> Result<Option<Key>, CopyError>
    requires { digests.now ≡ map digest_if (map text_at items.now) }
    ensures { IfOk result (λ o. o ≡ mismatch_of items.now) }
{
    for i in 0..items.len() {
        let item = &items[i];
        if !matches(item, digests[i]) {
            return Ok(Some(item.entry.key.copy(alloc)?));
        }
    }
    Ok(None)
}

/// Removes the object of the item if it does not match the entry.
fn keep_if_matched(item: &mut Item, digest: Option<Digest>)
    requires { digest ≡ digest_if (text_at item.old) }
    ensures { item.new ≡ matched_of item.old }
{
    if !matches(item, digest) {
        item.object = None;
    }
}

/// Removes each object that does not match its entry.
fn keep_matched(items: &mut [Item], digests: &[Option<Digest>])
    requires { digests.now ≡ map digest_if (map text_at items.old) }
    ensures { items.new ≡ map matched_of items.old }
{
    for i in 0..items.len() {
        keep_if_matched(&mut items[i], digests[i]);
    }
}

/// Returns the items without each object that does not match its entry.
pub(crate) fn without_strays(mut items: Vec<Item>, digests: &[Option<Digest>]) -> Vec<Item>
    requires { digests.now ≡ map digest_if (map text_at items.items) }
    ensures { result.items ≡ map matched_of items.items }
{
    keep_matched(items.as_mut_slice(), digests);
    items
}
