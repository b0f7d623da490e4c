ghost use Rattle.std.specs.Prelude.{◌≡◌, ◌++◌, List, Ok, [], map, IfOk, IfErr, OnOk};
ghost use Rattle.std.specs.List.{cons_option};
ghost use Rattle.tree_node.specs.Entries.{AreAbove};
ghost use Rattle.tree_node.specs.declared.version.TreeVersion.TheVariants.{Two};
ghost use Rattle.synctree.specs.Entries.{IsMap};
ghost use Rattle.synctree.specs.Sixteen.{form_of};
ghost use Rattle.tree_repair.specs.Admitting.{AdmitsAll};
ghost use Rattle.tree_repair.specs.Builds.{build_nodes};
ghost use Rattle.tree_backup.specs.Causes.{IsOfCheck};
ghost use Rattle.tree_backup.specs.Checks.{Spells, mismatch as mismatch_of, under as content_under, top_of, judged, check_of, Passes, texts_of, judged_strings, checked_strings};
ghost use Rattle.tree_backup.specs.Hashed.{Hashed};
ghost use Rattle.tree_backup.specs.Items.{AreItems, KeysAbove, entries_of, content_of as content_of_items};
ghost use Rattle.tree_backup.specs.declared.item.Item.{Item};

use crate::error::{BackupError, hash_error};
use crate::hashing::hash_objects;
use crate::item::{Backup, Content, Item};
use crate::matching::mismatch;
use crate::reading::decode;
use ens_base::{Digest, Key, Seq};
use hash_book::{HashError, Hasher16};
use std::alloc::{AllocError, Global};
use std::thread::Threads;
use stored_formats::{BoxedObject, Object};
use tree_node::TreeVersion;
use tree_repair::{Gate, build};

/// Appends an object, if there is one.
fn push_object(objects: &mut Vec<Object>, object: Option<BoxedObject>) -> Result<(), AllocError>
    ensures { OnOk result (objects.new.items ≡ objects.old.items ++ cons_option object []) }
{
    match object {
        Some(object) => {
            objects.push(object.into_object())?;
            Ok(())
        }
        None => Ok(()),
    }
}

/// Splits items into their entries and the objects that are there.
#[tactic(auto, using(crate::proofs::Ascending::entries_push, crate::proofs::Ascending::objects_push))]
fn content_of(alloc: Global, items: Seq<Item>) -> Result<Content, AllocError>
    ensures { IfOk result (λ c. c ≡ content_of_items items) }
{
    let mut entries = Vec::with_capacity(alloc, items.as_slice().len())?;
    let mut objects = Vec::new(alloc);
    for item in items.into_vec() {
        let Item { entry, object } = item;
        entries.push(entry)?;
        push_object(&mut objects, object)?;
    }
    Ok(Content {
        entries: Seq::new(entries),
        objects: Seq::new(objects),
    })
}

/// Hashes the objects of the items, and returns the key of the first item whose object does not match
/// its entry.
fn first_mismatch<H: Hasher16, R: Threads + Sync, G: Gate + Sync>(
    rt: &R,
    alloc: Global,
    hasher: &mut H,
    gate: &G,
    items: &[Item],
) -> Result<Option<Key>, HashError>
    ensures ok { IfOk result (λ o. o ≡ mismatch_of items.now) }
    ensures admits { AdmitsAll H.kept H.clashes H.fulls (texts_of items.now) hasher.old result hasher.new }
{
    let digests = hash_objects(rt, alloc, hasher, gate, items)?;
    match mismatch(alloc, items, digests.as_slice()) {
        Ok(key) => Ok(key),
        Err(_) => Err(HashError::Memory),
    }
}

/// Returns the content, if the digest that is named for the top record is that of the build.
fn under(named: Digest, built: Digest, content: Content) -> Result<Content, BackupError>
    ensures { result ≡ content_under named built content }
{
    if named == built {
        Ok(content)
    } else {
        Err(BackupError::Top { named, built })
    }
}

/// Returns the content of items whose objects match, if the digest that is named for the top record is
/// that of the build of their entries.
fn judge_top<H: Hasher16, R: Threads + Sync, G: Gate + Sync>(
    rt: &R,
    alloc: Global,
    hasher: &mut H,
    gate: &G,
    top: Digest,
    items: Seq<Item>,
) -> Result<Content, BackupError>
    requires items { AreItems items }
    ensures exact { Passes result (content_under top (top_of (entries_of items)) (content_of_items items)) }
    ensures hashed { Hashed H.kept H.clashes H.fulls (build_nodes (form_of Two) (entries_of items)) hasher.old result hasher.new }
{
    let content = content_of(alloc, items)?;
    match build(
        rt,
        alloc,
        TreeVersion::Two,
        hasher,
        gate,
        content.entries.as_slice(),
    ) {
        Ok(built) => under(top, built.top, content),
        Err(error) => Err(hash_error(error)),
    }
}

/// Returns the content of a backup that was read, or why it does not pass: the first object that does
/// not match its entry, and then the digest of the top record.
fn judge<H: Hasher16, R: Threads + Sync, G: Gate + Sync>(
    rt: &R,
    alloc: Global,
    hasher: &mut H,
    gate: &G,
    backup: Backup,
) -> Result<Content, BackupError>
    requires items { AreItems backup.items }
    ensures exact { Passes result (judged backup) }
    ensures hashed { Hashed H.kept H.clashes H.fulls (judged_strings backup) hasher.old result hasher.new }
{
    let Backup { top, items } = backup;
    match first_mismatch(rt, alloc, hasher, gate, items.as_slice()) {
        Ok(None) => judge_top(rt, alloc, hasher, gate, top, items),
        Ok(Some(key)) => Err(BackupError::Mismatch(key)),
        Err(error) => Err(hash_error(error)),
    }
}

/// Returns the content of a backup: the entries in ascending order of keys, and the objects that it has
/// of them, in that order. The objects are hashed by threads in halves, in pieces that the gate sees
/// begin, and so are the nodes of each level of the build; then the hasher admits them, first the
/// objects. What is found is the same for every gate.
///
/// # Errors
///
/// The bytes are read from the left: `Short`, `BadTag`, `Length`, `Order` and `BadObject` are the first
/// fault, and `Trailing` comes last. Then comes `Mismatch`, with the first object that does not match
/// its entry, and then `Top`, if the digest that is named for the top record is not that of the plain
/// build of the entries in version two. `Clash` and `BookFull` come only if the hasher rejected a
/// string, and `Memory` when out of memory. `Damaged` and `Failed` never come.
pub fn check<H: Hasher16, R: Threads + Sync, G: Gate + Sync>(
    rt: &R,
    alloc: Global,
    bytes: &[u8],
    hasher: &mut H,
    gate: &G,
) -> Result<Content, BackupError>
    // What passes is a backup, and this is its content.
    ensures found { IfOk result (λ c. (items : List Item) × Spells bytes.now items × (c ≡ content_of_items items)) }
    // A backup passes, unless the hasher rejects a string or memory runs out.
    ensures only { (items : List Item) → Spells bytes.now items → Passes result (Ok (content_of_items items)) }
    // Which error it is.
    ensures exact { Passes result (check_of bytes.now) }
    ensures hashed { Hashed H.kept H.clashes H.fulls (checked_strings bytes.now) hasher.old result hasher.new }
    ensures causes { IfErr result IsOfCheck }
    ensures map { IfOk result (λ c. IsMap c.entries) }
    ensures entries { IfOk result (λ c. AreAbove [] c.entries) }
    ensures objects { IfOk result (λ c. KeysAbove [] (map (λ o. o.key) c.objects)) }
{
    let backup = decode(alloc, bytes)?;
    judge(rt, alloc, hasher, gate, backup)
}
