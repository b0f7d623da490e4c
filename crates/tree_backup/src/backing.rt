ghost use Rattle.std.specs.Prelude.{◌≡◌, ◌⊎◌, [], map, IfOk, IsErrOf};
ghost use Rattle.ens_base.specs.Causes.{Rose};
ghost use Rattle.synctree.specs.Outsides.{outside_does, outside_refuses};
ghost use Rattle.synctree.specs.Plans.{Did};
ghost use Rattle.synctree.specs.Sixteen.{form_of};
ghost use Rattle.tree_node.specs.Entries.{AreAbove};
ghost use Rattle.tree_repair.specs.Admitting.{AdmitsAll};
ghost use Rattle.tree_repair.specs.Levels.{scan_plan};
ghost use Rattle.tree_backup.specs.Checks.{Spells};
ghost use Rattle.tree_backup.specs.Items.{entries_of};
ghost use Rattle.tree_backup.specs.Order.{Rises};
ghost use Rattle.tree_backup.specs.Runs.{matched, backup_strings, Sound, Behind, BehindWhole, BacksUp};

use crate::error::{BackupError, hash_error, store_error, tree_error};
use crate::fetching::fetch_items;
use crate::hashing::hash_objects;
use crate::item::Item;
use crate::matching::without_strays;
use crate::order::are_once;
use crate::writing::encode;
use ens_base::{Entry, Seq};
use environment::{Backend, NodeStore};
use hash_book::{HashError, Hasher16};
use std::alloc::Global;
use std::thread::Threads;
use synctree::Tree;
use tree_node::{Scan, TreeVersion};
use tree_repair::{Gate, build, scan};

/// Returns the entries of a scan without damage in which each key occurs once.
fn sound(found: Scan) -> Result<Seq<Entry>, BackupError>
    requires { Rises [] found.entries }
    ensures { Sound found result }
{
    let Scan { entries, damaged } = found;
    let damaged = damaged.as_slice();
    if !damaged.is_empty() {
        Err(BackupError::Damaged(damaged[0]))
    } else if are_once(entries.as_slice()) {
        Ok(entries)
    } else {
        Err(BackupError::Order)
    }
}

/// Returns the bytes of the backup of these items, without the objects that do not match.
fn spell<H: Hasher16, R: Threads + Sync, G: Gate + Sync>(
    rt: &R,
    alloc: Global,
    hasher: &mut H,
    gate: &G,
    entries: &[Entry],
    items: Vec<Item>,
) -> Result<Vec<u8>, HashError>
    requires above { AreAbove [] entries.now }
    requires same { entries_of items.items ≡ entries.now }
    ensures spells { IfOk result (λ v. Spells v.items (map matched items.items)) }
    ensures admits { AdmitsAll H.kept H.clashes H.fulls (backup_strings entries.now items.items) hasher.old result hasher.new }
{
    let digests = hash_objects(rt, alloc, hasher, gate, items.as_slice())?;
    let kept = without_strays(items, digests.as_slice());
    let built = build(rt, alloc, TreeVersion::Two, hasher, gate, entries)?;
    match encode(alloc, &built.top, kept.as_slice()) {
        Ok(bytes) => Ok(bytes),
        Err(_) => Err(HashError::Memory),
    }
}

/// Returns the bytes of the backup of these entries, with the objects that the backend has of them.
fn back_up_entries<B: Backend, H: Hasher16, R: Threads + Sync, G: Gate + Sync>(
    rt: &R,
    alloc: Global,
    backend: &mut B,
    hasher: &mut H,
    gate: &G,
    entries: &[Entry],
) -> Result<Vec<u8>, BackupError>
    requires { AreAbove [] entries.now }
    ensures did { BehindWhole B.may_answer B.may_refuse H.kept H.clashes H.fulls entries.now backend.old hasher.old result backend.new hasher.new }
    ensures failed { IsErrOf result BackupError.Failed → Rose (B.fault_count backend.old) (B.fault_count backend.new) }
{
    let items = match fetch_items(alloc, backend, entries) {
        Ok(items) => items,
        Err(error) => return Err(store_error(error)),
    };
    match spell(rt, alloc, hasher, gate, entries, items) {
        Ok(bytes) => Ok(bytes),
        Err(error) => Err(hash_error(error)),
    }
}

/// Returns the bytes of the backup of what a scan found.
fn back_up_scan<B: Backend, H: Hasher16, R: Threads + Sync, G: Gate + Sync>(
    rt: &R,
    alloc: Global,
    backend: &mut B,
    hasher: &mut H,
    gate: &G,
    found: Scan,
) -> Result<Vec<u8>, BackupError>
    requires rises { Rises [] found.entries }
    ensures did { Behind B.may_answer B.may_refuse H.kept H.clashes H.fulls found backend.old hasher.old result backend.new hasher.new }
    ensures failed { IsErrOf result BackupError.Failed → Rose (B.fault_count backend.old) (B.fault_count backend.new) }
{
    let entries = sound(found)?;
    back_up_entries(rt, alloc, backend, hasher, gate, entries.as_slice())
}

/// Returns the backup of a tree and its objects: the entries of a scan, each with the object that the
/// backend has under its key, if the bytes there are an object that matches the entry. It passes
/// [`crate::check`], whatever the version of the tree is. Nothing is written to a store. Objects and
/// nodes are hashed by threads, in pieces that the gate sees begin, and the backup is the same for
/// every gate.
///
/// # Errors
///
/// `Damaged` exactly if the scan finds damage, with the first position; `Order` exactly if it finds none
/// and a key twice; `Failed` only if the fault count of a store rose; `Clash` and `BookFull` only if the
/// hasher rejected a string; `Memory` when out of memory, which 2^32 entries or more count as.
pub fn backup<B: Backend, N: NodeStore, H: Hasher16, R: Threads + Sync, G: Gate + Sync>(
    rt: &R,
    alloc: Global,
    tree: &mut Tree<N>,
    backend: &mut B,
    hasher: &mut H,
    gate: &G,
) -> Result<Vec<u8>, BackupError>
    ensures did { BacksUp (λ r s. Did (outside_does N.may_answer N.top_record N.fault_count H.kept H.clashes H.fulls) (outside_refuses N.may_refuse N.top_record N.fault_count H.kept H.clashes H.fulls)
        (scan_plan (form_of tree.old.version) tree.old.top) (tree.old.store, hasher.old) r s) B.may_answer
        B.may_refuse H.kept H.clashes H.fulls backend.old result tree.new.store backend.new hasher.new }
    ensures version_is { tree.new.version ≡ tree.old.version }
    ensures top { tree.new.top ≡ tree.old.top }
    ensures failed { IsErrOf result BackupError.Failed → Rose (N.fault_count tree.old.store) (N.fault_count tree.new.store) ⊎ Rose (B.fault_count backend.old) (B.fault_count backend.new) }
{
    match scan(rt, alloc, tree, hasher, gate) {
        Ok(found) => back_up_scan(rt, alloc, backend, hasher, gate, found),
        Err(error) => Err(tree_error(error)),
    }
}
