ghost use Rattle.std.specs.Prelude.{◌≡◌, ◌⊎◌, ℕ, List, [], map, Option, Some, OnOk, OnErr, IsErrOf};
ghost use Rattle.std.specs.List.{AllByRecursion};
ghost use Rattle.std.specs.Option.{IsSomeAnd};
ghost use Rattle.ens_base.specs.Causes.{Rose};
ghost use Rattle.stored_formats.specs.Objects.{object_spelling};
ghost use Rattle.synctree.specs.Halves.{refused as refused_by_hasher};
ghost use Rattle.synctree.specs.Meanings.{Enters};
ghost use Rattle.synctree.specs.Outsides.{outside_does, outside_refuses};
ghost use Rattle.synctree.specs.Plans.{Did};
ghost use Rattle.synctree.specs.Entries.{IsMap};
ghost use Rattle.synctree.specs.Maps.{Stands};
ghost use Rattle.synctree.specs.Sixteen.{form_of};
ghost use Rattle.tree_node.specs.Entries.{AreAbove};
ghost use Rattle.tree_node.specs.declared.version.TreeVersion.TheVariants.{Two};
ghost use Rattle.tree_repair.specs.Rebuilds.{rebuild_plan};
ghost use Rattle.tree_backup.specs.Checks.{top_of};
ghost use Rattle.tree_backup.specs.Items.{KeysAbove};
ghost use Rattle.tree_backup.specs.Runs.{Restores};
ghost use Rattle.tree_backup.specs.Stores.{TellsPuts};

use crate::error::{BackupError, store_error, tree_error};
use crate::item::Content;
use crate::putting::put_all;
use ens_base::Entry;
use environment::{Backend, NodeStore};
use hash_book::{HashError, Hasher16};
use std::alloc::Global;
use std::thread::Threads;
use synctree::{Tree, TreeError};
use tree_node::TreeVersion;
use tree_repair::{Gate, build, install};

/// Returns the error of a tree for this error of a hasher.
fn refused(error: HashError) -> TreeError
    ensures { result ≡ refused_by_hasher error }
{
    match error {
        HashError::Clash { first, second } => TreeError::Clash { first, second },
        HashError::BookFull(bytes) => TreeError::BookFull(bytes),
        HashError::Memory => TreeError::Memory,
    }
}

/// Makes the map of these entries the map of a tree of version two: builds its nodes, which the hasher
/// admits, writes them, and writes the top record last.
fn rebuild<N: NodeStore, H: Hasher16, R: Threads + Sync, G: Gate + Sync>(
    rt: &R,
    alloc: Global,
    tree: &mut Tree<N>,
    hasher: &mut H,
    gate: &G,
    entries: &[Entry],
) -> Result<(), TreeError>
    requires above { AreAbove [] entries.now }
    ensures did { Enters (λ r. Did (outside_does N.may_answer N.top_record N.fault_count H.kept H.clashes H.fulls) (outside_refuses N.may_refuse N.top_record N.fault_count H.kept H.clashes H.fulls)
        (rebuild_plan (form_of Two) entries.now) (tree.old.store, hasher.old) r (tree.new.store, hasher.new)) tree.old.top result tree.new.top }
    ensures version_is { tree.new.version ≡ tree.old.version }
    ensures top { OnOk result (tree.new.top ≡ Some (top_of entries.now)) }
    ensures stands { OnOk result (IsMap entries.now → IsSomeAnd tree.new.top (λ top. Stands (form_of Two) top entries.now)) }
{
    let built = match build(rt, alloc, TreeVersion::Two, hasher, gate, entries) {
        Ok(built) => built,
        Err(error) => return Err(refused(error)),
    };
    install(alloc, tree, &built)
}

/// Makes the map of the content the map of a tree of version two, and then stores each object in the
/// backend under its key, in order. The content should be what [`crate::check`] returned, or else its
/// entries and its objects must ascend strictly by their keys. Nodes are hashed by threads, in pieces
/// that the gate sees begin.
///
/// # Errors
///
/// `Failed` only if the fault count of a store rose, `Clash` and `BookFull` only if the hasher rejected a
/// node, and `Memory` when out of memory. Then the tree has its old map or that of the content, and the
/// backend some first objects. If the node store failed while it wrote the top record, the stored record
/// is the old one or the new one.
pub fn restore<B: Backend, N: NodeStore, H: Hasher16, R: Threads + Sync, G: Gate + Sync>(
    rt: &R,
    alloc: Global,
    content: &Content,
    tree: &mut Tree<N>,
    backend: &mut B,
    hasher: &mut H,
    gate: &G,
) -> Result<(), BackupError>
    requires version { tree.old.version ≡ Two }
    requires entries { AreAbove [] content.now.entries }
    requires objects { KeysAbove [] (map (λ o. o.key) content.now.objects) }
    ensures did { Restores (λ r. Enters (λ x. Did
        (outside_does N.may_answer N.top_record N.fault_count H.kept H.clashes H.fulls)
        (outside_refuses N.may_refuse N.top_record N.fault_count H.kept H.clashes H.fulls)
        (rebuild_plan (form_of Two) content.now.entries) (tree.old.store, hasher.old) x (
          tree.new.store,
          hasher.new,
        )) tree.old.top r tree.new.top) B.may_answer B.may_refuse content.now.objects backend.old result
        backend.new }
    ensures version_is { tree.new.version ≡ tree.old.version }
    ensures top { OnOk result (tree.new.top ≡ Some (top_of content.now.entries)) }
    // The map of the tree is that of the content.
    ensures stands { OnOk result (IsMap content.now.entries → IsSomeAnd tree.new.top (λ top. Stands (form_of Two) top content.now.entries)) }
    // A backend that tells its content has each object.
    ensures holds { OnOk result ((has : B → List ℕ → Option (List ℕ)) → TellsPuts B.may_answer has → AllByRecursion (λ o. has backend.new o.key ≡ Some (object_spelling o)) content.now.objects) }
    ensures left { OnErr result ((tree.new.top ≡ tree.old.top) ⊎ (tree.new.top ≡ Some (top_of content.now.entries))) }
    ensures failed { IsErrOf result BackupError.Failed → Rose (N.fault_count tree.old.store) (N.fault_count tree.new.store) ⊎ Rose (B.fault_count backend.old) (B.fault_count backend.new) }
{
    match rebuild(rt, alloc, tree, hasher, gate, content.entries.as_slice()) {
        Ok(()) => match put_all(alloc, backend, content.objects.as_slice()) {
            Ok(()) => Ok(()),
            Err(error) => Err(store_error(error)),
        },
        Err(error) => Err(tree_error(error)),
    }
}
