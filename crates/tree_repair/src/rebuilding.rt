ghost use Rattle.std.specs.Prelude.{◌≡◌, [], Some, OnOk};
ghost use Rattle.std.specs.Option.{IsSomeAnd};
ghost use Rattle.synctree.specs.Halves.{refused};
ghost use Rattle.synctree.specs.Meanings.{Enters};
ghost use Rattle.synctree.specs.Outsides.{outside_does, outside_refuses};
ghost use Rattle.synctree.specs.Plans.{Did};
ghost use Rattle.synctree.specs.Entries.{IsMap};
ghost use Rattle.synctree.specs.Maps.{Stands};
ghost use Rattle.synctree.specs.Sixteen.{form_of};
ghost use Rattle.tree_node.specs.Entries.{AreAbove};
ghost use Rattle.tree_repair.specs.Builds.{build_of};
ghost use Rattle.tree_repair.specs.Rebuilds.{rebuild_plan};

use crate::building::build;
use crate::gate::NoGate;
use crate::installing::install;
use ens_base::Entry;
use environment::NodeStore;
use hash_book::{HashError, Hasher16};
use std::alloc::Global;
use std::thread::Threads;
use synctree::{Tree, TreeError};

/// Returns the error of a tree for this error of a hasher.
fn tree_error(error: HashError) -> TreeError
    ensures { result ≡ refused error }
{
    match error {
        HashError::Clash { first, second } => TreeError::Clash { first, second },
        HashError::BookFull(bytes) => TreeError::BookFull(bytes),
        HashError::Memory => TreeError::Memory,
    }
}

/// Makes the map of these entries, given in ascending order of keys, the map of the tree: builds its
/// nodes in the version of the tree, whose levels are hashed by threads and which the hasher admits in
/// the order of the build, writes them, and writes the top record last. Fails only if the hasher rejects
/// a node, if the store does, or when out of memory, which a segment of 2^32 entries or more counts as;
/// never with `Damaged`.
///
/// After an error the tree still has its old root. If the store failed while it wrote the top
/// record, the stored record is the old one or the new one.
pub fn rebuild<N: NodeStore, H: Hasher16, R: Threads + Sync>(
    rt: &R,
    alloc: Global,
    tree: &mut Tree<N>,
    hasher: &mut H,
    entries: &[Entry],
) -> Result<(), TreeError>
    requires { AreAbove [] entries.now }
    ensures did { Enters (λ r. Did (outside_does N.may_answer N.top_record N.fault_count H.kept H.clashes H.fulls) (outside_refuses N.may_refuse N.top_record N.fault_count H.kept H.clashes H.fulls)
        (rebuild_plan (form_of tree.old.version) entries.now) (tree.old.store, hasher.old) r (tree.new.store, hasher.new)) tree.old.top result tree.new.top }
    ensures version_is { tree.new.version ≡ tree.old.version }
    ensures top { OnOk result (tree.new.top ≡ Some (build_of (form_of tree.old.version) entries.now).top) }
    ensures stands { OnOk result (IsMap entries.now → IsSomeAnd tree.new.top (λ top. Stands (form_of tree.old.version) top entries.now)) }
{
    let built = match build(rt, alloc, tree.version(), hasher, &NoGate, entries) {
        Ok(built) => built,
        Err(error) => return Err(tree_error(error)),
    };
    install(alloc, tree, &built)
}
