ghost use Rattle.std.specs.Prelude.{◌≡◌, List, Some, OnOk};
ghost use Rattle.std.specs.Option.{IsSomeAnd};
ghost use Rattle.ens_base.specs.declared.entry.Entry.{Entry};
ghost use Rattle.tree_node.specs.declared.version.TreeVersion.{TreeVersion};
ghost use Rattle.synctree.specs.Entries.{IsMap};
ghost use Rattle.synctree.specs.Maps.{Stands};
ghost use Rattle.synctree.specs.Sixteen.{form_of};
ghost use Rattle.synctree.specs.Installs.{store_does, store_refuses, install_plan};
ghost use Rattle.synctree.specs.Meanings.{Enters};
ghost use Rattle.synctree.specs.Plans.{Did};
ghost use Rattle.tree_repair.specs.Builds.{build_of};

use crate::built::Built;
use environment::NodeStore;
use std::alloc::Global;
use synctree::{Tree, TreeError};

/// Writes the nodes in order, each under its digest, and the digest of the root into the top record
/// last. The tree keeps its version, so the nodes should be of that version. After the plain build of a
/// map in some version, the map stands in that version under the new top record. Fails only if the
/// store does, or when out of memory. After an error the tree still has its old root. If the store
/// failed while it wrote the top record, the stored record is the old one or the new one.
pub fn install<N: NodeStore>(
    alloc: Global,
    tree: &mut Tree<N>,
    built: &Built,
) -> Result<(), TreeError>
    ensures did { Enters (λ r. Did (store_does N.may_answer N.top_record N.fault_count) (store_refuses N.may_refuse N.top_record N.fault_count)
        (install_plan built.now.nodes built.now.top) tree.old.store r tree.new.store) tree.old.top result tree.new.top }
    ensures version_is { tree.new.version ≡ tree.old.version }
    ensures top { OnOk result (tree.new.top ≡ Some built.now.top) }
    ensures stands { OnOk result ((version : TreeVersion) (m : List Entry) → IsMap m → built.now ≡ build_of (form_of version) m → IsSomeAnd tree.new.top (λ top. Stands (form_of version) top m)) }
{
    tree.install(alloc, built.nodes.as_slice(), &built.top)
}
