ghost use Rattle.std.specs.Prelude.{◌≡◌, ℕ, List, [], Option, Result};
ghost use Rattle.ens_base.specs.declared.entry.Entry.{Entry};
ghost use Rattle.fields.specs.Entries.{IsEntry};
ghost use Rattle.tree_node.specs.declared.version.TreeVersion.{TreeVersion};
ghost use Rattle.synctree.specs.Maps.{Stands};
ghost use Rattle.synctree.specs.Sixteen.{form_of};
ghost use Rattle.synctree.specs.Installs.{store_does, store_refuses, install_plan};
ghost use Rattle.synctree.specs.Outsides.{outside_does, outside_refuses};
ghost use Rattle.synctree.specs.Plans.{Did};
ghost use Rattle.synctree.specs.Trees.{insert_plan, fresh_plan};
ghost use Rattle.synctree.specs.declared.error.TreeError.{TreeError};
ghost use Rattle.synctree.specs.declared.stored_node.StoredNode.{StoredNode};
ghost use Rattle.tree_repair.specs.Tops.{LeavesTop, IsRootWith};

use environment::NodeStore;
use hash_book::Hasher16;

/// What an insert leaves in the top record: the digest of the new root, what was there before, or
/// either of them, by its result. The new root is that of the map with the entry.
pub fn an_insert_leaves_the_old_or_the_new_record<N: NodeStore, H: Hasher16>()
    ensures { (tree : TreeVersion) (top : Option (List ℕ)) (e : Entry) (s t : N × H) (r : Result (List ℕ) TreeError) → IsEntry e
        → Did (outside_does N.may_answer N.top_record N.fault_count H.kept H.clashes H.fulls)
        (outside_refuses N.may_refuse N.top_record N.fault_count H.kept H.clashes H.fulls)
        (insert_plan (form_of tree) top e) s r t
        → LeavesTop (IsRootWith (outside_does N.may_answer N.top_record N.fault_count H.kept H.clashes H.fulls) (form_of tree) top e s) (N.top_record s.0) (N.top_record t.0) r }
{}

/// What `fresh` and `empty` leave in the top record: the digest of the empty map, what was there
/// before, or either of them, by the result.
pub fn an_empty_map_leaves_the_old_or_the_new_record<N: NodeStore, H: Hasher16>()
    ensures { (tree : TreeVersion) (s t : N × H) (r : Result (List ℕ) TreeError)
        → Did (outside_does N.may_answer N.top_record N.fault_count H.kept H.clashes H.fulls)
        (outside_refuses N.may_refuse N.top_record N.fault_count H.kept H.clashes H.fulls)
        (fresh_plan (form_of tree)) s r t
        → LeavesTop (λ new. Stands (form_of tree) new []) (N.top_record s.0) (N.top_record t.0) r }
{}

/// What an install leaves in the top record: the digest that it was given, what was there before, or
/// either of them, by its result.
pub fn an_install_leaves_the_old_or_the_new_record<N: NodeStore>()
    ensures { (nodes : List StoredNode) (top : List ℕ) (s t : N) (r : Result (List ℕ) TreeError)
        → Did (store_does N.may_answer N.top_record N.fault_count) (store_refuses N.may_refuse N.top_record N.fault_count) (install_plan nodes top) s r t
        → LeavesTop (λ new. new ≡ top) (N.top_record s) (N.top_record t) r }
{}
