ghost use Rattle.std.specs.Prelude.{◌≡◌, ℕ, List};
ghost use Rattle.ens_base.specs.declared.entry.Entry.{Entry};
ghost use Rattle.synctree.specs.Forms.{root, Laws};
ghost use Rattle.synctree.specs.Maps.{Stands, NodesApart};
ghost use Rattle.synctree.specs.Sixteen.{form_of};
ghost use Rattle.tree_node.specs.TreeVersions.{levels};
ghost use Rattle.tree_node.specs.declared.version.TreeVersion.{TreeVersion};

/// In the tree of each version at most one map stands under a digest, unless a node of one map and a different node of the
/// other have the same digest.
pub fn one_map_stands()
    ensures { (v : TreeVersion) (d : List ℕ) (m n : List Entry) → Stands (form_of v) d m → Stands (form_of v) d n → NodesApart (form_of v) (form_of v).depth root m n → m ≡ n }
{}

/// In the tree of each version, what a node spells is read again, and each key goes to one child.
pub fn nodes_are_read_again()
    ensures laws { (v : TreeVersion) → Laws (form_of v) }
    ensures shape { (v : TreeVersion) → ((form_of v).width ≡ 16) × ((form_of v).depth ≡ levels v) }
{}
