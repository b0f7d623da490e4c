ghost use Rattle.std.specs.Prelude.{◌≡◌, ◌↔◌, true, ℕ, List, Some};
ghost use Rattle.md5.specs.Md5.{md5};
ghost use Rattle.ens_base.specs.declared.entry.Entry.{Entry};
ghost use Rattle.ens_base.specs.Lists.{◌∈◌};
ghost use Rattle.tree_node.specs.declared.position.Position.{Position};
ghost use Rattle.tree_node.specs.declared.version.TreeVersion.{TreeVersion};
ghost use Rattle.tree_node.specs.Positions.{IsPosition};
ghost use Rattle.synctree.specs.Entries.{IsMap};
ghost use Rattle.synctree.specs.Forms.{root};
ghost use Rattle.synctree.specs.Maps.{text, IsNode, NodesApart};
ghost use Rattle.synctree.specs.Sixteen.{form_of};
ghost use Rattle.synctree.specs.Paths.{passes};
ghost use Rattle.tree_repair.specs.Builds.{build_nodes};
ghost use Rattle.world_stores.specs.Nodes.{Nodes, top_of};
ghost use Rattle.world_stores.specs.Laws.{HoldsMap, stored_all, digest_of_node};
ghost use Rattle.world_stores.specs.Naming.{named_at, segment_place};

/// Proves that the plain build of a map has each node of the map, and no other.
pub fn a_build_has_the_nodes()
    ensures { (tree : TreeVersion) (m : List Entry) (node : List ℕ) → (node ∈ build_nodes (form_of tree) m ↔ IsNode (form_of tree) (form_of tree).depth root m node) }
{}

/// Proves that a store of the plain build of a map, with the root under the top record, holds the
/// map, unless two different nodes of the map have the same digest.
pub fn a_stored_build_holds_its_map()
    ensures { (tree : TreeVersion) (s : Nodes) (m : List Entry) → IsMap m
        → NodesApart (form_of tree) (form_of tree).depth root m m
        → top_of s.tops ≡ Some (md5 (text (form_of tree) (form_of tree).depth root m))
        → s.entries ≡ stored_all (build_nodes (form_of tree) m) → HoldsMap (form_of tree) s m }
{}

/// Proves that the digest named at a position is the MD5 of the node there, if a map stands under
/// the top record and its nodes are stored; at a position without a node none is named.
pub fn names_are_digests()
    ensures { (tree : TreeVersion) (s : Nodes) (m : List Entry) (at : Position) → HoldsMap (form_of tree) s m → IsPosition tree at → named_at (form_of tree) s at ≡ digest_of_node (form_of tree) at m }
{}

/// Proves that the path of a key goes through its segment, at a position of the tree.
pub fn keys_lie_in_their_segments()
    ensures position { (tree : TreeVersion) (key : List ℕ) → IsPosition tree (segment_place (form_of tree) key) }
    ensures path { (tree : TreeVersion) (key : List ℕ) → passes (form_of tree) key (segment_place (form_of tree) key).level (segment_place (form_of tree) key).index ≡ true }
{}
