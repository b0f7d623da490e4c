ghost use Rattle.std.specs.Prelude.{◌≡◌, ◌++◌, ℕ, List};
ghost use Rattle.fields.specs.Grammar.{IsGrammar};
ghost use Rattle.tree_node.specs.declared.position.Position.{Position};
ghost use Rattle.tree_node.specs.declared.version.TreeVersion.{TreeVersion};
ghost use Rattle.tree_node.specs.declared.node.InnerNode.{InnerNode};
ghost use Rattle.tree_node.specs.declared.node.Segment.{Segment};
ghost use Rattle.tree_node.specs.Positions.{IsPosition, position_spelling, position_at};
ghost use Rattle.tree_node.specs.Nodes.{IsInner, inner_spelling, inner_at, IsSegment, segment_spelling, segment_at};

/// Proves that a node which was written is read again in its version at its position, whatever follows it,
/// and that no node's spelling begins another's, of the same version or of the other.
pub fn nodes_stand_apart()
    ensures inner_grammar { (v : TreeVersion) (asked : Position) → IsPosition v asked → IsGrammar (λ n. IsInner n × (n.version ≡ v) × (n.position ≡ asked)) inner_spelling (inner_at v asked) }
    ensures segment_grammar { (v : TreeVersion) (asked : Position) → IsPosition v asked → IsGrammar (λ s. IsSegment s × (s.version ≡ v) × (s.position ≡ asked)) segment_spelling (segment_at v asked) }
    ensures inner { (x y : InnerNode) (a b : List ℕ) → IsInner x → IsInner y → inner_spelling x ++ a ≡ inner_spelling y ++ b → (x ≡ y) × (a ≡ b) }
    ensures segments { (x y : Segment) (a b : List ℕ) → IsSegment x → IsSegment y → segment_spelling x ++ a ≡ segment_spelling y ++ b → (x ≡ y) × (a ≡ b) }
    ensures kinds { (x : InnerNode) (y : Segment) (a b : List ℕ) → inner_spelling x ++ a ≡ segment_spelling y ++ b → ⊥ }
{}

/// Proves that a position which was written is read again, whatever follows it.
pub fn positions_have_a_grammar()
    ensures { (v : TreeVersion) → IsGrammar (IsPosition v) position_spelling (position_at v) }
{}
