ghost use Rattle.std.specs.Prelude.{◌≡◌};
ghost use Rattle.fields.specs.FirstFaults.{FaultsFirst};
ghost use Rattle.tree_node.specs.declared.position.Position.{Position};
ghost use Rattle.tree_node.specs.declared.version.TreeVersion.{TreeVersion};
ghost use Rattle.tree_node.specs.Positions.{IsPosition, position_spelling, position_at};
ghost use Rattle.tree_node.specs.Nodes.{IsInner, inner_spelling, inner_at, IsSegment, segment_spelling, segment_at};
ghost use Rattle.tree_node.specs.FirstFaults.{NodeFaultsFirst};

/// Proves that the fault of a position or a node is the first one: bytes that are cut before the end of the
/// part at fault end too early, bytes that agree to its end have the same fault, and no node of this
/// version at the position asked for is spelled so.
pub fn nodes_fault_first()
    ensures position { (v : TreeVersion) → FaultsFirst (IsPosition v) position_spelling (position_at v) }
    ensures inner { (v : TreeVersion) (asked : Position) → IsPosition v asked → NodeFaultsFirst (λ n. IsInner n × (n.version ≡ v) × (n.position ≡ asked)) inner_spelling (inner_at v asked) }
    ensures segment { (v : TreeVersion) (asked : Position) → IsPosition v asked → NodeFaultsFirst (λ s. IsSegment s × (s.version ≡ v) × (s.position ≡ asked)) segment_spelling (segment_at v asked) }
{}
