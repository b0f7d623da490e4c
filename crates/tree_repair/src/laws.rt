ghost use Rattle.std.specs.Prelude.{◌≡◌, ℕ, List, Option, Some, Result, Ok, Err};
ghost use Rattle.environment.specs.Maps.{value_at};
ghost use Rattle.environment.specs.MemStores.{Nodes, NodesDo};
ghost use Rattle.synctree.specs.Forms.{Form, root};
ghost use Rattle.tree_node.specs.declared.body.Scan.{Scan};
ghost use Rattle.tree_node.specs.declared.position.Position.{Position};
ghost use Rattle.synctree.specs.Outsides.{outside_does, outside_refuses};
ghost use Rattle.synctree.specs.Plans.{Did, Ends};
ghost use Rattle.synctree.specs.declared.error.TreeError.TheVariants.{Damaged};
ghost use Rattle.tree_repair.specs.Contents.{IsContent, IsStored, answered};
ghost use Rattle.tree_repair.specs.Findings.{MayFind, by_key};
ghost use Rattle.tree_repair.specs.Levels.{scan_plan, slot};
ghost use Rattle.tree_repair.specs.PlainScans.{plain_scan};

use environment::NodeStore;
use hash_book::Hasher16;

/// Level by level, a scan finds what the plain scan finds by recursion from the root, and in that
/// order: the damaged positions as a walk by depth meets them, children ascending, and the entries in
/// the order of their keys. It makes no calls but reads, and strings given to the hasher.
pub fn a_scan_is_the_plain_scan()
    ensures { (F : Form) (has : List ℕ → Option (List ℕ)) (top : Option (List ℕ)) → answered has (scan_plan F top) ≡ Some (plain_scan F has top) }
{}

/// A scan that ends has found what the plain scan finds in what is stored: if each of its reads
/// returned what is stored (`reads`), or if the store has a content, which each read returns and
/// none changes (`content`).
pub fn a_scan_finds_what_is_stored<N: NodeStore, H: Hasher16>()
    ensures reads { (has : List ℕ → Option (List ℕ)) (F : Form) (top : Option (List ℕ)) (s t : N × H) (strings : List (List ℕ)) (result : Result Scan Position)
        → Ends (λ u call answer v. outside_does N.may_answer N.top_record N.fault_count H.kept H.clashes H.fulls u
        call answer v × IsStored has call answer) (scan_plan F top) s strings result t
        → result ≡ Ok (plain_scan F has top) }
    ensures content { (content : N → List ℕ → Option (List ℕ)) → IsContent N.may_answer content
        → (F : Form) (top : Option (List ℕ)) (s t : N × H) (strings : List (List ℕ)) (result : Result Scan Position)
        → Ends (outside_does N.may_answer N.top_record N.fault_count H.kept H.clashes H.fulls) (scan_plan F top) s strings result t → result ≡ Ok (plain_scan F (content s.0) top) }
{}

/// A store in memory has a content.
pub fn memory_has_a_content()
    ensures { IsContent NodesDo (λ (nodes : Nodes) (digest : List ℕ). value_at digest nodes.held.entries) }
{}

/// Whatever each read returns, a scan that ends has found what a walk by depth may find: the damaged
/// positions in the order in which it meets them, and the entries in the order of their keys.
pub fn a_scan_goes_by_depth<N: NodeStore, H: Hasher16>()
    ensures { (F : Form) (top : Option (List ℕ)) (s t : N × H) (strings : List (List ℕ)) (scan : Scan)
        → Ends (outside_does N.may_answer N.top_record N.fault_count H.kept H.clashes H.fulls) (scan_plan F top) s
        strings (Ok scan) t → (found : Scan) × MayFind F F.depth (slot root top) found × (scan ≡ by_key found) }
{}

/// A scan never fails with damage, whatever the store returns.
pub fn damage_is_no_error<N: NodeStore, H: Hasher16>()
    ensures { (F : Form) (top : Option (List ℕ)) (s t : N × H) (at : Position)
        → Did (outside_does N.may_answer N.top_record N.fault_count H.kept H.clashes H.fulls)
        (outside_refuses N.may_refuse N.top_record N.fault_count H.kept H.clashes H.fulls) (scan_plan F top) s
        (Err (Damaged at)) t → ⊥ }
{}
