ghost use Rattle.std.specs.Prelude.{◌≡◌, ◌≤◌, ℕ, Bool, All, List, Option};
ghost use Rattle.tree_sync.specs.StoredFormats.{Fact};
ghost use Rattle.tree_sync.specs.Rows.{row_start, row_resume, row_take, IsOfPeer};
ghost use Rattle.tree_sync.specs.Running.{Running};
ghost use Rattle.tree_sync.specs.Sends.{AsksOthers, MayGo, IsQuestion};
ghost use Rattle.tree_sync.specs.declared.asking.Give.{Give};
ghost use Rattle.tree_node.specs.TreeVersions.{levels};
ghost use Rattle.tree_node.specs.declared.body.Scan.{Scan};
ghost use Rattle.tree_node.specs.declared.version.TreeVersion.{TreeVersion};

/// A sync stays on its fact, and keeps the scan of the peer's own tree from its start. So it is of a
/// peer as long as the peer's saved fact stays.
pub fn syncs_keep_their_fact()
    ensures take { (tree : TreeVersion) (from : ℕ) (give : Give) (own : Option (List ℕ)) (r : Running) → (row_take tree from give own r).0.fact ≡ r.fact }
    ensures resume { (r : Running) → (row_resume r).0.fact ≡ r.fact }
    ensures scan { (tree : TreeVersion) (from : ℕ) (give : Give) (own : Option (List ℕ)) (r : Running) → (row_take tree from give own r).0.sync.scan ≡ r.sync.scan }
    ensures taken { (saved : Fact) (tree : TreeVersion) (from : ℕ) (give : Give) (own : Option (List ℕ)) (r : Running) → IsOfPeer saved r → IsOfPeer saved (row_take tree from give own r).0 }
    ensures resumed { (saved : Fact) (r : Running) → IsOfPeer saved r → IsOfPeer saved (row_resume r).0 }
{}

/// A sync asks other members of its view alone, from its start on, and for positions of a tree. It takes
/// answers for levels of the own tree.
pub fn syncs_ask_others()
    ensures start { (fact : Fact) (me : ℕ) (trusted : Bool) (scan : Scan) → AsksOthers me (row_start fact me trusted scan).0 }
    ensures resume { (me : ℕ) (r : Running) → AsksOthers me r → AsksOthers me (row_resume r).0 }
    ensures take { (tree : TreeVersion) (me from : ℕ) (give : Give) (own : Option (List ℕ)) (r : Running)
        → give.question.position.level ≤ levels tree → AsksOthers me r
        → AsksOthers me (row_take tree from give own r).0 }
{}

/// The messages of a sync that asks other members alone go to other peers, and obey the grammar of
/// frames.
pub fn messages_may_go()
    ensures start { (fact : Fact) (me : ℕ) (trusted : Bool) (scan : Scan) → All (MayGo me) (row_start fact me trusted scan).1 }
    ensures resume { (me : ℕ) (r : Running) → AsksOthers me r → All (MayGo me) (row_resume r).1 }
    ensures take { (tree : TreeVersion) (me from : ℕ) (give : Give) (own : Option (List ℕ)) (r : Running)
        → give.question.position.level ≤ levels tree → AsksOthers me r
        → All (MayGo me) (row_take tree from give own r).1 }
{}

/// Each of these messages asks a member of the sync's view for a node of its tree, at the epoch of the
/// sync's fact.
pub fn messages_are_questions()
    ensures start { (fact : Fact) (me : ℕ) (trusted : Bool) (scan : Scan) → All (IsQuestion (row_start fact me trusted scan).0) (row_start fact me trusted scan).1 }
    ensures resume { (me : ℕ) (r : Running) → AsksOthers me r → All (IsQuestion r) (row_resume r).1 }
    ensures take { (tree : TreeVersion) (me from : ℕ) (give : Give) (own : Option (List ℕ)) (r : Running)
        → give.question.position.level ≤ levels tree → AsksOthers me r
        → All (IsQuestion r) (row_take tree from give own r).1 }
{}
