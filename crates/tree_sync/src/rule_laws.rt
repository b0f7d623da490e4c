ghost use Rattle.std.specs.Prelude.{◌≡◌, ◌↔◌, ℕ, Bool, true, false, List, []};
ghost use Rattle.ens_base.specs.declared.entry.Entry.{Entry};
ghost use Rattle.quorums.specs.Quorums.{is_majority};
ghost use Rattle.tree_sync.specs.Merges.{IsMerge, merged};
ghost use Rattle.tree_sync.specs.Sources.{suffice, HasTeller};
ghost use Rattle.tree_sync.specs.Syncs.{is_over, needs_build, with_source, has_finished, is_trusted};
ghost use Rattle.tree_sync.specs.declared.sync.Sync.{Sync};
ghost use Rattle.tree_node.specs.declared.body.Scan.{Scan};

/// If sources suffice, whatever a majority of the view holds is told by one of them that is trusted,
/// or that is sound, provided that the sound members are a majority. So a peer that merges what it is
/// told misses nothing that a majority holds, even if no source is trusted.
pub fn sources_tell_what_most_hold()
    ensures told { (trusted finished sound holders : ℕ → Bool) (view : List ℕ) → suffice trusted finished view ≡ true → ((p : ℕ) → trusted p ≡ true → finished p ≡ true)
        → is_majority sound view ≡ true → is_majority holders view ≡ true → HasTeller trusted finished sound holders view }
    // A source with a trusted tree has finished.
    ensures trusted { (sync : Sync) (p : ℕ) → is_trusted sync p ≡ true → has_finished sync p ≡ true }
{}

/// Sources that suffice still do after another one has finished.
pub fn more_sources_suffice()
    ensures { (sync : Sync) (peer : ℕ) (trusted : Bool) (entries : List Entry) → is_over sync ≡ true → is_over (with_source peer trusted entries sync) ≡ true }
{}

/// The merge of entries is what holds, of each key, one of the entries that none exceeds; entries
/// have only one merge.
pub fn a_merge_is_one()
    ensures merge { (es : List Entry) → IsMerge es (merged es) }
    ensures one { (es m : List Entry) → IsMerge es m → m ≡ merged es }
{}

/// A peer keeps its tree exactly if its scan shows no damage and the merged entries are those of the
/// scan.
pub fn a_tree_is_kept_if_nothing_changes()
    ensures { (scan : Scan) (entries : List Entry) → ((needs_build scan entries ≡ false) ↔ ((scan.damaged ≡ []) × (scan.entries ≡ entries))) }
{}
