ghost use Rattle.std.specs.Prelude.{◌≡◌, ◌⊎◌, ◌∷◌, [], ℕ, Bool, true, false, Some, List};
ghost use Rattle.ens_base.specs.PeerSet.{holds};
ghost use Rattle.ens_base.specs.Views.{first_view};
ghost use Rattle.ens_base.specs.declared.epoch.Epoch.{Epoch};
ghost use Rattle.quorums.specs.Quorums.{is_quorum, is_member};
ghost use Rattle.stored_formats.specs.Facts.{views_after};
ghost use Rattle.stored_formats.specs.declared.fact.Change.{Change};
ghost use Rattle.stored_formats.specs.declared.fact.Change.TheVariants.{Add, Drop as DropOld};
ghost use Rattle.stored_formats.specs.declared.fact.Fact.{Fact};
ghost use Rattle.phase_rows.specs.declared.phase.Then.TheVariants.{Rule};
ghost use Rattle.phase_rows.specs.declared.rules.PhaseRule.TheVariants as phase_rules;
ghost use Rattle.phase_rules.specs.Changes.{row_24, second_fact, row_25};
ghost use Rattle.phase_rules.specs.Finishing.{row_17, row_26};
ghost use Rattle.phase_rules.specs.declared.finishing.Finishing.{Finishing};

/// A change keeps everything of the epoch except the sequence number and what is to follow.
pub fn changes_keep_the_epoch()
    // A change is taken only to a different view.
    ensures other { (fact : Fact) (leading finishing : Bool) (view : List ℕ) → (row_24 fact leading finishing view).1 ≡ true → ¬ (first_view fact.views ≡ view) }
    // A leader of one view that has begun no change takes a change to any other view.
    ensures taken { (fact : Fact) (old view : List ℕ) → fact.views ≡ old ∷ [] → (row_24 fact true false view).1 ≡ false → old ≡ view }
    // What is saved keeps the ballot, the epoch, the leader and the views.
    ensures saved { (fact save : Fact) (me : ℕ) (accepts : List Bool) (change : Change)
        → (row_25 fact me accepts change).0.save ≡ Some save → (save.ballot ≡ fact.ballot)
        × (save.epoch ≡ fact.epoch) × (save.leader ≡ fact.leader) × (save.views ≡ fact.views) }
    // The new view is put in front of the old one, and then the old one is dropped.
    ensures added { (fact : Fact) (old view : List ℕ) → fact.views ≡ old ∷ [] → views_after (second_fact fact (Add view)) ≡ view ∷ old ∷ [] }
    ensures dropped { (fact : Fact) (old view : List ℕ) → fact.views ≡ view ∷ old ∷ [] → views_after (second_fact fact DropOld) ≡ view ∷ [] }
{}

/// An epoch ends only once a quorum of its views has accepted its second fact.
pub fn epochs_end_by_quorums()
    ensures ended { (finishing : Finishing) (fact : Fact) (me : ℕ) (unanswered : Bool)
        → (row_26 finishing fact me unanswered).1.then ≡ Rule phase_rules.Prepare
        → (is_quorum (holds finishing.accepts2) fact.views ≡ true) × (unanswered ≡ false)
        × (is_member (views_after fact) me ≡ true) }
    ensures counted { (finishing : Finishing) (fact : Fact) (from seq p : ℕ) (ballot : Epoch)
        → holds (row_17 finishing fact from ballot seq).0.accepts2 p ≡ true → (p ≡ from)
        ⊎ (holds finishing.accepts2 p ≡ true) }
{}
