ghost use Rattle.std.specs.Prelude.{◌≡◌, ℕ, Bool, true, false, Option, Some, None, List};
ghost use Rattle.ens_base.specs.declared.epoch.Epoch.{Epoch};
ghost use Rattle.wire_frames.specs.StoredFormats.{Object, Fact};
ghost use Rattle.tree_node.specs.declared.body.TreeBody.{TreeBody};
ghost use Rattle.tree_node.specs.declared.position.Position.{Position};
ghost use Rattle.phase_rows.specs.declared.phase.Seen.{Seen};
ghost use Rattle.phase_rows.specs.declared.phase.Then.TheVariants.{Stay, SyncOn};
ghost use Rattle.phase_rows.specs.Orders.{is_below, is_same, may_accept};
ghost use Rattle.quorums.specs.Quorums.{is_member};
ghost use Rattle.phase_rows.specs.Rows.{silent, at_ballot};
ghost use Rattle.phase_rules.specs.Follower.{row_2};
ghost use Rattle.phase_rules.specs.Effects.{LeavesOnDistrust};
ghost use Rattle.phase_rules.specs.Announcements.{row_16, row_18, row_19};
ghost use Rattle.phase_rules.specs.Requests.{row_20, row_21, row_22, row_23};
ghost use Rattle.phase_rules.specs.declared.follower.Follower.{Follower};

/// Rule 16 accepts only a fact that the peer may accept, and begins a sync only on one that it may
/// not.
pub fn epochs_are_accepted()
    // What is saved is the announced fact if the peer may accept it, and otherwise its own at a
    // greater ballot.
    ensures accepted { (fact new save : Fact) (me from : ℕ) (trusted sync_runs : Bool) → (row_16 fact me trusted sync_runs from new).save ≡ Some save → may_accept trusted me new ≡ true → save ≡ new }
    ensures promised { (fact new save : Fact) (me from : ℕ) (trusted sync_runs : Bool)
        → (row_16 fact me trusted sync_runs from new).save ≡ Some save → may_accept trusted me new ≡ false
        → (save ≡ at_ballot fact new.epoch) × (is_below fact.ballot new.epoch ≡ true) }
    // A peer that does not trust its tree accepts nothing.
    ensures untrusted { (fact new save : Fact) (me from : ℕ) (sync_runs : Bool) → (row_16 fact me false sync_runs from new).save ≡ Some save → save ≡ at_ballot fact new.epoch }
    // A sync begins only on the announced fact, if the peer may not accept it, and not at the
    // accepted epoch.
    ensures synced { (fact new onto : Fact) (me from : ℕ) (trusted sync_runs : Bool)
        → (row_16 fact me trusted sync_runs from new).then ≡ SyncOn onto → (onto ≡ new)
        × (may_accept trusted me new ≡ false) × (is_same new.epoch fact.epoch ≡ false) }
{}

/// What these rules save has the announced epoch as its ballot, provided that the announced fact
/// has; that ballot is not below the saved one.
pub fn ballots_never_fall()
    ensures announced { (fact new save : Fact) (me from : ℕ) (trusted sync_runs : Bool) → new.ballot ≡ new.epoch
        → (row_16 fact me trusted sync_runs from new).save ≡ Some save → (save.ballot ≡ new.epoch)
        × (is_below new.epoch fact.ballot ≡ false) }
    ensures committed { (fact commit save : Fact) (from : ℕ) (trusted : Bool) → commit.ballot ≡ commit.epoch
        → (row_18 fact trusted from commit).save ≡ Some save → (save.ballot ≡ commit.epoch)
        × (is_below commit.epoch fact.ballot ≡ false) }
    ensures beat { (fact : Fact) (trusted : Bool) (from : ℕ) (ballot : Epoch) → (row_19 fact trusted from ballot).save ≡ None }
    ensures checked { (fact : Fact) (from : ℕ) (ballot : Epoch) (round : ℕ) → (row_20 fact from ballot round).save ≡ None }
    ensures got { (fact : Fact) (trusted : Bool) (from : ℕ) (ballot : Epoch) (round : ℕ) (key : List ℕ) (seen : Seen) → (row_21 fact trusted from ballot round key seen).save ≡ None }
    ensures written { (fact : Fact) (trusted : Bool) (from : ℕ) (ballot : Epoch) (object : Object) (seen : Seen) → (row_22 fact trusted from ballot object seen).save ≡ None }
    ensures given { (fact : Fact) (trusted : Bool) (from : ℕ) (ballot : Epoch) (at : Position)
        (after : Option (List ℕ)) (body : Option TreeBody)
        → (row_23 fact trusted from ballot at after body).save ≡ None }
{}

/// A peer that does not trust its tree takes no second fact, and goes on counting quiet ticks. A
/// peer that is not a member of its views counts none.
pub fn distrust_waits()
    ensures committed { (fact commit : Fact) (from : ℕ) → (row_18 fact false from commit).save ≡ None }
    ensures follows { (fact commit : Fact) (from : ℕ) → (row_18 fact false from commit).then ≡ Stay }
    ensures beat { (fact : Fact) (from : ℕ) (ballot : Epoch) → (row_19 fact false from ballot).then ≡ Stay }
    ensures outsider { (follower : Follower) (fact : Fact) (me : ℕ) → is_member fact.views me ≡ false → row_2 follower fact me ≡ (follower, silent Stay) }
{}

/// In rules 21 to 23 a leader steps down exactly if the tree becomes untrusted.
pub fn damage_ends_trust()
    ensures got { (fact : Fact) (trusted : Bool) (from : ℕ) (ballot : Epoch) (round : ℕ) (key : List ℕ) (seen : Seen) → LeavesOnDistrust (row_21 fact trusted from ballot round key seen) }
    ensures written { (fact : Fact) (trusted : Bool) (from : ℕ) (ballot : Epoch) (object : Object) (seen : Seen) → LeavesOnDistrust (row_22 fact trusted from ballot object seen) }
    ensures given { (fact : Fact) (trusted : Bool) (from : ℕ) (ballot : Epoch) (at : Position)
        (after : Option (List ℕ)) (body : Option TreeBody)
        → LeavesOnDistrust (row_23 fact trusted from ballot at after body) }
{}
