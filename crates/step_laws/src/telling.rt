ghost use Rattle.std.specs.Prelude.{◌≡◌, ◌↔◌, ℕ, Bool, true, false, None, Some, List};
ghost use Rattle.ens_base.specs.PeerSet.{holds};
ghost use Rattle.stored_formats.specs.declared.fact.Fact.{Fact};
ghost use Rattle.phase_rows.specs.Orders.{is_joint};
ghost use Rattle.wire_frames.specs.declared.message.Message.TheVariants.{NewEpoch, Commit, Beat};
ghost use Rattle.phase_rows.specs.declared.phase.Then.TheVariants.{Rule};
ghost use Rattle.phase_rows.specs.declared.rules.PhaseRule.TheVariants as phase_rules;
ghost use Rattle.step_laws.specs.Answers.{IsOther, IsTold, IsNotTold};
ghost use Rattle.leader.specs.Ticks.{Finishing, row_5_rest};
ghost use Rattle.leader.specs.declared.leader.Leader.{Leader};

/// What a tick sends, and what ends it (rule 5). Each other member is told one thing: the epoch, until
/// it has accepted that; then the change that the leader finishes, until it has accepted that; and
/// otherwise that the leader still leads. Nobody else is told anything. A joint epoch is then ended,
/// unless a change is being finished.
pub fn a_tick_tells_each_member()
    ensures epoch { (finishing : Finishing) (fact : Fact) (l : Leader) (p : ℕ) → IsOther p l → holds l.accepts p ≡ false → IsTold p (NewEpoch l.fact) (row_5_rest finishing fact l) }
    ensures change { (accepted : List Bool) (age : ℕ) (fact : Fact) (l : Leader) (p : ℕ) → IsOther p l
        → holds l.accepts p ≡ true → holds accepted p ≡ false
        → IsTold p (Commit fact) (row_5_rest (Some (accepted, age)) fact l) }
    ensures changed { (accepted : List Bool) (age : ℕ) (fact : Fact) (l : Leader) (p : ℕ) → IsOther p l
        → holds l.accepts p ≡ true → holds accepted p ≡ true
        → IsTold p (Beat l.fact.epoch) (row_5_rest (Some (accepted, age)) fact l) }
    ensures leads { (fact : Fact) (l : Leader) (p : ℕ) → IsOther p l → holds l.accepts p ≡ true → IsTold p (Beat l.fact.epoch) (row_5_rest None fact l) }
    ensures others { (finishing : Finishing) (fact : Fact) (l : Leader) (p : ℕ) → ¬ IsOther p l → IsNotTold p (row_5_rest finishing fact l) }
    ensures ends { (finishing : Finishing) (fact : Fact) (l : Leader) → ((row_5_rest finishing fact l).then ≡ Rule phase_rules.BeginChange) ↔ ((is_joint l.fact.views ≡ true) × (finishing ≡ None)) }
{}
