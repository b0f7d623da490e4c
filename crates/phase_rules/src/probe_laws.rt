ghost use Rattle.std.specs.Prelude.{◌≡◌, ℕ, true};
ghost use Rattle.ens_base.specs.PeerSet.{holds};
ghost use Rattle.quorums.specs.Quorums.{is_quorum};
ghost use Rattle.phase_rows.specs.StoredFormats.{Fact};
ghost use Rattle.phase_rows.specs.declared.phase.Then.TheVariants.{Rule};
ghost use Rattle.phase_rows.specs.declared.rules.PhaseRule.TheVariants as phase_rules;
ghost use Rattle.phase_rules.specs.declared.probing.Probing.{Probing};
ghost use Rattle.phase_rules.specs.ProbeLaws.{HasGrown, HasReckonedWith};
ghost use Rattle.phase_rules.specs.Probing.{row_8, row_9};

/// A reply never makes the best fact older or the count less. After it the best fact is at least as
/// new as the fact of the reply, and the count at least that of its ballot.
pub fn the_best_is_the_newest_heard()
    ensures grown { (probing : Probing) (me from : ℕ) (reply : Fact) → HasGrown probing (row_8 probing me from reply).0 }
    ensures heard { (probing : Probing) (me from : ℕ) (reply : Fact) → HasReckonedWith (row_8 probing me from reply).0 reply }
{}

/// A peer asks for a ballot only once it has heard from a quorum of the best fact's views.
pub fn a_quorum_was_heard()
    ensures { (probing : Probing) → (row_9 probing).1.then ≡ Rule phase_rules.Prepare → is_quorum (holds probing.heard) probing.best.views ≡ true }
{}
