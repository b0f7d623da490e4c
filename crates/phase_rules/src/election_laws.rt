ghost use Rattle.std.specs.Prelude.{◌≡◌, ◌≤◌, ℕ, Bool};
ghost use Rattle.ens_base.specs.declared.epoch.Epoch.{Epoch};
ghost use Rattle.stored_formats.specs.declared.fact.Fact.{Fact};
ghost use Rattle.phase_rows.specs.declared.phase.Then.TheVariants.{Lead};
ghost use Rattle.phase_rules.specs.declared.election.Election.{Election};
ghost use Rattle.phase_rules.specs.Ballots.{row_11};
ghost use Rattle.phase_rules.specs.Preparing.{row_10, row_12, row_13};
ghost use Rattle.phase_rules.specs.Starting.{row_14};
ghost use Rattle.phase_rules.specs.ElectionLaws.{RaisesTheBallot, KeepsTheNewest, StartsElected, SavesAcceptable, IsAccepted};

/// A peer that asks for a ballot with a count not below its own, or that promises one, saves a
/// greater ballot than before and changes nothing else of its fact.
pub fn a_ballot_only_rises()
    ensures asked { (fact : Fact) (me : ℕ) (best : Fact) (count : ℕ) → fact.ballot.count ≤ count → RaisesTheBallot fact (row_10 fact me best count).0.save }
    ensures promised { (fact : Fact) (from : ℕ) (ballot : Epoch) → RaisesTheBallot fact (row_11 fact from ballot).save }
{}

/// A promise of the ballot never makes the base older. After it the base is at least as new as the
/// promised fact.
pub fn the_base_is_the_newest_promised()
    ensures { (election : Election) (fact : Fact) (me from : ℕ) (promised : Fact) → KeepsTheNewest election promised (row_12 election fact me from fact.ballot promised).0 }
{}

/// A peer starts an epoch only with the promises of a quorum of the base's views, and on the views
/// that follow the base. It saves the epoch's fact only if it may accept it.
#[tactic(auto, unfolding(crate::specs::Preparing::starts))]
pub fn a_quorum_elects()
    ensures starts { (election : Election) (fact : Fact) (me : ℕ) (trusted : Bool) → StartsElected election fact me (row_13 election fact me trusted).0 }
    ensures saves { (election : Election) (fact : Fact) (me : ℕ) (trusted : Bool) → SavesAcceptable trusted me fact (row_13 election fact me trusted).1.save }
{}

/// A peer leads only the epoch that it starts, and only once it and a quorum of the epoch's views
/// have accepted it.
pub fn a_quorum_lets_lead()
    ensures { (election : Election) (me : ℕ) (fact : Fact) → (row_14 election me).1.then ≡ Lead fact → IsAccepted election me fact }
{}
