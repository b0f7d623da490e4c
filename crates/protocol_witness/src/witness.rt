ghost use Rattle.std.specs.Prelude.{List, [], ◌∷◌};
ghost use Rattle.protocol_laws.specs.Protocol.{Step, IsRun, state_after};
ghost use Rattle.protocol_witness.specs.Shown.{ShowsAll};
ghost use Rattle.protocol_witness.specs.Guarded.{AcceptanceMatters, BallotMatters, PromisesMatter, QuorumMatters, OldViewMatters};

/// There is a run in which a write is completed, a rewrite is read, a dead version is found again
/// and becomes a parent, and the view changes to a new peer and back.
pub fn guards_can_be_met()
    ensures { (steps : List Step) × IsRun (1 ∷ []) steps × ShowsAll (state_after (1 ∷ []) steps) }
{}

/// Five guards matter: without any one of them, a run breaks a law. The guards are: a member of the
/// new view of a joint epoch accepts only by a sync; a sync ends only at its own ballot; the voters
/// accepted no epoch between the base and the new one; the voters are a quorum of the base's views;
/// and the sources of a sync are a majority of the old view.
pub fn each_guard_matters()
    ensures acceptance { AcceptanceMatters }
    ensures ballot { BallotMatters }
    ensures promises { PromisesMatter }
    ensures quorum { QuorumMatters }
    ensures old_view { OldViewMatters }
{}
