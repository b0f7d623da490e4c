ghost use Rattle.std.specs.Prelude.{ℕ, List};
ghost use Rattle.protocol_laws.specs.Protocol.{State, Step, IsRun, state_after};
ghost use Rattle.protocol_laws.specs.Stays.{EntriesStay};
ghost use Rattle.role_laws.specs.Facts.{Lines};
ghost use Rattle.peer_refinement.specs.SyncLaws.{SyncLaws, SyncsStay};

/// In each state of a run a sync begins, resumes, and takes what sources send; at its end the merged
/// entries are a map that the peer may install, if of each view that may vote more than half of the
/// members are never reverted. A peer sends what its tree shows, or reports damage.
pub fn syncs_refine_the_protocol()
    ensures { (g : Lines) (view : List ℕ) (steps : List Step) → IsRun view steps → SyncLaws g (state_after view steps) }
{}

/// What a running sync says, and what was sent of a tree, stays so in later states of a run.
pub fn syncs_stay()
    ensures { (g : Lines) (s t : State) → EntriesStay s t → SyncsStay g s t }
{}
