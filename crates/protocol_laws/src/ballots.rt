ghost use Rattle.std.specs.Prelude.{◌≡◌, ◌≤◌, ℕ, true, List, ◌∷◌};
ghost use Rattle.protocol_laws.specs.Protocol.{Step, Raise, state_after, IsRun};
ghost use Rattle.protocol_laws.specs.Preparing.{proposer_of, prepares, times_prepared};

/// In each run a ballot is prepared only by its proposer, and at most once: a single step raises
/// the proposer's own ballot to it.
pub fn ballots_are_prepared_once()
    ensures alone { (view : List ℕ) (steps : List Step) (step : Step) (ballot : ℕ) → IsRun view (step ∷ steps)
        → prepares (state_after view steps).objects.ledger step ballot ≡ true
        → step ≡ Raise (proposer_of ballot) ballot }
    ensures once { (view : List ℕ) (steps : List Step) (ballot : ℕ) → IsRun view steps → times_prepared ballot view steps ≤ 1 }
{}
