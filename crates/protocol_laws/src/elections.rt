ghost use Rattle.std.specs.Prelude.{◌≤◌, ℕ, List, ◌∷◌};
ghost use Rattle.protocol_laws.specs.Protocol.{Step, IsRun, state_after};
ghost use Rattle.protocol_laws.specs.Elections.{ElectionsAreSafe, Lists, Stays, times_elected};

/// In each run a peer accepts at its ballot or below, and only elected epochs; only an established
/// epoch changes its views. The base of an epoch is at least each lower epoch that is not closed,
/// and an open epoch below an elected one has been left by a quorum. A closed epoch is never
/// established. In an established joint epoch a majority of the new view accepted by ending a sync. An established epoch is at or below the
/// base of each greater one.
pub fn elections_are_safe()
    ensures { (view : List ℕ) (steps : List Step) → IsRun view steps → ElectionsAreSafe (state_after view steps).objects.ledger }
{}

/// In each run the views of an epoch are those of the last open epoch below it, or those to which
/// its leader changed them. The two lists share a view.
pub fn lists_share_a_view()
    ensures { (view : List ℕ) (steps : List Step) → IsRun view steps → Lists (state_after view steps).objects.ledger }
{}

/// In each run an epoch is elected at most once. Since an epoch's number names its proposer, two
/// leaders of one epoch are the same peer in the same term.
pub fn two_leaders_of_an_epoch_are_one()
    ensures { (view : List ℕ) (steps : List Step) (epoch : ℕ) → IsRun view steps → times_elected epoch steps ≤ 1 }
{}

/// From one state of a run to the next no ballot falls, an elected epoch keeps its base and its
/// views, what was accepted stays accepted, a peer accepts no epoch below its ballot any more, an
/// established epoch stays established, and a closed one stays closed.
pub fn elections_stay()
    ensures { (view : List ℕ) (steps : List Step) (step : Step) → IsRun view (step ∷ steps) → Stays (state_after view steps).objects.ledger (state_after view (step ∷ steps)).objects.ledger }
{}
