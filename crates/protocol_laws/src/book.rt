ghost use Rattle.std.specs.Prelude.{ℕ, List, ◌∷◌};
ghost use Rattle.protocol_laws.specs.Protocol.{State, Step, IsRun, state_after, after, MayAll};
ghost use Rattle.protocol_laws.specs.Entries.{EntriesAreSafe};
ghost use Rattle.protocol_laws.specs.Stays.{EntriesStay, Later};

/// In each run the object of a write is the outcome of its command on its parent's register, and
/// the object of a rewrite is its parent's. A call has at most one write or one noted read. A noted
/// read saw the greatest version of its epoch, which is settled, or none, in which case each
/// version of a lower epoch is dead. A completed answer comes from a settled write or a noted read,
/// and a refused call has neither.
pub fn entries_are_safe()
    ensures { (view : List ℕ) (steps : List Step) → IsRun view steps → EntriesAreSafe (state_after view steps) }
{}

/// From one state of a run to each later one versions and calls keep what was recorded of them. What
/// a step adds carries the current event: a new version is dead if a greater epoch is elected, and a
/// call is open until it is written or its read is noted.
pub fn entries_stay()
    ensures stay { (s : State) (steps : List Step) → MayAll s steps → EntriesStay s (after s steps) }
    ensures later { (view : List ℕ) (steps : List Step) (step : Step) → IsRun view (step ∷ steps) → Later (state_after view steps) (state_after view (step ∷ steps)) }
{}
