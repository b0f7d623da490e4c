ghost use Rattle.std.specs.Prelude.{ℕ, List, ◌∷◌};
ghost use Rattle.protocol_laws.specs.Protocol.{Step, IsRun, state_after};
ghost use Rattle.protocol_laws.specs.Versions.{VersionsAreSafe, VersionsStay};

/// In each run a peer that acknowledged a version, or ended a sync above its epoch, keeps it or a
/// greater one, unless the version is dead. Each majority of an epoch's old view that reached the
/// epoch has a peer that has had each living lower version since then. A version descends from each
/// living version of its key of a lower epoch, and from each smaller one of its own epoch, all of
/// which are settled. Maps hold proposed versions of their keys. A peer that trusts its tree, or
/// whose tree was never reverted, shows the map that it wrote last.
pub fn versions_are_safe()
    ensures { (view : List ℕ) (steps : List Step) → IsRun view steps → VersionsAreSafe (state_after view steps).objects }
{}

/// From one state of a run to the next a floor does not rise once its ballot is reached, a dead
/// version stays dead, and a version keeps its key, its parent, its acknowledgements and those by
/// which it was settled. So what a message said of these stays true.
pub fn versions_stay()
    ensures { (view : List ℕ) (steps : List Step) (step : Step) → IsRun view (step ∷ steps) → VersionsStay (state_after view steps).objects (state_after view (step ∷ steps)).objects }
{}
