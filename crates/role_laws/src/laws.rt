ghost use Rattle.std.specs.Prelude.{ℕ, List};
ghost use Rattle.protocol_laws.specs.Protocol.{Step, IsRun, state_after};
ghost use Rattle.role_laws.specs.Kept.{Names};
ghost use Rattle.role_laws.specs.SealLaws.{PutsRefine, EndsRefine, StopsRefine, FullViewsSuffice};

/// In each state of a run the puts of a peer, the ends of its syncs, its stops and its starts are
/// steps of the protocol, whichever of their writes is refused, with a seal and without one; and a
/// peer with a seal is never reverted.
pub fn sealed_peers_refine()
    ensures puts { (names : Names) (view : List ℕ) (steps : List Step) (q : ℕ) → IsRun view steps → PutsRefine names (state_after view steps) q }
    ensures ends { (names : Names) (view : List ℕ) (steps : List Step) (q : ℕ) → IsRun view steps → EndsRefine names (state_after view steps) q }
    ensures stops { (names : Names) (view : List ℕ) (steps : List Step) (q : ℕ) → IsRun view steps → StopsRefine names (state_after view steps) q }
{}

/// In each state of a run in which no tree was reverted, a sync may end once all of the old view have
/// finished.
pub fn full_views_suffice()
    ensures { (view : List ℕ) (steps : List Step) → IsRun view steps → FullViewsSuffice (state_after view steps) }
{}
