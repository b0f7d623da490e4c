ghost use Rattle.std.specs.Prelude.{ℕ, List};
ghost use Rattle.register_model.specs.Histories.{IsLegal};
ghost use Rattle.register_model.specs.Orders.{order};
ghost use Rattle.protocol_laws.specs.Protocol.{Step, IsRun, state_after};

/// In each run, for each key, the order that follows from the notes is a legal history of the calls
/// and the answers. It has each completed call once, no refused call, and every other call at most
/// once. It is a run of one register with the given answers. No call that began after a completed
/// call was answered comes before it.
pub fn histories_are_legal()
    ensures { (view : List ℕ) (steps : List Step) (key : List ℕ) → IsRun view steps
        → IsLegal (state_after view steps).book.calls (state_after view steps).book.answers key
        (order (state_after view steps).book.notes key) }
{}
