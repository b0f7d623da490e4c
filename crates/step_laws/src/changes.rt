ghost use Rattle.std.specs.Prelude.{◌≡◌, ◌↔◌, ◌∷◌, [], ℕ, Bool, true, List};
ghost use Rattle.peer_spec.specs.Drives.{step_of};
ghost use Rattle.peer_spec.specs.Kept.{IsStepCall};
ghost use Rattle.peer_state.specs.declared.event.Event.TheVariants as events;
ghost use Rattle.peer_state.specs.declared.state.State.{State};
ghost use Rattle.step_laws.specs.Changing.{TakesChange};
ghost use Rattle.step_plans.specs.Plans.{Follows};

/// A step on a request to change the view replies once, whatever the stores answer: that the request is
/// taken exactly if the peer leads and has begun no change, its epoch has one view, and the view asked for
/// is another one.
pub fn changes_are_taken_exactly()
    ensures { (me : ℕ) (view : List ℕ) (x : State)
        → Follows IsStepCall (λ y out. (taken : Bool) × (out.changes ≡ taken ∷ [])
        × ((taken ≡ true) ↔ TakesChange view x)) (step_of me (events.Change view) x) }
{}
