ghost use Rattle.std.specs.Prelude.{◌≡◌, ℕ, Bool};
ghost use Rattle.peer_spec.specs.Drives.{step_of};
ghost use Rattle.peer_state.specs.Moves.{saved_by};
ghost use Rattle.peer_state.specs.declared.event.Event.{Event};
ghost use Rattle.peer_state.specs.declared.state.State.{State};
ghost use Rattle.peer_turns.specs.Ends.{AllFrom, AllTo, ComesFrom, EndsIn, calls_in};

/// A step answers the callers of the calls that were unanswered before it, and the caller of its
/// event, and nobody else: whatever is true of these callers is true of each that it answers, and of
/// each whose call is unanswered at its end.
pub fn answers_go_to_callers()
    ensures { (test : ℕ → Bool) (me : ℕ) (event : Event) (x : State) → ComesFrom test event
        → AllFrom test (calls_in x.phase)
        → EndsIn (λ last y out. AllTo test out.answers
        × AllFrom test (calls_in y.phase)) (saved_by x) (step_of me event x) }
{}

/// At the end of a step the fact of the state and its seal are those that were saved last, or those
/// from before if none were saved.
pub fn the_saved_fact_stands()
    ensures { (me : ℕ) (event : Event) (x : State) → EndsIn (λ last y out. saved_by y ≡ last) (saved_by x) (step_of me event x) }
{}
