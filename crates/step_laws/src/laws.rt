ghost use Rattle.std.specs.Prelude.{◌≤◌, ◌<◌, ◌^◌, ℕ, Bool, List, ◌∷◌, length};
ghost use Rattle.stored_formats.specs.declared.saved.SavedFact.{SavedFact};
ghost use Rattle.peer_spec.specs.Turns.{StepsAlone};
ghost use Rattle.peer_state.specs.declared.event.Event.{Event};
ghost use Rattle.peer_state.specs.declared.state.Mode.{Mode};
ghost use Rattle.peer_state.specs.declared.state.State.{State};
ghost use Rattle.step_laws.specs.Limits.{step_or};
ghost use Rattle.step_laws.specs.Reached.{Reached, calls_among, unanswered};
ghost use Rattle.step_laws.specs.Resting.{IsResting, LeadsWhole};
ghost use Rattle.step_plans.specs.Plans.{Rest};
ghost use Rattle.step_plans.specs.declared.tasks.Task.{Task};

/// Between its steps a peer has no more calls unanswered than came to it since it started.
pub fn unanswered_calls_came()
    ensures { (me : ℕ) (mode : Mode) (saved : SavedFact) (trusted : Bool) (events : List Event) (x : State)
        → Reached me mode saved trusted events x → length (unanswered x.phase) ≤ calls_among events }
{}

/// No task is left when the turns of a loop end, in any step of a peer that started, if fewer than
/// 2^60 calls came to it since then: whatever were done with a task that is left, and whatever the
/// stores answer, the step makes no call but those of a step.
pub fn no_task_is_left()
    ensures { (other : Rest State (List Task)) (me : ℕ) (mode : Mode) (saved : SavedFact) (trusted : Bool)
        (event : Event) (events : List Event) (x : State) → Reached me mode saved trusted events x
        → calls_among (event ∷ events) < 2 ^ 60 → StepsAlone (step_or other me event x) }
{}

/// Between its steps a peer that started is at rest, if fewer than 2^60 calls came to it since then: a
/// leader has no task at hand, and asks nothing about a key without a call.
pub fn peers_rest_between_steps()
    ensures { (me : ℕ) (mode : Mode) (saved : SavedFact) (trusted : Bool) (events : List Event) (x : State) → Reached me mode saved trusted events x → calls_among events < 2 ^ 60 → IsResting x.phase }
{}

/// Between its steps the table of a leader is whole, if fewer than 2^60 calls came to the peer since it
/// started. So the laws of `step_laws` on rounds hold of each leader that a peer may be.
pub fn tables_are_whole_between_steps()
    ensures { (me : ℕ) (mode : Mode) (saved : SavedFact) (trusted : Bool) (events : List Event) (x : State)
        → Reached me mode saved trusted events x → calls_among events < 2 ^ 60 → LeadsWhole x.phase }
{}
