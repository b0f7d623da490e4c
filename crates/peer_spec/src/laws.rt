ghost use Rattle.std.specs.Prelude.{ℕ, List};
ghost use Rattle.ens_base.specs.View.{IsPeer};
ghost use Rattle.phase_rows.specs.declared.rules.PhaseRule.TheVariants.{EndEpoch};
ghost use Rattle.step_plans.specs.Plans.{Out, Rest};
ghost use Rattle.step_plans.specs.declared.tasks.Task.{Task};
ghost use Rattle.step_plans.specs.declared.tasks.Task.TheVariants.{Phase};
ghost use Rattle.peer_spec.specs.Drives.{first, task_done, driven, most_turns, step_of, MayCome};
ghost use Rattle.peer_spec.specs.Kept.{AllMayGo, IsOwn, Reaches};
ghost use Rattle.peer_spec.specs.Turns.{StepsAlone, IsFineAtNone, HasFewCalls};
ghost use Rattle.peer_state.specs.declared.event.Event.{Event};
ghost use Rattle.peer_state.specs.declared.state.State.{State};

/// The limit on the tasks of a step is enough: whatever the stores answer, no task is left at its
/// end, if fewer than 2^60 calls are unanswered.
pub fn nothing_is_left()
    // After the row of the event.
    ensures responded { (me : ℕ) (event : Event) (x : State) (out : Out) (next : Rest State (List Task))
        → HasFewCalls x.phase → IsFineAtNone next
        → StepsAlone (first me event x out (λ ts y o. driven me most_turns ts y o next)) }
    // After rule 26, at the end of the step.
    ensures concluded { (me : ℕ) (x : State) (out : Out) (next : Rest State (List Task)) → HasFewCalls x.phase
        → IsFineAtNone next → StepsAlone
        (task_done me (Phase EndEpoch) x out (λ ts y o. driven me most_turns ts y o next)) }
{}

/// As long as the damage that the stores report is at positions of the tree, the messages of a step
/// go to other peers and obey the grammar of frames, a leader sends as the peer itself, and a sync asks
/// other peers alone.
pub fn messages_may_go()
    ensures sends { (me : ℕ) (event : Event) (x : State) → IsPeer me → MayCome me event → IsOwn me x → Reaches (λ y out. AllMayGo me out) (step_of me event x) }
    ensures own { (me : ℕ) (event : Event) (x : State) → IsPeer me → MayCome me event → IsOwn me x → Reaches (λ y out. IsOwn me y) (step_of me event x) }
{}
