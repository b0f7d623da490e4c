ghost use Rattle.std.specs.Prelude.{◌<◌, ◌≤◌, ◌^◌, ℕ, List, length};
ghost use Rattle.protocol_laws.specs.Protocol.{Step, IsRun, state_after};
ghost use Rattle.ens_base.specs.Lists.{AreDistinct};
ghost use Rattle.ens_base.specs.View.{IsView};
ghost use Rattle.peer_refinement.specs.WorldSpec.{HasNoClash};
ghost use Rattle.history_scribe.specs.Histories.{AreHistories};
ghost use Rattle.register_model.specs.declared.history.History.{History};
ghost use Rattle.schedule_text.specs.Spelling.{AllMayStand, call_ids};
ghost use Rattle.schedule_text.specs.declared.event.ScheduleEvent.{ScheduleEvent};
ghost use Rattle.schedule_text.specs.declared.form.Form.{Form};
ghost use Rattle.role_laws.specs.Facts.{AreFirm};
ghost use Rattle.world_spec.specs.Lines.{run_of_schedule};
ghost use Rattle.world_refinement.specs.Causes.{HaveCauses};
ghost use Rattle.step_refinement.specs.Keys.{KeysAreCalled, KeysAreFew, IdsAreFew, CallsAreFew};
ghost use Rattle.world_refinement.specs.Lines.{AreLegal, lines_of};
ghost use Rattle.world_refinement.specs.Worlds.{HasRun};

/// The world after a schedule agrees with a run of the abstract protocol, in its peers, its messages
/// and its notes, if no two different strings that it hashed have the same MD5, and, in a schedule of
/// form 1, of each view that it names more than half of the members are never reverted. In the other
/// forms every peer has a seal, and nothing is asked of the lines that revert trees.
pub fn schedules_refine_the_protocol()
    ensures { (form : Form) (peers : ℕ) (view : List ℕ) (events : List ScheduleEvent) → peers ≤ 31 → IsView view
        → length events < 2 ^ 32 → AreFirm (lines_of form view events) → AllMayStand peers events
        → AreDistinct (call_ids events) → HasNoClash (run_of_schedule form peers view events).hashed
        → HasRun (lines_of form view events) view (run_of_schedule form peers view events).hashed
        (run_of_schedule form peers view events) }
{}

/// So the histories that its notes give are legal, for the calls of the schedule and the answers
/// printed.
pub fn schedules_have_legal_histories()
    ensures { (form : Form) (peers : ℕ) (view : List ℕ) (events : List ScheduleEvent) → peers ≤ 31 → IsView view
        → length events < 2 ^ 32 → AreFirm (lines_of form view events) → AllMayStand peers events
        → AreDistinct (call_ids events) → HasNoClash (run_of_schedule form peers view events).hashed
        → (histories : List History)
        → AreHistories (run_of_schedule form peers view events).notes
        (run_of_schedule form peers view events).called histories
        → AreLegal events (run_of_schedule form peers view events).printed histories }
{}

/// Each answer printed is to a call of the schedule and has its cause in the notes, and no call is
/// answered twice. `ok` is answered only if a version was proposed for the call and settled, under
/// this stamp; any other completed reply only if a read of the call was noted, on no version or on a
/// settled one, and if it is what the command returns on the register that this version stands for;
/// and for a refused call no version was proposed and no read was noted. The notes name calls of the
/// schedule alone.
pub fn answers_have_causes()
    ensures { (form : Form) (peers : ℕ) (view : List ℕ) (events : List ScheduleEvent) → peers ≤ 31 → IsView view
        → length events < 2 ^ 32 → AreFirm (lines_of form view events) → AllMayStand peers events
        → AreDistinct (call_ids events) → HasNoClash (run_of_schedule form peers view events).hashed
        → HaveCauses events (run_of_schedule form peers view events).printed (run_of_schedule form peers view events).notes }
{}

/// In each run of the abstract protocol some call is on the key of each proposed version. So there are
/// no more keys of versions than calls, no more ids than calls, and no more calls than events.
pub fn keys_are_called()
    ensures called { (view : List ℕ) (steps : List Step) → IsRun view steps → KeysAreCalled (state_after view steps) }
    ensures keys { (view : List ℕ) (steps : List Step) → IsRun view steps → KeysAreFew (state_after view steps) }
    ensures ids { (view : List ℕ) (steps : List Step) → IsRun view steps → IdsAreFew (state_after view steps) }
    ensures events { (view : List ℕ) (steps : List Step) → IsRun view steps → CallsAreFew (state_after view steps) }
{}
