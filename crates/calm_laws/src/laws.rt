ghost use Rattle.std.specs.Prelude.{◌≡◌, List};
ghost use Rattle.register_model.specs.Served.{AreServed, ids_on};
ghost use Rattle.world_refinement.specs.Lines.{answers_in, calls_from};
ghost use Rattle.ens_base.specs.Lists.{◌∈◌};
ghost use Rattle.history_scribe.specs.Histories.{AreHistories};
ghost use Rattle.register_model.specs.declared.history.History.{History};
ghost use Rattle.schedule_text.specs.declared.schedule.Schedule.{Schedule};
ghost use Rattle.calm_laws.specs.Calm.{RunsUndisturbed, run_of};

/// In the run of an undisturbed schedule each call is completed before the next one begins, in the
/// order of their lines: none is refused, times out or stays without an answer. So each history has
/// the calls on its key in the order of their lines.
pub fn undisturbed_runs_complete_every_call()
    ensures completed { (s : Schedule) → RunsUndisturbed s → AreServed (calls_from 1 s.events) (answers_in (run_of s).printed) }
    ensures ordered { (s : Schedule) → RunsUndisturbed s → (histories : List History)
        → AreHistories (run_of s).notes (run_of s).called histories → (h : History) → h ∈ histories
        → h.calls ≡ ids_on h.key (calls_from 1 s.events) }
{}
