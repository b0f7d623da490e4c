ghost use Rattle.std.specs.Prelude.{◌≡◌, ℕ, List, None, Some};
ghost use Rattle.ens_base.specs.declared.status.Status.{Status};
ghost use Rattle.schedule_input.specs.Premise.{first_unsound};
ghost use Rattle.schedule_text.specs.Spelling.{IsSchedule, schedule_text};
ghost use Rattle.schedule_text.specs.declared.schedule.Schedule.{Schedule};
ghost use Rattle.world_model.specs.WorldSpec.{Run};
ghost use Rattle.replay.specs.Jobs.{EndsInRun, Prints};
ghost use Rattle.replay.specs.Text.{IsTextOfRun};

/// A run has one text.
pub fn a_run_has_one_text()
    ensures { (run : Run) (first second : List ℕ) → IsTextOfRun run first → IsTextOfRun run second → first ≡ second }
{}

/// The text of a schedule is read as the schedule. So a replay of the text of a sound schedule prints
/// the text of its run, or ends with a clash of its strings or at a limit, unless the input fails or
/// memory runs out.
pub fn a_text_is_replayed()
    ensures { (s : Schedule) (status : Status) (text : List ℕ) → IsSchedule s → first_unsound s ≡ None → Prints (Some (schedule_text s)) status text → EndsInRun s status text }
{}
