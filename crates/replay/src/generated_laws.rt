ghost use Rattle.std.specs.Prelude.{◌≡◌, ◌<◌, ℕ};
ghost use Rattle.replay.specs.CalmLaws.{IsUndisturbed, RunsUndisturbed};
ghost use Rattle.replay.specs.WorldSpec.{HasNoClash};
ghost use Rattle.replay.specs.Jobs.{hashed_by};
ghost use Rattle.replay.specs.Summary.{StaysWithin, call_count};
ghost use Rattle.schedule_generator.specs.Generated.{generate};
ghost use Rattle.schedule_text.specs.declared.schedule.Schedule.{Schedule};
ghost use Rattle.replay.specs.Completed.{CompletesAll};

/// Of the calls of an undisturbed run the summary counts each as completed, none as refused, and none
/// as neither.
pub fn undisturbed_runs_are_counted_as_done()
    ensures { (s : Schedule) → RunsUndisturbed s → CompletesAll s }
{}

/// Nothing disturbs a schedule that is generated for fewer than 500 calls: peer 1 leads from the first
/// calm on, and each of the calls is made at it.
pub fn short_generated_schedules_are_undisturbed()
    ensures { (number calls : ℕ) → calls < 500 → IsUndisturbed (generate number calls) }
{}

/// If no two different strings of the run of such a schedule have the same MD5, and it stays within the
/// limit on messages, the counts of its summary are those of a run in which each of the calls was
/// completed.
pub fn short_generated_runs_complete_every_call()
    ensures calls { (number calls : ℕ) → call_count (generate number calls) ≡ calls }
    ensures completed { (number calls : ℕ) → calls < 500 → StaysWithin (generate number calls) → HasNoClash (hashed_by (generate number calls)) → CompletesAll (generate number calls) }
{}
