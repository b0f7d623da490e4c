ghost use Rattle.std.specs.Prelude.{◌≡◌, ◌≤◌, ℕ, List, Some};
ghost use Rattle.ens_base.specs.declared.status.Status.{Status};
ghost use Rattle.schedule_generator.specs.Generated.{generate};
ghost use Rattle.schedule_text.specs.Spelling.{schedule_text};
ghost use Rattle.root.specs.ReplayJob.{EndsInRun, Prints, summary_text, schedule_run};
ghost use Rattle.ensemble.specs.Top.{PrintsSummary};

/// A replay of the text of a generated schedule prints the text of its run, or ends with a clash of
/// its strings or at a limit, unless the input fails or memory runs out. The summary of the schedule is that of this
/// run, with the MD5 of this text.
pub fn a_generated_text_is_replayed()
    ensures replay { (number calls : ℕ) (status : Status) (text : List ℕ) → calls ≤ 20000
        → Prints (Some (schedule_text (generate number calls))) status text
        → EndsInRun (generate number calls) status text }
    ensures summary { (number calls : ℕ) (summary text : List ℕ) → calls ≤ 20000
        → PrintsSummary number calls Status.Done summary
        → Prints (Some (schedule_text (generate number calls))) Status.Done text
        → summary ≡ summary_text (generate number calls) (schedule_run (generate number calls)).printed text }
{}
