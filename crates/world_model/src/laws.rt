ghost use Rattle.std.specs.Prelude.{◌≡◌};
ghost use Rattle.schedule_text.specs.declared.event.ScheduleEvent.{ScheduleEvent};
ghost use Rattle.world_spec.specs.Lines.{effect};
ghost use Rattle.world_spec.specs.Runs.{Run};
ghost use Rattle.world_model.specs.Turns.{after_turns, turn, turns_of};

/// The turns of a line, one after another, have the effect of the line.
pub fn lines_are_their_turns()
    ensures { (event : ScheduleEvent) (w : Run) → after_turns (turns_of event) (turn event) w ≡ effect event w }
{}
