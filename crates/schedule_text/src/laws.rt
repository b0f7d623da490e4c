ghost use Rattle.std.specs.Prelude.{◌≡◌, ◌↔◌, ◌++◌, ℕ, List, true};
ghost use Rattle.schedule_text.specs.Starts.{has_sealing, HasSealing};
ghost use Rattle.schedule_text.specs.declared.event.ScheduleEvent.{ScheduleEvent};
ghost use Rattle.schedule_text.specs.declared.form.Form.{Form};

/// A start of a peer has sealing on exactly in the forms 2 and 3, and behind a line `upgrade` of the
/// peer. Each later start of the peer has it on too.
pub fn sealed_starts()
    ensures exact { (form : Form) (before : List ScheduleEvent) (p : ℕ) → ((has_sealing form before p ≡ true) ↔ HasSealing form before p) }
    ensures later { (form : Form) (before more : List ScheduleEvent) (p : ℕ) → has_sealing form before p ≡ true → has_sealing form (before ++ more) p ≡ true }
{}
