ghost use Rattle.std.specs.Prelude.{◌≡◌, ◌≤◌, ◌+◌, ◌*◌, ◌/◌, ℕ, [], ◌∷◌, Ok, length};
ghost use Rattle.std.specs.List.{range_with_len};
ghost use Rattle.ens_base.specs.Lists.{◌∈◌};
ghost use Rattle.schedule_text.specs.Reading.{schedule_of};
ghost use Rattle.schedule_text.specs.Spelling.{IsSchedule, call_ids, schedule_text};
ghost use Rattle.schedule_text.specs.declared.event.ScheduleEvent.TheVariants.{Revert};
ghost use Rattle.schedule_text.specs.declared.form.Form.TheVariants.{One};
ghost use Rattle.schedule_generator.specs.Generated.{generate};

/// What is generated for up to 20,000 calls is a schedule, and its text is read as it. It is of form 1 and has five peers, all
/// of them in the opening view. Its calls have the ids from 1 on, in order. It has two events for each call, five
/// more for each 500 calls, and two in front of them. No event reverts a peer.
#[tactic(auto, unfolding(crate::specs::Generated::generate))]
pub fn generated_schedules()
    ensures schedule { (number calls : ℕ) → calls ≤ 20000 → IsSchedule (generate number calls) }
    ensures again { (number calls : ℕ) → calls ≤ 20000 → schedule_of (schedule_text (generate number calls)) ≡ Ok (generate number calls) }
    ensures form { (number calls : ℕ) → (generate number calls).form ≡ One }
    ensures peers { (number calls : ℕ) → (generate number calls).peers ≡ 5 }
    ensures view { (number calls : ℕ) → (generate number calls).view ≡ 1 ∷ 2 ∷ 3 ∷ 4 ∷ 5 ∷ [] }
    ensures ids { (number calls : ℕ) → call_ids (generate number calls).events ≡ range_with_len 1 calls }
    ensures events { (number calls : ℕ) → length (generate number calls).events ≡ 2 + 2 * calls + 5 * (calls / 500) }
    ensures forward { (number calls peer changes : ℕ) → ¬ (Revert peer changes ∈ (generate number calls).events) }
{}
