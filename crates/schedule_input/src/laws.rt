ghost use Rattle.std.specs.Prelude.{◌≡◌, ◌↔◌, ℕ, Bool, true, List, None, Some};
ghost use Rattle.quorums.specs.Quorums.{is_majority};
ghost use Rattle.schedule_text.specs.Spelling.{IsSchedule};
ghost use Rattle.schedule_text.specs.declared.form.Form.TheVariants.{One};
ghost use Rattle.schedule_text.specs.declared.schedule.Schedule.{Schedule};
ghost use Rattle.schedule_input.specs.Premise.{first_unsound, is_firm};
ghost use Rattle.schedule_input.specs.Sound.{FailsFirst, HasKept, IsNamed, IsReverted, IsSound};

/// No view is found exactly in the schedules of the forms 2 and 3, and in those each of whose views
/// has a majority without reverted peers. A view is found exactly if it is the first that has none, in
/// form 1. In a sound schedule of form 1 every majority of a named view has a peer that is not
/// reverted. In each sound schedule a majority of a named view has seals or is not reverted. A
/// schedule that reverts nobody is sound.
pub fn sound_schedules()
    ensures sound { (s : Schedule) → ((first_unsound s ≡ None) ↔ IsSound s) }
    ensures first { (s : Schedule) (view : List ℕ) → ((first_unsound s ≡ Some view) ↔ FailsFirst s view) }
    ensures majority { (s : Schedule) (view : List ℕ) (peers : ℕ → Bool) → s.form ≡ One → IsSound s → IsNamed s view → is_majority peers view ≡ true → HasKept s peers view }
    ensures firm { (s : Schedule) (view : List ℕ) → IsSchedule s → IsSound s → IsNamed s view → is_majority (is_firm s.form s.events) view ≡ true }
    ensures unreverted { (s : Schedule) → IsSchedule s → ((p : ℕ) → ¬ IsReverted s p) → first_unsound s ≡ None }
{}
