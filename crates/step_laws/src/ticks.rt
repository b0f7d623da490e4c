ghost use Rattle.std.specs.Prelude.{◌≡◌, ◌↔◌, [], ℕ, None, false};
ghost use Rattle.leader.specs.Ticks.{row_5_rest};
ghost use Rattle.leader.specs.declared.leader.Leader.{Leader};
ghost use Rattle.stored_formats.specs.declared.fact.Change.{Change};
ghost use Rattle.stored_formats.specs.declared.fact.Change.TheVariants.{Drop};
ghost use Rattle.stored_formats.specs.declared.fact.Fact.{Fact};
ghost use Rattle.peer_spec.specs.Drives.{step_of};
ghost use Rattle.peer_spec.specs.Kept.{IsStepCall};
ghost use Rattle.peer_state.specs.Leading.{wished, begins};
ghost use Rattle.peer_state.specs.declared.event.Event.TheVariants as events;
ghost use Rattle.peer_state.specs.declared.state.ChangeState.{ChangeState};
ghost use Rattle.peer_state.specs.declared.state.ChangeState.TheVariants.{Settled, Wanted};
ghost use Rattle.peer_state.specs.declared.state.Leadership.{Leadership};
ghost use Rattle.peer_state.specs.declared.state.Phase.TheVariants as phases;
ghost use Rattle.peer_state.specs.declared.state.State.{State};
ghost use Rattle.phase_rows.specs.declared.phase.Then.TheVariants.{Rule};
ghost use Rattle.phase_rows.specs.declared.rules.PhaseRule.TheVariants.{BeginChange};
ghost use Rattle.step_laws.specs.Answering.{HasBegun, stops_by_age};
ghost use Rattle.step_laws.specs.Changing.{HasTwoViews};
ghost use Rattle.step_laws.specs.Telling.{BeginsChange, HasNoneDue, SendsFirst, tick_messages};
ghost use Rattle.step_plans.specs.Plans.{Done, Follows};

/// In a tick a leader that has begun no change asks for its old view to be dropped exactly if its epoch has
/// two views. A change that has begun stays as it is, and one that is asked for begins.
pub fn old_views_are_dropped()
    ensures dropped { (first : Fact) → (wished first Settled ≡ Wanted Drop) ↔ HasTwoViews first.views }
    ensures kept { (first : Fact) → ¬ HasTwoViews first.views → wished first Settled ≡ Settled }
    ensures begun { (first : Fact) (change : ChangeState) → HasBegun change → wished first change ≡ change }
    ensures begins { (change : Change) → begins (Wanted change) ≡ Rule BeginChange }
{}

/// A tick of a leader without calls, whose epoch has one view and which has begun no change, sends the
/// messages of a tick, of which `a_tick_tells_each_member` of `step_laws` speaks, and does nothing else:
/// it asks no store, answers nobody and leaves the state as it was.
pub fn a_tick_without_calls_reminds()
    ensures { (me : ℕ) (leader : Leader) (x : State)
        → x.phase ≡ phases.Leading (record { leader = leader; change = Settled }) → leader.table.calls ≡ []
        → ¬ HasTwoViews leader.fact.views
        → step_of me events.Tick x
        ≡ Done x (record { sends = (row_5_rest None x.fact leader).sends; answers = []; changes = [] }) }
{}

/// A tick of a leader that does not stop by age, and of whose calls none is due, sends the messages of a
/// tick first, whatever calls wait and whatever the stores answer. If a change is wanted, as it is too where
/// the old view is to be dropped ([`old_views_are_dropped`]), it begins: the second fact of the epoch is
/// saved, and each other peer that accepted the epoch is asked to accept that fact.
pub fn a_tick_reminds_and_begins_the_change()
    ensures reminds { (me : ℕ) (l : Leadership) (x : State) → x.phase ≡ phases.Leading l → stops_by_age l ≡ false
        → HasNoneDue l → Follows IsStepCall (λ y out. SendsFirst (tick_messages x.fact l) out)
        (step_of me events.Tick x) }
    ensures begins { (me : ℕ) (l : Leadership) (x : State) → x.phase ≡ phases.Leading l → stops_by_age l ≡ false
        → HasNoneDue l → (change : Change) → wished l.leader.fact l.change ≡ Wanted change
        → BeginsChange me l change x (step_of me events.Tick x) }
{}
