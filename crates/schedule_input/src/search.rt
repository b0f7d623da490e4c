ghost use Rattle.std.specs.Prelude.{◌≡◌, if◌then◌else◌, None, Some, MatchOption, find};
ghost use Rattle.ens_base.specs.PeerSet.{holds};
ghost use Rattle.schedule_text.specs.Forms.{is_sealed};
ghost use Rattle.schedule_text.specs.Spelling.{IsSchedule};
ghost use Rattle.schedule_input.specs.Premise.{changed_views, fails as fails_premise, first_unsound, is_reverted, views_named, views_of_line};

use crate::reverts::reverted_peers;
use ens_base::{PeerId, PeerSet, View};
use schedule_text::{Schedule, ScheduleEvent};

/// A view that fails the premise, and the peers that the schedule reverts.
#[derive(Clone, Copy, Debug, PartialEq, Eq)]
pub struct Unsound {
    /// The view: at least half of its members are reverted.
    pub view: View,
    /// All peers of lines `revert`, members of the view or not.
    pub reverted: PeerSet,
}

/// Returns whether at least half of the members of the view are reverted.
fn fails(reverted: &PeerSet, view: &View) -> bool
    ensures { result ≡ fails_premise (holds reverted.now) view.now }
{
    let members = view.members();
    let kept = members
        .iter()
        .filter(|m| !reverted.has(PeerId(u32::from(**m))))
        .count();
    kept <= members.len() / 2
}

/// Returns the view that an event asks for, if that view fails the premise.
fn failing_change(reverted: &PeerSet, event: &ScheduleEvent) -> Option<View>
    ensures { result ≡ find (fails_premise (holds reverted.now)) (views_of_line event.now) }
{
    match event {
        ScheduleEvent::Change { view, .. } => {
            if fails(reverted, view) {
                Some(*view)
            } else {
                None
            }
        }
        _ => None,
    }
}

/// Returns the first view that an event asks for and that fails the premise.
fn first_failing(reverted: &PeerSet, events: &[ScheduleEvent]) -> Option<View>
    ensures { result ≡ find (fails_premise (holds reverted.now)) (changed_views events.now) }
{
    for event in events {
        if let Some(view) = failing_change(reverted, event) {
            return Some(view);
        }
    }
    None
}

/// Returns the first view that the schedule names and that fails the premise, which is asked of form 1
/// alone.
fn first_named(reverted: &PeerSet, schedule: &Schedule) -> Option<View>
    ensures { result ≡ (if is_sealed schedule.now.form then None else find (fails_premise (holds reverted.now)) (views_named schedule.now)) }
{
    if schedule.form.is_sealed() {
        return None;
    }
    if fails(reverted, &schedule.view) {
        return Some(schedule.view);
    }
    first_failing(reverted, schedule.events.as_slice())
}

/// Returns the first view that a schedule of form 1 names and at least half of whose members stand in
/// a line `revert`, or `None` if there is none. The views are those of the third line and of the lines
/// `change`, in the order of their lines. In the other forms every peer has a seal, so the premise is
/// asked of no view, and the answer is `None`.
pub fn premise(schedule: &Schedule) -> Option<Unsound>
    requires { IsSchedule schedule.now }
    ensures view { MatchOption result (first_unsound schedule.now ≡ None) (λ u. first_unsound schedule.now ≡ Some u.view) }
    ensures reverted { MatchOption result (Unit {0}) (λ u. holds u.reverted ≡ is_reverted schedule.now.events) }
{
    let reverted = reverted_peers(schedule.events.as_slice());
    match first_named(&reverted, schedule) {
        Some(view) => Some(Unsound { view, reverted }),
        None => None,
    }
}
