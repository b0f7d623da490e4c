ghost use Rattle.std.specs.Prelude.{◌≡◌, ◌≤◌, ◌||◌, ℕ};
ghost use Rattle.ens_base.specs.PeerSet.{holds};
ghost use Rattle.schedule_text.specs.Spelling.{MayStand, AllMayStand};
ghost use Rattle.schedule_input.specs.Premise.{is_reverted, reverts};

use ens_base::PeerSet;
use schedule_text::ScheduleEvent;

/// Adds the peer that an event reverts, if it reverts one.
fn note_revert(reverted: &mut PeerSet, event: &ScheduleEvent)
    requires { (peers : ℕ) × (peers ≤ 31) × MayStand peers event.now }
    ensures { (p : ℕ) → holds reverted.new p ≡ (reverts p event.now || holds reverted.old p) }
{
    if let ScheduleEvent::Revert { peer, .. } = event {
        reverted.insert(*peer);
    }
}

/// Returns the peers that some event reverts.
pub(crate) fn reverted_peers(events: &[ScheduleEvent]) -> PeerSet
    requires { (peers : ℕ) × (peers ≤ 31) × AllMayStand peers events.now }
    ensures { (p : ℕ) → holds result p ≡ is_reverted events.now p }
{
    let mut reverted = PeerSet::empty();
    for event in events {
        note_revert(&mut reverted, event);
    }
    reverted
}
