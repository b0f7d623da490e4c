ghost use Rattle.std.specs.Prelude.{◌≡◌};
ghost use Rattle.phase_rows.specs.Orders.{is_below as below, is_same as same, is_newer as newer, may_accept as may};

use quorums::is_in;
use wire_frames::{Epoch, Fact, PeerId};

/// Returns whether the first epoch is below the second: by count, then by proposer.
pub fn is_below(a: Epoch, b: Epoch) -> bool
    ensures { result ≡ below a b }
{
    a.count < b.count || (a.count == b.count && a.proposer < b.proposer)
}

/// Returns whether two epochs are equal.
pub fn is_same(a: Epoch, b: Epoch) -> bool
    ensures { result ≡ same a b }
{
    a == b
}

/// Returns whether the first fact is newer than the second: by epoch, then by sequence number.
pub fn is_newer(first: &Fact, second: &Fact) -> bool
    ensures { result ≡ newer first.now second.now }
{
    is_below(second.epoch, first.epoch) || (second.epoch == first.epoch && second.seq < first.seq)
}

/// Returns whether the peer may accept the fact: if it trusts its tree, and is not a member of the
/// new view of a joint epoch. Such a member accepts at the end of a sync.
pub fn may_accept(trusted: bool, me: PeerId, new: &Fact) -> bool
    ensures { result ≡ may trusted me new.now }
{
    match new.views.second() {
        None => trusted,
        Some(_old) => trusted && !is_in(&new.views.first(), me),
    }
}
