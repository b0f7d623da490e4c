ghost use Rattle.std.specs.Prelude.{◌≡◌, true, []};
ghost use Rattle.tree_node.specs.Entries.{AreAbove};
ghost use Rattle.peer_spec.specs.Starts.{first_state as first, is_whole as is_whole_scan};

use peer_state::{Mode, Phase, State, is_clean};
use stored_formats::SavedFact;
use tree_node::Scan;
use tree_repair::ascends;

/// The state in which a peer starts in this mode from what was saved: it follows.
pub fn first_state(mode: Mode, saved: SavedFact, trusted: bool) -> State
    ensures { result ≡ first mode saved trusted }
{
    State {
        fact: saved.fact,
        seal: saved.seal,
        mode,
        trusted,
        phase: Phase::follower(),
        sync: None,
    }
}

/// Whether a scan found no damage, and no key twice. Then a tree can be built from its entries.
pub fn is_whole(scan: &Scan) -> bool
    ensures is { result ≡ is_whole_scan scan.now }
    ensures above { result ≡ true → AreAbove [] scan.now.entries }
{
    is_clean(scan) && ascends(scan.entries.as_slice())
}
