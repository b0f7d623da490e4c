ghost use Rattle.std.specs.Prelude.{◌≡◌, true, false, []};
ghost use Rattle.tree_node.specs.Entries.{AreAbove};
ghost use Rattle.tree_backup.specs.Order.{Rises, IsTwice};

use ens_base::Entry;
use std::cmp::Ordering;

/// Whether each key occurs once in entries that are in the order of their keys.
pub(crate) fn are_once(entries: &[Entry]) -> bool
    requires { Rises [] entries.now }
    ensures yes { result ≡ true → AreAbove [] entries.now }
    ensures no { result ≡ false → IsTwice entries.now }
{
    let mut last: &[u8] = &[];
    for entry in entries {
        match last.cmp(entry.key.bytes()) {
            Ordering::Less => last = entry.key.bytes(),
            Ordering::Equal => return false,
            Ordering::Greater => return false,
        }
    }
    true
}
