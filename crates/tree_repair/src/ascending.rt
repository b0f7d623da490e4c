ghost use Rattle.std.specs.Prelude.{◌≡◌, true, []};
ghost use Rattle.tree_node.specs.Entries.{AreAbove};

use ens_base::Entry;
use std::cmp::Ordering;

/// Says whether the keys of the entries strictly ascend, as [`crate::build`] requires.
pub fn ascends(entries: &[Entry]) -> bool
    ensures yes { result ≡ true → AreAbove [] entries.now }
    ensures always { AreAbove [] entries.now → result ≡ true }
{
    let mut last: &[u8] = &[];
    for entry in entries {
        match last.cmp(entry.key.bytes()) {
            Ordering::Less => last = entry.key.bytes(),
            Ordering::Equal => return false,
            Ordering::Greater => return false,
        }
    }
    true
}
