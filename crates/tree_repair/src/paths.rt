ghost use Rattle.std.specs.Prelude.{◌≡◌};
ghost use Rattle.synctree.specs.Sixteen.{form_of};
ghost use Rattle.tree_repair.specs.RepairLevels.{index_of};

use ens_base::Key;
use hash_book::digest_of;
use synctree::{ROOT, child, nibble};
use tree_node::TreeVersion;

/// Returns the index of the segment of a key in the tree of this version: from the root on, each digit
/// of its path, which is its MD5, names the next child.
pub(crate) fn segment_of(version: TreeVersion, key: &Key) -> u32
    ensures { result ≡ index_of (form_of version) (form_of version).depth key.now }
{
    let path = digest_of(key.bytes());
    let mut at = ROOT;
    for level in 0..version.levels() {
        at = child(at, nibble(&path, level));
    }
    at.index
}
