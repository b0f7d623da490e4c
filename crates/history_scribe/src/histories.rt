ghost use Rattle.std.specs.Prelude.{◌≡◌, IfOk};
ghost use Rattle.history_scribe.specs.Histories.{AreHistories, AreSorted};

use crate::scribe::Scribe;
use ens_base::{CopyError, Key};
use register_model::History;
use std::alloc::{AllocError, Global};

/// Returns copies of these keys.
fn copies(alloc: Global, keys: &[Key]) -> Result<Vec<Key>, CopyError>
    ensures { IfOk result (λ v. v.items ≡ keys.now) }
{
    let mut copies = Vec::new(alloc);
    for key in keys {
        copies.push(key.copy(alloc)?)?;
    }
    Ok(copies)
}

/// Returns the same keys in ascending order, without duplicates.
fn sorted(alloc: Global, keys: &[Key]) -> Result<Vec<Key>, CopyError>
    ensures { IfOk result (λ v. AreSorted keys.now v.items) }
{
    let mut sorted = copies(alloc, keys)?;
    sorted.sort_unstable();
    sorted.dedup();
    Ok(sorted)
}

impl Scribe {
    /// Returns one history for each key in `named`, the keys ascending. A key may be named more
    /// than once. Fails only when out of memory.
    pub fn histories(&self, alloc: Global, named: &[Key]) -> Result<Vec<History>, AllocError>
        ensures { IfOk result (λ v. AreHistories self.now.notes.items named.now v.items) }
    {
        let keys = sorted(alloc, named)?;
        let mut histories = Vec::new(alloc);
        for key in &keys {
            histories.push(self.history(alloc, key)?)?;
        }
        Ok(histories)
    }
}
