ghost use Rattle.std.specs.Prelude.{◌≡◌, IfOk, List, ℕ};
ghost use Rattle.ens_base.specs.Lists.{bytes_cmp};
ghost use Rattle.history_record.specs.Clauses.{ids_on};
ghost use Rattle.history_record.specs.Lookups.{list_at};

use crate::lists::Lists;
use ens_base::Key;
use register_checker::RunError;
use register_model::Call;
use std::alloc::Global;

/// Returns the ids of the calls on each key, in the order of the calls.
pub(crate) fn ids_by_key(alloc: Global, calls: &[Call]) -> Result<Lists<Key, u64>, RunError>
    ensures ids { IfOk result (λ g. (key : List ℕ) → list_at bytes_cmp g.lists key ≡ ids_on calls.now key) }
{
    let mut ids = Lists::new(alloc);
    for call in calls {
        ids.push(alloc, call.key.copy(alloc)?, call.id)?;
    }
    Ok(ids)
}
