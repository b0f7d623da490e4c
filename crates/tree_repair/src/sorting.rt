ghost use Rattle.std.specs.Prelude.{◌≡◌, IfOk, IfErr};
ghost use Rattle.synctree.specs.declared.error.TreeError.TheVariants.{Memory};
ghost use Rattle.tree_repair.specs.Sorted.{sorted};

use ens_base::Entry;
use synctree::TreeError;

/// Sorts the entries by their keys; those of one key keep their order. Fails only when out of
/// memory.
pub(crate) fn sort_entries(mut entries: Vec<Entry>) -> Result<Vec<Entry>, TreeError>
    ensures ok { IfOk result (λ v. v.items ≡ sorted entries.items) }
    ensures memory { IfErr result (λ e. e ≡ Memory) }
{
    entries.sort_by(|a, b| a.key.cmp(&b.key))?;
    Ok(entries)
}
