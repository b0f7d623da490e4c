ghost use Rattle.std.specs.Prelude.{◌≡◌, ◌↔◌, Some, Ok, IsTrue, IfErr, OnOk, OnErr};
ghost use Rattle.fact_store.specs.Commits.{Committed};
ghost use Rattle.fact_store.specs.Files.{FileRefuses, file_kept};
ghost use Rattle.fact_store.specs.Keeping.{Save};
ghost use Rattle.fact_store.specs.declared.error.KeepError.TheVariants as errors;

use crate::error::KeepError;
use crate::file::FactFile;
use crate::keeper::FactKeeper;
use crate::same::is_same;
use slot_disk::Disk;
use stored_formats::SavedFact;

/// Returns whether the file keeps this fact. Then a commit of it does nothing.
pub fn is_kept<D: Disk>(file: &mut FactFile<D>, fact: &SavedFact) -> bool
    ensures kept { IsTrue result ↔ (file_kept file.old ≡ Some (Ok fact.now)) }
    ensures same { file.new ≡ file.old }
{
    match file.load() {
        Ok(Some(kept)) => is_same(&kept, fact),
        Ok(None) | Err(KeepError::Bad(_)) => false,
        Err(KeepError::Failed | KeepError::Memory) => unreachable!(),
    }
}

/// Saves the fact in the file, unless the file keeps it.
///
/// # Errors
///
/// `Failed` alone, and only if the fault count of the disk rose, or the file has its last serial
/// number: the file then keeps the old fact, and a crash leaves the old one or the new one.
pub fn commit<D: Disk>(file: &mut FactFile<D>, fact: &SavedFact) -> Result<(), KeepError>
    ensures done { OnOk result (Committed D.seen D.may_leave D.moment D.left_since D.fault_count fact.now file.old file.new) }
    ensures refused { OnErr result (FileRefuses D.seen D.may_leave D.moment D.left_since D.fault_count file.old (Save fact.now) errors.Failed file.new) }
    ensures error { IfErr result (λ e. e ≡ errors.Failed) }
{
    if is_kept(file, fact) {
        return Ok(());
    }
    file.save(fact)
}
