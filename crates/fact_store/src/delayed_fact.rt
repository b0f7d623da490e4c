ghost use Rattle.std.specs.Prelude.{◌≡◌, ℕ, IfErr};
ghost use Rattle.fact_store.specs.Held.{held_kept};
ghost use Rattle.fact_store.specs.Files.{file_kept};
ghost use Rattle.fact_store.specs.Keeping.{IsBad, Loads};
ghost use Rattle.fact_store.specs.Memory.{kept_of};

use crate::error::KeepError;
use crate::file::FactFile;
use crate::keeper::FactKeeper;
use crate::kept::Kept;
use slot_disk::Disk;
use stored_formats::{Change, Fact, FactError, SavedFact};

/// The fact of a peer in memory, between two commits. No save of it fails.
#[derive(Drop)]
pub struct DelayedFact {
    kept: Kept,
}

impl DelayedFact {
    /// Returns what the file keeps, held in memory.
    pub fn of<D: Disk>(file: &mut FactFile<D>) -> DelayedFact
        ensures held { held_kept result ≡ file_kept file.old }
        ensures same { file.new ≡ file.old }
    {
        let kept = match file.load() {
            Ok(None) => Kept::Nothing,
            Ok(Some(fact)) => Kept::Fact(fact),
            Err(KeepError::Bad(why)) => Kept::Bad(why),
            Err(KeepError::Failed | KeepError::Memory) => unreachable!(),
        };
        DelayedFact { kept }
    }
}

/// Returns what a load of this content returns.
fn loaded(kept: Kept) -> Result<Option<SavedFact>, KeepError>
    ensures loads { (before now : ℕ) → Loads (kept_of kept) before now result }
    ensures bad { IfErr result IsBad }
{
    match kept {
        Kept::Nothing => Ok(None),
        Kept::Fact(fact) => Ok(Some(fact)),
        Kept::Bad(why) => Err(KeepError::Bad(why)),
    }
}

impl FactKeeper for DelayedFact {
    ghost use Rattle.fact_store.specs.Held.{HeldAnswers, HeldRefuses};

    ghost may_answer = { λ h call answer k. HeldAnswers h call answer k };

    ghost may_refuse = { λ h call error k. HeldRefuses h call error k };

    ghost kept = { λ h. kept_of h.kept };

    ghost fault_count = { λ h. 0 };

    fn faults(&self) -> u64 {
        0
    }

    fn load(&mut self) -> Result<Option<SavedFact>, KeepError> {
        loaded(self.kept)
    }

    fn save(&mut self, fact: &SavedFact) -> Result<(), KeepError> {
        self.kept = Kept::Fact(*fact);
        Ok(())
    }
}
