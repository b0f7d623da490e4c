ghost use Rattle.std.specs.Prelude.{◌≡◌, None};
ghost use Rattle.world_stores.specs.Facts.{FactDoes, FactRefuses, kept_of};
ghost use Rattle.world_stores.specs.Faults.{awaiting, no_faults};

use crate::faults::Faults;
use environment::Leaves;
use fact_store::{FactKeeper, KeepError};
use stored_formats::{Change, Fact, SavedFact};

/// Keeps the fact of a peer in memory. A load never fails. A save fails exactly if a failure waits.
#[derive(Debug, Drop)]
pub struct HeldFact {
    pub kept: Option<SavedFact>,
    pub faults: Faults,
}

impl HeldFact {
    /// Makes a keeper without a fact.
    pub fn empty() -> HeldFact
        ensures { result ≡ record { kept = None; faults = no_faults } }
    {
        HeldFact {
            kept: None,
            faults: Faults::none(),
        }
    }

    /// Makes the next save fail, with its effect or without it. Replaces a failure that waits.
    pub fn fail_next(&mut self, leaves: Leaves)
        ensures { self.new ≡ record self.old { faults = awaiting leaves self.old.faults } }
    {
        self.faults.fail_next(leaves);
    }
}

impl FactKeeper for HeldFact {
    ghost may_answer = { FactDoes };

    ghost may_refuse = { FactRefuses };

    ghost kept = { λ h. kept_of h.kept };

    ghost fault_count = { λ h. h.faults.count };

    fn faults(&self) -> u64 {
        self.faults.count
    }

    fn load(&mut self) -> Result<Option<SavedFact>, KeepError> {
        Ok(self.kept)
    }

    fn save(&mut self, fact: &SavedFact) -> Result<(), KeepError> {
        match self.faults.pending {
            None => {
                self.kept = Some(*fact);
                Ok(())
            }
            Some(Leaves::Old) => {
                self.faults.spend();
                Err(KeepError::Failed)
            }
            Some(Leaves::New) => {
                self.kept = Some(*fact);
                self.faults.spend();
                Err(KeepError::Failed)
            }
        }
    }
}
