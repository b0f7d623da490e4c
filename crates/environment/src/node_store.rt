ghost use Rattle.std.specs.Prelude.{◌≡◌, ℕ, List, Option, IfOk, IfErr, OnOk};
ghost use Rattle.environment.specs.Stores.{NodeCall, Read, Write, Top, SetTop, NodeAnswer, StoreCounts, SetsTop};
ghost use Rattle.environment.specs.Told.{bytes_of, StaysTold, IsTold};
ghost use Rattle.environment.specs.declared.errors.StoreError.{StoreError};

use crate::errors::StoreError;
use ens_base::Digest;
use std::alloc::Global;

/// A store of tree nodes, as bytes under digests, with a top record that holds a digest. The trait
/// alone does not say what a read returns. The top record is honest where it is known: it holds
/// what the last call of `set_top` wrote or, if that call failed, that or what it held before.
pub trait NodeStore {
    /// The call may return this answer and leave the store in this state.
    ghost may_answer: { Self → (call : NodeCall) → NodeAnswer call → Self → Type 0 };

    /// The call may fail with this error and leave the store in this state.
    ghost may_refuse: { Self → NodeCall → StoreError → Self → Type 0 };

    /// The digest in the top record, or that there is no record; `None` if unknown.
    ghost top_record: { Self → Option (Option (List ℕ)) };

    /// The number of calls that failed.
    ghost fault_count: { Self → ℕ };

    /// Returns the fault count. It never falls. Once it has reached the greatest u64 it stays
    /// there, and counts as risen.
    fn faults(&self) -> u64
        ensures { result ≡ fault_count self.now };

    /// Returns the bytes under `digest`, or `None` if there are none.
    fn read(&mut self, alloc: Global, digest: &Digest) -> Result<Option<Vec<u8>>, StoreError>
        ensures answer { IfOk result (λ o. may_answer self.old (Read digest.now) (bytes_of o) self.new) }
        ensures refusal { IfErr result (λ e. may_refuse self.old (Read digest.now) e self.new) }
        ensures top { StaysTold (top_record self.old) (top_record self.new) }
        ensures counts { StoreCounts (fault_count self.old) (fault_count self.new) result };

    /// Stores `bytes` under `digest`.
    fn write(&mut self, alloc: Global, digest: &Digest, bytes: &[u8]) -> Result<(), StoreError>
        ensures answer { OnOk result (may_answer self.old (Write digest.now bytes.now) tt self.new) }
        ensures refusal { IfErr result (λ e. may_refuse self.old (Write digest.now bytes.now) e self.new) }
        ensures top { StaysTold (top_record self.old) (top_record self.new) }
        ensures counts { StoreCounts (fault_count self.old) (fault_count self.new) result };

    /// Returns the digest in the top record, or `None` if there is no record.
    fn top(&mut self) -> Result<Option<Digest>, StoreError>
        ensures answer { IfOk result (λ o. may_answer self.old Top o self.new) }
        ensures refusal { IfErr result (λ e. may_refuse self.old Top e self.new) }
        ensures honest { IfOk result (λ o. IsTold (top_record self.old) o) }
        ensures top { StaysTold (top_record self.old) (top_record self.new) }
        ensures counts { StoreCounts (fault_count self.old) (fault_count self.new) result };

    /// Writes `digest` into the top record. After `Failed` the record holds that or what it held
    /// before; when out of memory, what it held before.
    fn set_top(&mut self, digest: &Digest) -> Result<(), StoreError>
        ensures answer { OnOk result (may_answer self.old (SetTop digest.now) tt self.new) }
        ensures refusal { IfErr result (λ e. may_refuse self.old (SetTop digest.now) e self.new) }
        ensures top { SetsTop (top_record self.old) (top_record self.new) digest.now result }
        ensures counts { StoreCounts (fault_count self.old) (fault_count self.new) result };
}
