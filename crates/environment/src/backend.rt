ghost use Rattle.std.specs.Prelude.{◌≡◌, ℕ, IfOk, IfErr, OnOk};
ghost use Rattle.environment.specs.Stores.{BackendCall, Get, Put, BackendAnswer, StoreCounts};
ghost use Rattle.environment.specs.Told.{bytes_of};
ghost use Rattle.environment.specs.declared.errors.StoreError.{StoreError};

use crate::errors::StoreError;
use ens_base::Key;
use std::alloc::Global;

/// A store of objects, as bytes under keys. The trait alone does not say what a get returns: a
/// backend that may return anything has two relations that always hold.
pub trait Backend {
    /// The call may return this answer and leave the backend in this state.
    ghost may_answer: { Self → (call : BackendCall) → BackendAnswer call → Self → Type 0 };

    /// The call may fail with this error and leave the backend in this state.
    ghost may_refuse: { Self → BackendCall → StoreError → Self → Type 0 };

    /// The number of calls that failed.
    ghost fault_count: { Self → ℕ };

    /// Returns the fault count. It never falls. Once it has reached the greatest u64 it stays
    /// there, and counts as risen.
    fn faults(&self) -> u64
        ensures { result ≡ fault_count self.now };

    /// Returns the bytes under `key`, or `None` if there are none.
    fn get(&mut self, alloc: Global, key: &Key) -> Result<Option<Vec<u8>>, StoreError>
        ensures answer { IfOk result (λ o. may_answer self.old (Get key.now) (bytes_of o) self.new) }
        ensures refusal { IfErr result (λ e. may_refuse self.old (Get key.now) e self.new) }
        ensures counts { StoreCounts (fault_count self.old) (fault_count self.new) result };

    /// Stores `bytes` under `key`.
    fn put(&mut self, alloc: Global, key: &Key, bytes: &[u8]) -> Result<(), StoreError>
        ensures answer { OnOk result (may_answer self.old (Put key.now bytes.now) tt self.new) }
        ensures refusal { IfErr result (λ e. may_refuse self.old (Put key.now bytes.now) e self.new) }
        ensures counts { StoreCounts (fault_count self.old) (fault_count self.new) result };
}
