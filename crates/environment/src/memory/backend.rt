ghost use Rattle.std.specs.Prelude.{◌≡◌, [], IfOk, IfErr, OnOk, OnErr};
ghost use Rattle.environment.specs.Maps.{value_at, with_value};
ghost use Rattle.environment.specs.MemStores.{BackendDoes, BackendRefuses};
ghost use Rattle.environment.specs.Told.{bytes_of};

use crate::backend::Backend;
use crate::errors::StoreError;
use crate::memory::failing_call::{FailingCall, Leaves};
use crate::memory::failures::Failures;
use ens_base::{Bytes, Key};
use std::alloc::Global;
use std::collections::BTreeMap;
use std::marker::Model;

/// A backend in memory: a finite map in which a get returns what the last successful put of its key
/// stored. Exactly the listed calls fail, with or without their effect. When out of memory, a call
/// leaves the map unchanged.
#[derive(Drop)]
pub struct MemBackend {
    objects: BTreeMap<Key, Bytes>,
    failures: Failures,
}

impl Model for MemBackend {
    ghost use Rattle.environment.specs.MemStores.{Objects};

    ghost Value = { Objects };

    ghost view = { λ b. record { entries = b.objects.entries; plan = b.failures } };
}

impl MemBackend {
    /// Makes an empty backend that fails at the listed calls.
    pub fn new(alloc: Global, failing: Vec<FailingCall>) -> Self
        ensures empty { result.entries ≡ [] }
        ensures plan { result.plan ≡ record { listed = failing.items; calls = 0; faults = 0 } }
    {
        MemBackend {
            objects: BTreeMap::new(alloc),
            failures: Failures::new(failing),
        }
    }

    /// Looks up the bytes under `key`.
    fn find(&self, alloc: Global, key: &Key) -> Result<Option<Vec<u8>>, StoreError>
        ensures found { IfOk result (λ o. bytes_of o ≡ value_at key.now self.now.entries) }
        ensures memory { IfErr result (λ e. e ≡ StoreError.Memory) }
    {
        match self.objects.get(key) {
            Some(bytes) => Ok(Some(Vec::from_slice(alloc, bytes.as_slice())?)),
            None => Ok(None),
        }
    }

    /// Stores `bytes` under `key`. When out of memory, leaves the map unchanged.
    fn keep(&mut self, alloc: Global, key: &Key, bytes: &[u8]) -> Result<(), StoreError>
        ensures kept { OnOk result (self.new ≡ record self.old { entries = with_value key.now bytes.now self.old.entries }) }
        ensures err { OnErr result (self.new ≡ self.old) }
        ensures memory { IfErr result (λ e. e ≡ StoreError.Memory) }
    {
        let bytes = Bytes::from_slice(alloc, bytes)?;
        self.objects.insert(key.copy(alloc)?, bytes)?;
        Ok(())
    }
}

impl Backend for MemBackend {
    ghost may_answer = { BackendDoes };

    ghost may_refuse = { BackendRefuses };

    ghost fault_count = { λ b. b.plan.faults };

    fn faults(&self) -> u64 {
        self.failures.faults()
    }

    fn get(&mut self, alloc: Global, key: &Key) -> Result<Option<Vec<u8>>, StoreError> {
        match self.failures.call() {
            None => self.find(alloc, key),
            Some(_leaves) => {
                self.failures.fail();
                Err(StoreError::Failed)
            }
        }
    }

    fn put(&mut self, alloc: Global, key: &Key, bytes: &[u8]) -> Result<(), StoreError> {
        match self.failures.call() {
            None => self.keep(alloc, key, bytes),
            Some(Leaves::Old) => {
                self.failures.fail();
                Err(StoreError::Failed)
            }
            Some(Leaves::New) => {
                self.keep(alloc, key, bytes)?;
                self.failures.fail();
                Err(StoreError::Failed)
            }
        }
    }
}
