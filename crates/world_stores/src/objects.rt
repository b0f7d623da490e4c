ghost use Rattle.std.specs.Prelude.{◌≡◌, [], IfOk, IfErr, OnOk, OnErr};
ghost use Rattle.environment.specs.Maps.{value_at, with_value};
ghost use Rattle.environment.specs.Told.{bytes_of};
ghost use Rattle.world_stores.specs.Faults.{awaiting, no_faults};
ghost use Rattle.world_stores.specs.Maps.{without};
ghost use Rattle.world_stores.specs.Objects.{ObjectsDo, ObjectsRefuse};

use crate::faults::Faults;
use ens_base::{Bytes, Key};
use environment::{Backend, Leaves, StoreError};
use std::alloc::Global;
use std::collections::BTreeMap;
use std::marker::Model;

/// The objects of a peer in memory. A get never fails. A put fails exactly if a failure waits.
#[derive(Drop)]
pub struct HeldObjects {
    objects: BTreeMap<Key, Bytes>,
    faults: Faults,
}

impl Model for HeldObjects {
    ghost use Rattle.world_stores.specs.Objects.{Objects};

    ghost Value = { Objects };

    ghost view = { λ s. record { entries = s.objects.entries; faults = s.faults } };
}

impl HeldObjects {
    /// Makes a store without objects.
    pub fn empty(alloc: Global) -> HeldObjects
        ensures { result ≡ record { entries = []; faults = no_faults } }
    {
        HeldObjects {
            objects: BTreeMap::new(alloc),
            faults: Faults::none(),
        }
    }

    /// Makes the next put fail, with its effect or without it. Replaces a failure that waits.
    pub fn fail_next(&mut self, leaves: Leaves)
        ensures { self.new ≡ record self.old { faults = awaiting leaves self.old.faults } }
    {
        self.faults.fail_next(leaves);
    }

    /// Replaces the bytes under `key`. Out of memory is the only error; it leaves the store
    /// unchanged.
    pub fn spoil(&mut self, alloc: Global, key: &Key, bytes: &[u8]) -> Result<(), StoreError>
        ensures ok { OnOk result (self.new ≡ record self.old { entries = with_value key.now bytes.now self.old.entries }) }
        ensures err { OnErr result (self.new ≡ self.old) }
        ensures memory { IfErr result (λ e. e ≡ StoreError.Memory) }
    {
        self.keep(alloc, key, bytes)
    }

    /// Removes the object under `key`, if there is one.
    pub fn lose(&mut self, key: &Key)
        ensures { self.new ≡ record self.old { entries = without key.now self.old.entries } }
    {
        self.objects.remove(key);
    }

    /// Looks up the bytes under `key`.
    fn find(&self, alloc: Global, key: &Key) -> Result<Option<Vec<u8>>, StoreError>
        ensures found { IfOk result (λ o. bytes_of o ≡ value_at key.now self.now.entries) }
        ensures memory { IfErr result (λ e. e ≡ StoreError.Memory) }
    {
        match self.objects.get(key) {
            Some(bytes) => Ok(Some(Vec::from_slice(alloc, bytes.as_slice())?)),
            None => Ok(None),
        }
    }

    /// Stores `bytes` under `key`. When out of memory, leaves the store unchanged.
    fn keep(&mut self, alloc: Global, key: &Key, bytes: &[u8]) -> Result<(), StoreError>
        ensures kept { OnOk result (self.new ≡ record self.old { entries = with_value key.now bytes.now self.old.entries }) }
        ensures err { OnErr result (self.new ≡ self.old) }
        ensures memory { IfErr result (λ e. e ≡ StoreError.Memory) }
    {
        let bytes = Bytes::from_slice(alloc, bytes)?;
        self.objects.insert(key.copy(alloc)?, bytes)?;
        Ok(())
    }
}

impl Backend for HeldObjects {
    ghost may_answer = { ObjectsDo };

    ghost may_refuse = { ObjectsRefuse };

    ghost fault_count = { λ s. s.faults.count };

    fn faults(&self) -> u64 {
        self.faults.count
    }

    fn get(&mut self, alloc: Global, key: &Key) -> Result<Option<Vec<u8>>, StoreError> {
        self.find(alloc, key)
    }

    fn put(&mut self, alloc: Global, key: &Key, bytes: &[u8]) -> Result<(), StoreError> {
        match self.faults.pending {
            None => self.keep(alloc, key, bytes),
            Some(Leaves::Old) => {
                self.faults.spend();
                Err(StoreError::Failed)
            }
            Some(Leaves::New) => {
                self.keep(alloc, key, bytes)?;
                self.faults.spend();
                Err(StoreError::Failed)
            }
        }
    }
}
