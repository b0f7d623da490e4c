ghost use Rattle.std.specs.Prelude.{◌≡◌, [], None, Some, IfOk, IfErr, OnOk, OnErr};
ghost use Rattle.environment.specs.Maps.{value_at, with_value};
ghost use Rattle.environment.specs.MemStores.{NodesDo, NodesRefuse};
ghost use Rattle.environment.specs.Told.{bytes_of};

use crate::errors::StoreError;
use crate::memory::failing_call::{FailingCall, Leaves};
use crate::memory::failures::Failures;
use crate::node_store::NodeStore;
use ens_base::{Bytes, Digest};
use std::alloc::Global;
use std::collections::BTreeMap;
use std::marker::Model;

/// A node store in memory: a finite map in which a read returns what the last successful write of
/// its digest stored, and a top record, which is always known. Exactly the listed calls fail, with
/// or without their effect. When out of memory, a call leaves the nodes and the top record
/// unchanged.
#[derive(Drop)]
pub struct MemNodes {
    nodes: BTreeMap<Digest, Bytes>,
    top: Option<Digest>,
    failures: Failures,
}

impl Model for MemNodes {
    ghost use Rattle.environment.specs.MemStores.{Nodes};

    ghost Value = { Nodes };

    ghost view = { λ n. record { held = record { entries = n.nodes.entries; top = n.top }; plan = n.failures } };
}

impl MemNodes {
    /// Makes a store without nodes and without a top record, which fails at the listed calls.
    pub fn new(alloc: Global, failing: Vec<FailingCall>) -> Self
        ensures empty { result.held ≡ record { entries = []; top = None } }
        ensures plan { result.plan ≡ record { listed = failing.items; calls = 0; faults = 0 } }
    {
        MemNodes {
            nodes: BTreeMap::new(alloc),
            top: None,
            failures: Failures::new(failing),
        }
    }

    /// Looks up the bytes under `digest`.
    fn find(&self, alloc: Global, digest: &Digest) -> Result<Option<Vec<u8>>, StoreError>
        ensures found { IfOk result (λ o. bytes_of o ≡ value_at digest.now self.now.held.entries) }
        ensures memory { IfErr result (λ e. e ≡ StoreError.Memory) }
    {
        match self.nodes.get(digest) {
            Some(bytes) => Ok(Some(Vec::from_slice(alloc, bytes.as_slice())?)),
            None => Ok(None),
        }
    }

    /// Stores `bytes` under `digest`. When out of memory, leaves the store unchanged.
    fn keep(&mut self, alloc: Global, digest: &Digest, bytes: &[u8]) -> Result<(), StoreError>
        ensures kept { OnOk result (self.new ≡ record self.old { held = record self.old.held { entries = with_value digest.now bytes.now self.old.held.entries } }) }
        ensures err { OnErr result (self.new ≡ self.old) }
        ensures memory { IfErr result (λ e. e ≡ StoreError.Memory) }
    {
        let bytes = Bytes::from_slice(alloc, bytes)?;
        self.nodes.insert(*digest, bytes)?;
        Ok(())
    }

    /// Sets the top record.
    fn keep_top(&mut self, digest: &Digest)
        ensures { self.new ≡ record self.old { held = record self.old.held { top = Some digest.now } } }
    {
        self.top = Some(*digest);
    }
}

impl NodeStore for MemNodes {
    ghost may_answer = { NodesDo };

    ghost may_refuse = { NodesRefuse };

    ghost top_record = { λ n. Some n.held.top };

    ghost fault_count = { λ n. n.plan.faults };

    fn faults(&self) -> u64 {
        self.failures.faults()
    }

    fn read(&mut self, alloc: Global, digest: &Digest) -> Result<Option<Vec<u8>>, StoreError> {
        match self.failures.call() {
            None => self.find(alloc, digest),
            Some(_leaves) => {
                self.failures.fail();
                Err(StoreError::Failed)
            }
        }
    }

    fn write(&mut self, alloc: Global, digest: &Digest, bytes: &[u8]) -> Result<(), StoreError> {
        match self.failures.call() {
            None => self.keep(alloc, digest, bytes),
            Some(Leaves::Old) => {
                self.failures.fail();
                Err(StoreError::Failed)
            }
            Some(Leaves::New) => {
                self.keep(alloc, digest, bytes)?;
                self.failures.fail();
                Err(StoreError::Failed)
            }
        }
    }

    fn top(&mut self) -> Result<Option<Digest>, StoreError> {
        match self.failures.call() {
            None => Ok(self.top),
            Some(_leaves) => {
                self.failures.fail();
                Err(StoreError::Failed)
            }
        }
    }

    fn set_top(&mut self, digest: &Digest) -> Result<(), StoreError> {
        match self.failures.call() {
            None => {
                self.keep_top(digest);
                Ok(())
            }
            Some(Leaves::Old) => {
                self.failures.fail();
                Err(StoreError::Failed)
            }
            Some(Leaves::New) => {
                self.keep_top(digest);
                self.failures.fail();
                Err(StoreError::Failed)
            }
        }
    }
}
