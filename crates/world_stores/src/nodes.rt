ghost use Rattle.std.specs.Prelude.{◌≡◌, ◌++◌, ◌∷◌, [], Some, IfErr, OnOk, OnErr};
ghost use Rattle.std.specs.Option.{option_map};
ghost use Rattle.environment.specs.Maps.{value_at, with_value};
ghost use Rattle.world_stores.specs.Faults.{awaiting, no_faults};
ghost use Rattle.world_stores.specs.Maps.{without};
ghost use Rattle.world_stores.specs.Nodes.{NodesDo, NodesRefuse, reverted, top_of};

use crate::faults::Faults;
use ens_base::{Bytes, Digest};
use environment::{Leaves, NodeStore, StoreError};
use indexmap::IndexMap;
use std::alloc::Global;
use std::marker::Model;

/// The nodes of a peer in memory, and all that its top record held. Reads and writes of nodes never
/// fail. A write of the top record fails exactly if a failure waits.
#[derive(Drop)]
pub struct HeldNodes {
    nodes: IndexMap<Digest, Bytes>,
    tops: Vec<Digest>,
    faults: Faults,
}

impl Model for HeldNodes {
    ghost use Rattle.world_stores.specs.Nodes.{Nodes};

    ghost Value = { Nodes };

    ghost use Rattle.world_stores.specs.Maps.{map_of};

    ghost view = { λ s. record { entries = map_of s.nodes.entries; tops = s.tops.items; faults = s.faults } };
}

impl HeldNodes {
    /// Makes a store without nodes and without a top record.
    pub fn empty(alloc: Global) -> HeldNodes
        ensures { result ≡ record { entries = []; tops = []; faults = no_faults } }
    {
        HeldNodes {
            nodes: IndexMap::new(alloc),
            tops: Vec::new(alloc),
            faults: Faults::none(),
        }
    }

    /// Makes the next write of the top record fail, with its effect or without it. Replaces a
    /// failure that waits.
    pub fn fail_next(&mut self, leaves: Leaves)
        ensures { self.new ≡ record self.old { faults = awaiting leaves self.old.faults } }
    {
        self.faults.fail_next(leaves);
    }

    /// Takes back the last `changes` writes of the top record, but not the first write.
    pub fn revert(&mut self, changes: usize)
        ensures { self.new ≡ record self.old { tops = reverted changes self.old.tops } }
    {
        let left = self.tops.len().saturating_sub(changes).max(1);
        self.tops.truncate(left);
    }

    /// Returns the digest in the top record, or `None` if there is no record.
    pub fn top_record(&self) -> Option<Digest>
        ensures { result ≡ top_of self.now.tops }
    {
        self.tops.last().copied()
    }

    /// Returns the bytes under `digest`, or `None` if there are none.
    pub fn look(&self, digest: &Digest) -> Option<&[u8]>
        ensures { option_map (λ b. b.now) result ≡ value_at digest.now self.now.entries }
    {
        match self.nodes.get(digest) {
            Some(bytes) => Some(bytes.as_slice()),
            None => None,
        }
    }

    /// Replaces the bytes under `digest`, which need not be its digest. Out of memory is the only
    /// error; it leaves the store unchanged.
    pub fn place(&mut self, alloc: Global, digest: &Digest, bytes: &[u8]) -> Result<(), StoreError>
        ensures ok { OnOk result (self.new ≡ record self.old { entries = with_value digest.now bytes.now self.old.entries }) }
        ensures err { OnErr result (self.new ≡ self.old) }
        ensures memory { IfErr result (λ e. e ≡ StoreError.Memory) }
    {
        self.keep(alloc, digest, bytes)
    }

    /// Removes the node under `digest`, if there is one.
    pub fn lose(&mut self, digest: &Digest)
        ensures { self.new ≡ record self.old { entries = without digest.now self.old.entries } }
    {
        self.nodes.swap_remove(digest);
    }

    /// Stores `bytes` under `digest`. When out of memory, leaves the store unchanged.
    fn keep(&mut self, alloc: Global, digest: &Digest, bytes: &[u8]) -> Result<(), StoreError>
        ensures kept { OnOk result (self.new ≡ record self.old { entries = with_value digest.now bytes.now self.old.entries }) }
        ensures err { OnErr result (self.new ≡ self.old) }
        ensures memory { IfErr result (λ e. e ≡ StoreError.Memory) }
    {
        let bytes = Bytes::from_slice(alloc, bytes)?;
        self.nodes.insert(*digest, bytes)?;
        Ok(())
    }

    /// Writes the top record. When out of memory, leaves the store unchanged.
    fn keep_top(&mut self, digest: &Digest) -> Result<(), StoreError>
        ensures kept { OnOk result (self.new ≡ record self.old { tops = self.old.tops ++ digest.now ∷ [] }) }
        ensures err { OnErr result (self.new ≡ self.old) }
        ensures memory { IfErr result (λ e. e ≡ StoreError.Memory) }
    {
        self.tops.push(*digest)?;
        Ok(())
    }
}

impl NodeStore for HeldNodes {
    ghost may_answer = { NodesDo };

    ghost may_refuse = { NodesRefuse };

    ghost top_record = { λ s. Some (top_of s.tops) };

    ghost fault_count = { λ s. s.faults.count };

    fn faults(&self) -> u64 {
        self.faults.count
    }

    fn read(&mut self, alloc: Global, digest: &Digest) -> Result<Option<Vec<u8>>, StoreError> {
        match self.look(digest) {
            Some(bytes) => Ok(Some(Vec::from_slice(alloc, bytes)?)),
            None => Ok(None),
        }
    }

    fn write(&mut self, alloc: Global, digest: &Digest, bytes: &[u8]) -> Result<(), StoreError> {
        self.keep(alloc, digest, bytes)
    }

    fn top(&mut self) -> Result<Option<Digest>, StoreError> {
        Ok(self.top_record())
    }

    fn set_top(&mut self, digest: &Digest) -> Result<(), StoreError> {
        match self.faults.pending {
            None => self.keep_top(digest),
            Some(Leaves::Old) => {
                self.faults.spend();
                Err(StoreError::Failed)
            }
            Some(Leaves::New) => {
                self.keep_top(digest)?;
                self.faults.spend();
                Err(StoreError::Failed)
            }
        }
    }
}
