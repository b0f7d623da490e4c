use crate::errors::{hash_error, tree_error, walked};
use ens_base::{Bytes, Digest, Entry, Key};
use environment::{Backend, NodeStore, StoreError};
use fact_store::{FactKeeper, KeepError};
use hash_book::Hasher16;
use peer_spec::{NoGate, has_position, rebuild, scan};
use std::alloc::Global;
use std::thread::Threads;
use step_plans::{PeerError, Store, Walked};
use stored_formats::{Change, Fact, SavedFact};
use synctree::Tree;
use tree_node::{Position, Scan, TreeVersion};

/// The stores of a peer: the objects, the tree, and the fact.
#[derive(Drop)]
pub struct Stores<B, N, F> {
    pub backend: B,
    pub tree: Tree<N>,
    pub facts: F,
}

impl<B: Backend, N: NodeStore, F: FactKeeper, H: Hasher16> Store<H> for Stores<B, N, F> {
    ghost use Rattle.peer_stores.specs.Stores.{stores_do, stores_refuse};

    ghost does = { stores_do B.may_answer B.fault_count N.may_answer N.top_record N.fault_count F.may_answer F.kept F.fault_count H.kept H.clashes H.fulls };

    ghost refuses = { stores_refuse B.may_refuse B.fault_count N.may_answer N.may_refuse N.top_record N.fault_count F.may_refuse F.kept F.fault_count H.kept H.clashes H.fulls };

    fn load(&mut self, _hasher: &mut H) -> Result<Option<SavedFact>, PeerError> {
        match self.facts.load() {
            Ok(kept) => Ok(kept),
            Err(KeepError::Failed) => Err(PeerError::StoreFault),
            Err(KeepError::Bad(why)) => Err(PeerError::BadFact(why)),
            Err(KeepError::Memory) => Err(PeerError::Memory),
        }
    }

    fn save(&mut self, _hasher: &mut H, fact: &SavedFact) -> Result<(), PeerError> {
        match self.facts.save(fact) {
            Ok(()) => Ok(()),
            Err(_) => Err(PeerError::StoreFault),
        }
    }

    fn fresh_tree(
        &mut self,
        hasher: &mut H,
        alloc: Global,
        version: TreeVersion,
    ) -> Result<(), PeerError> {
        match self.tree.empty(alloc, version, hasher) {
            Ok(()) => Ok(()),
            Err(error) => Err(tree_error(error)),
        }
    }

    fn open_tree(
        &mut self,
        _hasher: &mut H,
        _alloc: Global,
        seal: Option<Digest>,
        version: TreeVersion,
    ) -> Result<(), PeerError> {
        match self.tree.reopen(seal, version) {
            Ok(()) => Ok(()),
            Err(error) => Err(tree_error(error)),
        }
    }

    fn root(&mut self, _hasher: &mut H) -> Result<Option<Digest>, PeerError> {
        Ok(self.tree.top())
    }

    fn find(
        &mut self,
        hasher: &mut H,
        alloc: Global,
        key: &Key,
    ) -> Result<Walked<Option<Entry>>, PeerError> {
        walked(self.tree.get(alloc, hasher, key))
    }

    fn enter(
        &mut self,
        hasher: &mut H,
        alloc: Global,
        entry: &Entry,
    ) -> Result<Walked<()>, PeerError> {
        walked(self.tree.insert(alloc, hasher, entry))
    }

    fn scan_tree<R: Threads + Sync>(
        &mut self,
        hasher: &mut H,
        rt: &R,
        alloc: Global,
    ) -> Result<Scan, PeerError> {
        match scan(rt, alloc, &mut self.tree, hasher, &NoGate) {
            Ok(found) => Ok(found),
            Err(error) => Err(tree_error(error)),
        }
    }

    fn read_node(
        &mut self,
        hasher: &mut H,
        alloc: Global,
        at: Position,
    ) -> Result<Walked<Option<Bytes>>, PeerError> {
        if has_position(self.tree.version(), at) {
            walked(self.tree.node(alloc, hasher, at))
        } else {
            Ok(Walked::Reached(None))
        }
    }

    fn install<R: Threads + Sync>(
        &mut self,
        hasher: &mut H,
        rt: &R,
        alloc: Global,
        entries: &[Entry],
    ) -> Result<(), PeerError> {
        match rebuild(rt, alloc, &mut self.tree, hasher, entries) {
            Ok(()) => Ok(()),
            Err(error) => Err(tree_error(error)),
        }
    }

    fn fetch(
        &mut self,
        _hasher: &mut H,
        alloc: Global,
        key: &Key,
    ) -> Result<Option<Bytes>, PeerError> {
        match self.backend.get(alloc, key) {
            Ok(Some(bytes)) => Ok(Some(Bytes::new(bytes))),
            Ok(None) => Ok(None),
            Err(StoreError::Failed) => Err(PeerError::StoreFault),
            Err(StoreError::Memory) => Err(PeerError::Memory),
        }
    }

    fn put(
        &mut self,
        _hasher: &mut H,
        alloc: Global,
        key: &Key,
        bytes: &[u8],
    ) -> Result<(), PeerError> {
        match self.backend.put(alloc, key, bytes) {
            Ok(()) => Ok(()),
            Err(StoreError::Failed) => Err(PeerError::StoreFault),
            Err(StoreError::Memory) => Err(PeerError::Memory),
        }
    }

    fn hash(&mut self, hasher: &mut H, alloc: Global, bytes: &[u8]) -> Result<Digest, PeerError> {
        match hasher.digest(alloc, bytes) {
            Ok(digest) => Ok(digest),
            Err(error) => Err(hash_error(error)),
        }
    }
}
