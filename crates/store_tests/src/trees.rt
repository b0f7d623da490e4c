//! Trees in memory.
use ens_base::{Digest, Entry, Epoch, Key, Version};
use environment::MemNodes;
use hash_book::PlainHasher;
use std::alloc::Global;
use std::test::Fail;
use synctree::{Tree, TreeError};
use tree_node::TreeVersion;

/// A tree over a store in memory.
pub(crate) type MemTree = Tree<MemNodes>;

pub(crate) fn entry(alloc: Global, key: &[u8], seq: u64) -> Result<Entry, Fail> {
    let epoch = Epoch {
        count: 1,
        proposer: 1,
    };
    Ok(Entry {
        key: Key::new(alloc, key)?,
        version: Version { epoch, seq },
        digest: Digest([7; 16]),
    })
}

pub(crate) fn fresh(alloc: Global, version: TreeVersion) -> Result<MemTree, TreeError> {
    let nodes = MemNodes::new(alloc, Vec::new(alloc));
    match Tree::fresh(alloc, nodes, version, &mut PlainHasher) {
        Ok(tree) => Ok(tree),
        Err(refused) => Err(refused.error),
    }
}

/// The tree under the top record of the store.
pub(crate) fn opened(nodes: MemNodes) -> Result<MemTree, TreeError> {
    match Tree::open(nodes, None, TreeVersion::One) {
        Ok(tree) => Ok(tree),
        Err(refused) => Err(refused.error),
    }
}

pub(crate) fn insert(alloc: Global, tree: &mut MemTree, entry: &Entry) -> Result<(), TreeError> {
    tree.insert(alloc, &mut PlainHasher, entry)
}

pub(crate) fn find(
    alloc: Global,
    tree: &mut MemTree,
    key: &Key,
) -> Result<Option<Entry>, TreeError> {
    tree.get(alloc, &mut PlainHasher, key)
}
