//! Puts of objects and of their entries in a hash tree.

use disk_stores::{DiskBackend, DiskNodes};
use ens_base::{Digest, Entry, Epoch, Key, Version};
use environment::{Backend, MemBackend, MemNodes, NodeStore};
use hash_book::PlainHasher;
use host::FileDisk;
use std::alloc::Global;
use std::fs::File;
use std::rt::Files;
use synctree::Tree;
use tree_node::TreeVersion;

/// The number of puts.
const PUTS: u64 = 20_000;

/// The files of nodes and of objects.
pub const NODES: &str = "measured-nodes";

pub const OBJECTS: &str = "measured-objects";

/// Puts an object of 100 bytes and its entry, under the key of a number.
fn put<N: NodeStore, B: Backend>(
    alloc: Global,
    tree: &mut Tree<N>,
    objects: &mut B,
    number: u64,
) -> Option<()> {
    let key = Key::new(alloc, &number.to_be_bytes()).ok()?;
    objects.put(alloc, &key, &[7; 100]).ok()?;
    let epoch = Epoch {
        count: 1,
        proposer: 1,
    };
    let entry = Entry {
        key,
        version: Version { epoch, seq: number },
        digest: Digest([7; 16]),
    };
    tree.insert(alloc, &mut PlainHasher, &entry).ok()
}

/// Makes all puts. Returns their number.
fn puts<N: NodeStore + Drop, B: Backend>(alloc: Global, nodes: N, objects: &mut B) -> Option<u64> {
    let mut tree = Tree::fresh(alloc, nodes, TreeVersion::One, &mut PlainHasher).ok()?;
    let mut count: u64 = 0;
    for number in 0..PUTS {
        put(alloc, &mut tree, objects, number)?;
        count = count.saturating_add(1);
    }
    Some(count)
}

/// Makes all puts over stores in memory.
pub fn in_memory(alloc: Global) -> Option<u64> {
    let mut objects = MemBackend::new(alloc, Vec::new(alloc));
    puts(alloc, MemNodes::new(alloc, Vec::new(alloc)), &mut objects)
}

/// Makes all puts over files.
pub fn on_files<R: Files<File = File>>(rt: &R, alloc: Global) -> Option<u64> {
    let nodes = DiskNodes::open(alloc, FileDisk::new(rt, NODES)).ok()?;
    let mut objects = DiskBackend::open(alloc, FileDisk::new(rt, OBJECTS)).ok()?;
    puts(alloc, nodes, &mut objects)
}
