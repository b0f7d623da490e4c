//! A hash tree over a store in memory.

use ens_base::{Digest, Entry, Epoch, Key, Version};
use environment::MemNodes;
use hash_book::PlainHasher;
use std::alloc::Global;
use std::thread::Threads;
use synctree::Tree;
use tree_node::TreeVersion;
use tree_repair::{NoGate, ascends, build, install, scan};

/// The parts that are measured.
pub const PARTS: [&str; 4] = ["inserts", "gets", "scans", "builds"];

/// Which tree is measured: its version, how many entries it has, and how many scans and builds there
/// are.
#[derive(Clone, Copy)]
pub struct Case {
    /// The version of the tree.
    pub version: TreeVersion,
    /// The number of entries.
    pub entries: u64,
    /// The number of scans and of builds.
    pub rounds: u64,
}

/// The entry of a number: its key is the number in eight bytes, and its version ends in it.
fn entry(alloc: Global, number: u64) -> Option<Entry> {
    let epoch = Epoch {
        count: 1,
        proposer: 1,
    };
    Some(Entry {
        key: Key::new(alloc, &number.to_be_bytes()).ok()?,
        version: Version { epoch, seq: number },
        digest: Digest([7; 16]),
    })
}

/// The entries of the numbers below this one, in ascending order of keys.
fn entries(alloc: Global, count: u64) -> Option<Vec<Entry>> {
    let mut all = Vec::new(alloc);
    for number in 0..count {
        all.push(entry(alloc, number)?).ok()?;
    }
    Some(all)
}

fn fresh(alloc: Global, version: TreeVersion) -> Option<Tree<MemNodes>> {
    let nodes = MemNodes::new(alloc, Vec::new(alloc));
    Tree::fresh(alloc, nodes, version, &mut PlainHasher).ok()
}

/// Inserts all entries one by one. Returns their number.
fn inserts(alloc: Global, case: Case) -> Option<u64> {
    let mut tree = fresh(alloc, case.version)?;
    let mut count: u64 = 0;
    for number in 0..case.entries {
        let entry = entry(alloc, number)?;
        tree.insert(alloc, &mut PlainHasher, &entry).ok()?;
        count = count.saturating_add(1);
    }
    Some(count)
}

/// Builds the tree of all entries, and installs it.
fn built<R: Threads + Sync>(rt: &R, alloc: Global, case: Case) -> Option<Tree<MemNodes>> {
    let entries = entries(alloc, case.entries)?;
    if !ascends(entries.as_slice()) {
        return None;
    }
    let built = build(
        rt,
        alloc,
        case.version,
        &mut PlainHasher,
        &NoGate,
        entries.as_slice(),
    )
    .ok()?;
    let mut tree = fresh(alloc, case.version)?;
    install(alloc, &mut tree, &built).ok()?;
    Some(tree)
}

/// Gets each entry. Returns how many are found.
fn gets<R: Threads + Sync>(rt: &R, alloc: Global, case: Case) -> Option<u64> {
    let mut tree = built(rt, alloc, case)?;
    let mut found: u64 = 0;
    for number in 0..case.entries {
        let key = Key::new(alloc, &number.to_be_bytes()).ok()?;
        if tree.get(alloc, &mut PlainHasher, &key).ok()?.is_some() {
            found = found.saturating_add(1);
        }
    }
    Some(found)
}

/// Scans the tree again and again. Returns how many entries the last scan finds.
fn scans<R: Threads + Sync>(rt: &R, alloc: Global, case: Case) -> Option<u64> {
    let mut tree = built(rt, alloc, case)?;
    let mut found = 0;
    for _ in 0..case.rounds {
        let scan = scan(rt, alloc, &mut tree, &mut PlainHasher, &NoGate).ok()?;
        found = scan.entries.as_slice().len() as u64;
    }
    Some(found)
}

/// Builds the tree again and again. Returns the number of its nodes.
fn builds<R: Threads + Sync>(rt: &R, alloc: Global, case: Case) -> Option<u64> {
    let entries = entries(alloc, case.entries)?;
    if !ascends(entries.as_slice()) {
        return None;
    }
    let mut nodes = 0;
    for _ in 0..case.rounds {
        let built = build(
            rt,
            alloc,
            case.version,
            &mut PlainHasher,
            &NoGate,
            entries.as_slice(),
        )
        .ok()?;
        nodes = built.nodes.as_slice().len() as u64;
    }
    Some(nodes)
}

/// Measures this part. `None` when out of memory.
pub fn measure<R: Threads + Sync>(rt: &R, alloc: Global, part: &str, case: Case) -> Option<u64> {
    match part {
        "inserts" => inserts(alloc, case),
        "gets" => gets(rt, alloc, case),
        "scans" => scans(rt, alloc, case),
        _ => builds(rt, alloc, case),
    }
}
