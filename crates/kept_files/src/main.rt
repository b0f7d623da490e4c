//! Loads the number that an earlier run kept as a fact, as a node under the top record and as an
//! object, in the files `facts`, `nodes` and `objects` of the current folder. Prints the three, each
//! 0 if there is none, and stores the next number in each file.
#![tactic(auto)]

use disk_stores::{DiskBackend, DiskNodes};
use ens_base::{Key, PeerId, View};
use environment::{Backend, NodeStore};
use fact_store::{FactFile, FactKeeper};
use hash_book::{Hasher16, PlainHasher};
use host::FileDisk;
use std::alloc::Global;
use std::fs::File;
use std::io;
use std::rt::Files;
use stored_formats::{Fact, SavedFact};

/// Returns the number in these bytes, or 0 if they are not eight.
fn number_in(bytes: Option<Vec<u8>>) -> u64 {
    let Some(bytes) = bytes else {
        return 0;
    };
    match bytes.as_slice().first_chunk::<8>() {
        Some(eight) => u64::from_be_bytes(*eight),
        None => 0,
    }
}

/// Returns the count of the kept ballot, and saves a fact with the next one. `None` if a call fails.
fn next_fact<R: Files<File = File> + Drop>(rt: R, alloc: Global) -> Option<u64> {
    let mut file = FactFile::open(alloc, FileDisk::new(rt, "facts")).ok()?;
    let mut saved = match file.load().ok()? {
        Some(saved) => saved,
        None => SavedFact {
            fact: Fact::opening(View::new(&[PeerId(1), PeerId(2), PeerId(3)]).ok()?),
            seal: None,
        },
    };
    let number = saved.fact.ballot.count;
    saved.fact.ballot.count = number.saturating_add(1);
    file.save(&saved).ok()?;
    Some(number)
}

/// Returns the number in the node under the top record, and stores one with the next number.
fn next_node<R: Files<File = File> + Drop>(rt: R, alloc: Global) -> Option<u64> {
    let mut nodes = DiskNodes::open(alloc, FileDisk::new(rt, "nodes")).ok()?;
    let number = match nodes.top().ok()? {
        Some(top) => number_in(nodes.read(alloc, &top).ok()?),
        None => 0,
    };
    let bytes = number.saturating_add(1).to_be_bytes();
    let digest = PlainHasher.digest(alloc, &bytes).ok()?;
    nodes.write(alloc, &digest, &bytes).ok()?;
    nodes.set_top(&digest).ok()?;
    Some(number)
}

/// Returns the number in the object of the key `number`, and stores the next one.
fn next_object<R: Files<File = File> + Drop>(rt: R, alloc: Global) -> Option<u64> {
    let mut objects = DiskBackend::open(alloc, FileDisk::new(rt, "objects")).ok()?;
    let key = Key::new(alloc, b"number").ok()?;
    let number = number_in(objects.get(alloc, &key).ok()?);
    let bytes = number.saturating_add(1).to_be_bytes();
    objects.put(alloc, &key, &bytes).ok()?;
    Some(number)
}

fn main(rt: HostRuntime) -> io::Result<()> {
    let alloc = rt.alloc();
    let Some(fact) = next_fact(&rt, alloc) else {
        return println!(rt; "the facts failed");
    };
    let Some(node) = next_node(&rt, alloc) else {
        return println!(rt; "the nodes failed");
    };
    let Some(object) = next_object(&rt, alloc) else {
        return println!(rt; "the objects failed");
    };
    println!(rt; "fact {fact} node {node} object {object}")
}
