use crate::trees::{MemTree, entry, fresh, insert};
use ens_base::Entry;
use hash_book::PlainHasher;
use std::alloc::Global;
use std::test::Fail;
use std::thread::Threads;
use tree_exchange::{Ask, AskError, Step, give};
use tree_node::{Scan, TreeVersion};
use tree_repair::{NoGate, scan};

/// 33 keys whose MD5s begin with 900, in ascending order: one more than a page holds. Found with
/// another program.
const KEYS: [&str; 33] = [
    "abc", "aird", "amld", "atpm", "auwy", "avu", "baxg", "blre", "brz", "bule", "bvbw", "bxp",
    "bznj", "cdhj", "chvu", "cria", "cznl", "dbst", "dkfu", "drme", "dsbn", "duro", "dvtr", "ecqa",
    "ermm", "fmow", "fuqi", "gnfr", "gruj", "hjfb", "hnrr", "hxhk", "hyam",
];

/// A tree of the keys 0 to `count` - 1, of one byte each.
fn numbers(alloc: Global, count: u8) -> Result<MemTree, Fail> {
    let mut tree = fresh(alloc, TreeVersion::One)?;
    for key in 0..count {
        insert(alloc, &mut tree, &entry(alloc, &[key], 1)?)?;
    }
    Ok(tree)
}

/// A tree of the keys that begin with 900.
fn one_segment(alloc: Global) -> Result<MemTree, Fail> {
    let mut tree = fresh(alloc, TreeVersion::One)?;
    for key in KEYS {
        insert(alloc, &mut tree, &entry(alloc, key.as_bytes(), 1)?)?;
    }
    Ok(tree)
}

/// Answers the open question from the other tree. Drops one for a level that a tree does not have.
fn answer(
    alloc: Global,
    ask: &mut Ask,
    own: &mut MemTree,
    scan: &Scan,
    other: &mut MemTree,
) -> Result<Step, AskError> {
    let question = match ask.question() {
        Some(question) => question.copy(alloc)?,
        None => return Ok(Step::Done),
    };
    let level = question.position.level;
    if level > own.version().levels() || level > other.version().levels() {
        return Ok(Step::Dropped);
    }
    let body = give(alloc, other, &mut PlainHasher, &question)?;
    ask.take(alloc, own, scan, &mut PlainHasher, &question, &body)
}

/// What an ask came to: how many entries it had after each answer, and the bytes of their keys.
#[derive(Drop)]
struct Asked {
    counts: Vec<usize>,
    keys: Vec<u8>,
}

fn keys_of(alloc: Global, entries: &[Entry]) -> Result<Vec<u8>, Fail> {
    let mut keys = Vec::new(alloc);
    for entry in entries {
        keys.extend_from_slice(entry.key.bytes())?;
    }
    Ok(keys)
}

/// Asks the other tree until nothing is left to ask, or 200 questions were answered.
fn ask_all(
    alloc: Global,
    own: &mut MemTree,
    scan: &Scan,
    other: &mut MemTree,
) -> Result<Asked, Fail> {
    let mut ask = Ask::start(alloc);
    let mut counts = Vec::new(alloc);
    for _ in 0..200u32 {
        if ask.question().is_some() {
            answer(alloc, &mut ask, own, scan, other)?;
            counts.push(ask.entries().len())?;
        }
    }
    Ok(Asked {
        counts,
        keys: keys_of(alloc, ask.entries())?,
    })
}

/// Scans the own tree, and asks the other one.
fn scan_and_ask<R: Threads + Sync>(
    rt: &R,
    alloc: Global,
    mut own: MemTree,
    mut other: MemTree,
) -> Result<Asked, Fail> {
    let found = scan(rt, alloc, &mut own, &mut PlainHasher, &NoGate)?;
    ask_all(alloc, &mut own, &found, &mut other)
}

/// Equal trees ask for the root alone. Where 40 of 100 keys are missing, each stands in a segment of its
/// own: 40 segments under 15 children of the root, in 39 nodes of the second level. A segment of 33
/// entries comes in two pages.
#[test]
fn an_ask_receives_what_the_own_tree_lacks(rt: HostRuntime) -> Result<(), Fail> {
    let alloc = rt.alloc();
    for (own, other, questions) in [(20u8, 20u8, 1usize), (60, 100, 95)] {
        let asked = scan_and_ask(&rt, alloc, numbers(alloc, own)?, numbers(alloc, other)?)?;
        let mut keys = asked.keys;
        keys.sort()?;
        assert!(rt; asked.counts.len() == questions && keys.iter().copied().eq(own..other));
    }
    let asked = scan_and_ask(
        &rt,
        alloc,
        fresh(alloc, TreeVersion::One)?,
        one_segment(alloc)?,
    )?;
    assert!(rt; asked.counts.as_slice() == [0, 0, 0, 32, 33].as_slice());
    assert!(rt; asked.keys.as_slice() == KEYS.concat(alloc)?.as_bytes());
    Ok(())
}
