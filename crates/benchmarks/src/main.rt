//! Measures the speed of the decoder of frames, of the reader and writer of schedules, of the test
//! whether an order is a run of one register, of a leader's table, and of the hash tree.
//!
//! Each word names a part: `frames`, `schedules`, `runs`, `leaders`, and of the tree `inserts`, `gets`,
//! `scans` and `builds`. Without a word all parts run. The tree has version one and 20,000 entries, which
//! are scanned and built 20 times; with the word `two` it has version two, and with `many` it has 200,000
//! entries, which are scanned and built twice. The printed counts are the same on every machine; measure
//! the time from outside.
#![tactic(auto)]

mod frames;
mod leaders;
mod runs;
mod schedules;
mod trees;

use std::{env, io};
use tree_node::TreeVersion;
use trees::Case;

/// Returns whether this is one of the words behind the name of the program.
fn has(words: &[String], name: &str) -> bool {
    words.iter().skip(1).any(|word| word.as_str() == name)
}

/// Returns whether the part is asked for: its name is among the words, or there is no word.
fn is_asked(words: &[String], part: &str) -> bool {
    words.len() <= 1 || has(words, part)
}

/// Returns the tree that the words ask for.
fn case_of(words: &[String]) -> Case {
    let (entries, rounds) = if has(words, "many") {
        (200_000, 2)
    } else {
        (20_000, 20)
    };
    let version = if has(words, "two") {
        TreeVersion::Two
    } else {
        TreeVersion::One
    };
    Case {
        version,
        entries,
        rounds,
    }
}

fn main(rt: HostRuntime) -> io::Result<()> {
    let alloc = rt.alloc();
    let Ok(args) = env::args(&rt) else {
        return println!(rt; "usage");
    };
    let Ok(words) = args.collect::<Vec<String>>(alloc) else {
        return println!(rt; "memory");
    };
    if is_asked(&words, "frames") {
        let (beats, calls) = frames::measure(alloc);
        println!(rt; "beats {beats} calls {calls}")?;
    }
    if is_asked(&words, "schedules") {
        match schedules::measure(alloc) {
            Ok((events, same)) => println!(rt; "events {events} same {same}")?,
            Err(_) => println!(rt; "memory")?,
        }
    }
    if is_asked(&words, "runs") {
        match runs::measure(alloc) {
            Some((orders, runs, same, long)) => {
                println!(rt; "orders {orders} runs {runs} same {same} long {long}")?
            }
            None => println!(rt; "memory")?,
        }
    }
    if is_asked(&words, "leaders") {
        let (keys, batches) = leaders::measure(alloc).unwrap_or((0, 0));
        println!(rt; "keys {keys} batches {batches}")?;
    }
    let case = case_of(&words);
    for part in trees::PARTS {
        if is_asked(&words, part) {
            let count = trees::measure(&rt, alloc, part, case).unwrap_or(0);
            println!(rt; "{part} {count}")?;
        }
    }
    Ok(())
}
