//! Measures 20,000 puts of objects of 100 bytes and of their entries in a hash tree, over stores in
//! memory and over files of the current folder, and the opening of 100,000 objects.
//!
//! Each word names a part: `memory`, `files`, `fills` (makes the file of 100,000 objects), `opens`
//! (opens it) and `removes` (removes it). Without a word all parts run. The printed counts are the
//! same on every machine; measure the time from outside.
#![tactic(auto)]

mod opening;
mod puts;

use std::{env, fs, io};

/// Returns whether the part is asked for: its name is among the words, or there is no word.
fn is_asked(words: &[String], part: &str) -> bool {
    words.len() <= 1 || words.iter().skip(1).any(|word| word.as_str() == part)
}

fn main(rt: HostRuntime) -> io::Result<()> {
    let alloc = rt.alloc();
    let Ok(args) = env::args(&rt) else {
        return println!(rt; "usage");
    };
    let Ok(words) = args.collect::<Vec<String>>(alloc) else {
        return println!(rt; "memory");
    };
    if is_asked(&words, "memory") {
        let count = puts::in_memory(alloc).unwrap_or(0);
        println!(rt; "memory {count}")?;
    }
    if is_asked(&words, "files") {
        let count = puts::on_files(&rt, alloc).unwrap_or(0);
        fs::remove_file(&rt, puts::NODES)?;
        fs::remove_file(&rt, puts::OBJECTS)?;
        println!(rt; "files {count}")?;
    }
    if is_asked(&words, "fills") {
        let count = opening::fill(&rt, alloc).unwrap_or(0);
        println!(rt; "fills {count}")?;
    }
    if is_asked(&words, "opens") {
        let size = opening::open(&rt, alloc).unwrap_or(0);
        println!(rt; "opens {size}")?;
    }
    if is_asked(&words, "removes") {
        fs::remove_file(&rt, opening::NAME)?;
    }
    Ok(())
}
