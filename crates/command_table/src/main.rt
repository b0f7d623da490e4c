//! Prints the outcome of each command on an absent register, on a tombstone and on the value 76,
//! and then at each bound. The value has the stamp 1.1.2; it was rewritten, so its version is
//! 2.1.1.
#![tactic(auto)]

mod cell;
mod table;

use std::io;

fn main(rt: HostRuntime) -> io::Result<()> {
    match table::table(rt.alloc()) {
        Some(text) => print!(rt; "{text}"),
        None => println!(rt; "memory"),
    }
}
