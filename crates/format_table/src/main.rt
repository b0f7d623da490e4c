//! Reads bytes from the lines of its input, and prints the value that they spell, or why they spell
//! none.
//!
//! A line `frame HEX`, `fact HEX`, `object HEX`, `root HEX` or `segment HEX` names a format and the
//! bytes: a root is the root of a tree, and a segment that of the key `abc`. The lines that follow print
//! what the same bytes are with one change: `set PLACE BYTE` puts another byte at a place, `cut LENGTH`
//! leaves that many of the bytes, and `more BYTE` puts a byte behind them.
#![tactic(auto)]

mod format;
mod sample;

use sample::Sample;
use std::io;

fn main(rt: HostRuntime) -> io::Result<()> {
    let alloc = rt.alloc();
    let mut sample = Sample::empty(alloc);
    for line in rt.lines(alloc) {
        let line = line?;
        match sample.line(alloc, line.as_str()) {
            Some(text) => println!(rt; "{line}: {text}")?,
            None => println!(rt; "{line}: cannot be read")?,
        }
    }
    Ok(())
}
