//! The program `trace`: reads a schedule from its standard input, writes each message that the run
//! of the schedule sends to its standard output, one line a message, and exits with the status of
//! `trace`. With the word `names` each line ends with the label of its message.
//!
//! The contract of `trace` (`job.rt`) says what is written for each status. The definitions stand
//! in `specs/Jobs` and `specs/Text`, and `specs/Words` says what the words ask for.
#![tactic(auto)]

mod job;
mod text;
mod words;

use ens_base::Status;
use environment::{ReaderSource, WriterSink, finish};
use job::trace;
use std::env;
use std::io::ErrorKind;
use std::process::ExitCode;
use words::names_asked;

fn main(rt: HostRuntime) -> ExitCode {
    let alloc = rt.alloc();
    let mut input = ReaderSource::new(rt.stdin());
    let mut output = WriterSink::new(rt.stdout());
    let args = match env::args(&rt) {
        Ok(args) => args.collect::<Vec<String>>(alloc).ok(),
        Err(error) if error.kind() == ErrorKind::OutOfMemory => None,
        Err(_) => return ExitCode::from(finish(&mut output, "usage\n", Status::Usage).number()),
    };
    let status = match args.map(|words| names_asked(&words)) {
        None => finish(&mut output, "memory\n", Status::Memory),
        Some(None) => finish(&mut output, "usage\n", Status::Usage),
        Some(Some(names)) => trace(&rt, alloc, names, &mut input, &mut output),
    };
    ExitCode::from(status.number())
}
