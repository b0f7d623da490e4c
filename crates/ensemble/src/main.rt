//! The program `ensemble`: passes its arguments, its standard input and output, the files of the
//! current folder, its sockets and the clock to `run_program`, and exits with the status that this
//! returns.
//!
//! `run_program` passes the words after the name of the program to `ensemble_main`. For the arguments
//! `replay` and `cluster`, `ensemble_main` guarantees that every history it prints is legal; for `peer`,
//! that it serves as the protocol defines. The clauses of both stand in `top.rt`; the definitions that
//! they cite stand in `specs/Top` and `specs/Peers`, and in the crates replay, cluster and peer_server.
#![tactic(auto)]

mod arguments;
mod generating;
mod laws;
mod system;
mod top;

use arguments::all_arguments;
use ens_base::Status;
use environment::{ReaderSource, WriterSink, finish};
use std::env;
use std::process::ExitCode;
use system::{disks_of, job_of, link_of, stand_in, ticker_of};
use top::run_program;

fn main(rt: HostRuntime) -> ExitCode {
    let alloc = rt.alloc();
    // Where this fails, no file of a peer can be opened either.
    let _held = stand_in(&rt);
    let mut input = ReaderSource::new(rt.stdin());
    let mut output = WriterSink::new(rt.stdout());
    let all = all_arguments(alloc, env::args(&rt));
    let Ok(job) = job_of(alloc, &all) else {
        return ExitCode::from(finish(&mut output, "memory\n", Status::Memory).number());
    };
    let mut link = link_of(&rt, job);
    let mut disks = disks_of(&rt);
    let mut ticker = ticker_of(&rt);
    let status = run_program(
        &rt,
        alloc,
        &all,
        &mut input,
        &mut output,
        &mut link,
        &mut disks,
        &mut ticker,
    );
    ExitCode::from(status.number())
}
