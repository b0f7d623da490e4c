//! The program `chart`: reads a schedule from its standard input, draws the run of the schedule as a
//! Mermaid sequence diagram on its standard output, and exits with the status of `chart`.
//!
//! The contract of `chart` (`job.rt`) says what is written for each status. `specs/Lines` has the
//! lines of a chart: the messages in the order in which they were delivered or lost, and between them
//! what each step printed and how the activity of its peer changed. `specs/Notes` says how each line
//! is spelled, `specs/Text` makes one text of them, and `specs/Jobs` has the other endings.
#![tactic(auto)]

mod drawing;
mod fate;
mod job;
mod lines;
mod notes;
mod running;
mod text;

use environment::{ReaderSource, WriterSink};
use job::chart;
use std::process::ExitCode;

fn main(rt: HostRuntime) -> ExitCode {
    let alloc = rt.alloc();
    let mut input = ReaderSource::new(rt.stdin());
    let mut output = WriterSink::new(rt.stdout());
    ExitCode::from(chart(&rt, alloc, &mut input, &mut output).number())
}
