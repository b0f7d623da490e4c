ghost use Rattle.std.specs.Prelude.{◌≡◌, ◌≢◌, ◌≤◌, List, ℕ, IfOk, string_bytes};
ghost use Rattle.std.specs.Io.KnownBytes.{Appends};
ghost use Rattle.ens_base.specs.Causes.{Rose};
ghost use Rattle.ens_base.specs.declared.status.Status.{Status};
ghost use Rattle.environment.specs.Written.{AppendsPrefix};
ghost use Rattle.schedule_generator.specs.Generated.{generate as generated};
ghost use Rattle.schedule_text.specs.Spelling.{schedule_text};
ghost use Rattle.root.specs.ReplayJob.{EndsInSummary};
ghost use Rattle.ensemble.specs.Top.{PrintsSchedule, PrintsSummary};

use ens_base::Status;
use environment::{Sink, finish, write_all};
use root::summarize;
use schedule_generator::generate;
use schedule_input::Ending;
use schedule_text::write_schedule;
use std::alloc::{AllocError, Global};
use std::thread::Threads;

/// Returns the text of the schedule that is generated.
fn generated_text(alloc: Global, number: u64, calls: u64) -> Result<Vec<u8>, AllocError>
    requires { calls ≤ 20000 }
    ensures { IfOk result (λ text. text.items ≡ schedule_text (generated number calls)) }
{
    let schedule = generate(alloc, number, calls)?;
    match write_schedule(alloc, &schedule) {
        Ok(text) => Ok(text),
        Err(_) => Err(AllocError),
    }
}

/// Writes the schedule of 1 to 20,000 calls that is generated from a number.
pub fn print_generated<O: Sink>(alloc: Global, number: u64, calls: u64, output: &mut O) -> Status
    requires { calls ≤ 20000 }
    ensures printed { result ≢ Status.WriteFault → (text : List ℕ) × PrintsSchedule number calls result text × Appends (O.written output.old) (O.written output.new) text }
    ensures prefix { result ≡ Status.WriteFault → (status : Status) × (text : List ℕ) × PrintsSchedule number calls status text × AppendsPrefix (O.written output.old) (O.written output.new) text }
    ensures write { result ≡ Status.WriteFault → Rose (O.fault_count output.old) (O.fault_count output.new) }
{
    let Ok(text) = generated_text(alloc, number, calls) else {
        return finish(output, "memory\n", Status::Memory);
    };
    match write_all(output, &text) {
        Ok(()) => Status::Done,
        Err(_) => Status::WriteFault,
    }
}

/// Returns how a summary of the run of the generated schedule ends.
fn summary_ending<R: Threads + Sync>(
    rt: &R,
    alloc: Global,
    number: u64,
    calls: u64,
) -> Result<Ending, AllocError>
    requires { calls ≤ 20000 }
    ensures { IfOk result (λ e. EndsInSummary (generated number calls) e.status (string_bytes e.text)) }
{
    let schedule = generate(alloc, number, calls)?;
    summarize(rt, alloc, &schedule)
}

/// Writes the summary of the run of the schedule of 1 to 20,000 calls that is generated from a
/// number.
pub fn print_summary<O: Sink, R: Threads + Sync>(
    rt: &R,
    alloc: Global,
    number: u64,
    calls: u64,
    output: &mut O,
) -> Status
    requires { calls ≤ 20000 }
    ensures printed { result ≢ Status.WriteFault → (text : List ℕ) × PrintsSummary number calls result text × Appends (O.written output.old) (O.written output.new) text }
    ensures prefix { result ≡ Status.WriteFault → (status : Status) × (text : List ℕ) × PrintsSummary number calls status text × AppendsPrefix (O.written output.old) (O.written output.new) text }
    ensures write { result ≡ Status.WriteFault → Rose (O.fault_count output.old) (O.fault_count output.new) }
{
    match summary_ending(rt, alloc, number, calls) {
        Ok(ending) => finish(output, ending.text.as_str(), ending.status),
        Err(_) => finish(output, "memory\n", Status::Memory),
    }
}
