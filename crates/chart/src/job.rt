ghost use Rattle.std.specs.Prelude.{◌≡◌, ◌≢◌, ℕ, List, Option, Ok, IfOk, IfSome, MatchOption, None, string_bytes};
ghost use Rattle.std.specs.Io.KnownBytes.{Appends, IsAtEnd};
ghost use Rattle.ens_base.specs.Causes.{Rose};
ghost use Rattle.ens_base.specs.declared.status.Status.{Status};
ghost use Rattle.environment.specs.Written.{AppendsPrefix};
ghost use Rattle.world_spec.specs.Lines.{run_of_schedule};
ghost use Rattle.world_spec.specs.Messages.{IsPastMessages, IsWithinMessages};
ghost use Rattle.schedule_input.specs.Reading.{WasCutOff, WasTakenTo};
ghost use Rattle.schedule_input.specs.Premise.{first_unsound};
ghost use Rattle.schedule_text.specs.Reading.{schedule_of};
ghost use Rattle.schedule_text.specs.Spelling.{IsSchedule};
ghost use Rattle.chart.specs.Jobs.{Charts};
ghost use Rattle.chart.specs.Text.{chart_text as text_of_chart};

use crate::running::run_lines;
use crate::text::chart_text;
use ens_base::Status;
use environment::{Sink, Source, finish};
use hash_book::PlainHasher;
use schedule_input::{Ending, read_schedule};
use schedule_text::Schedule;
use std::alloc::{AllocError, Global};
use std::thread::Threads;
use world_model::WorldError;

/// Returns the chart of the run of a schedule, or `None` if the run would send more than 500,000
/// messages.
fn run_text<R: Threads + Sync>(
    rt: &R,
    alloc: Global,
    schedule: &Schedule,
) -> Result<Option<String>, AllocError>
    requires { IsSchedule schedule.now }
    ensures { IfOk result (λ o. MatchOption o
        (IsPastMessages (run_of_schedule schedule.now.form schedule.now.peers schedule.now.view
        schedule.now.events)) (λ text. IsWithinMessages
        (run_of_schedule schedule.now.form schedule.now.peers schedule.now.view schedule.now.events)
        × (string_bytes text ≡ text_of_chart schedule.now))) }
{
    let mut hasher = PlainHasher;
    match run_lines(rt, alloc, schedule, &mut hasher) {
        Ok(lines) => Ok(Some(chart_text(alloc, schedule.peers, lines.all())?)),
        Err(WorldError::MessageLimit) => Ok(None),
        Err(WorldError::Memory) => Err(AllocError),
        Err(WorldError::Clash { .. } | WorldError::BookFull(_)) => unreachable!(),
    }
}

/// Returns the ending with the chart of a sound schedule, or with the limit that its run exceeds.
fn sound_ending<R: Threads + Sync>(
    rt: &R,
    alloc: Global,
    schedule: &Schedule,
) -> Result<Ending, AllocError>
    requires valid { IsSchedule schedule.now }
    requires sound { first_unsound schedule.now ≡ None }
    ensures printed { IfOk result (λ e. (source : Option (List ℕ)) → IfSome source (λ bytes. schedule_of bytes ≡ Ok schedule.now) → Charts source e.status (string_bytes e.text)) }
    ensures status { IfOk result (λ e. e.status ≢ Status.ReadFault) }
{
    match run_text(rt, alloc, schedule)? {
        Some(text) => Ok(Ending {
            status: Status::Done,
            text,
        }),
        None => Ending::new(alloc, Status::Limit, "limit messages 500000\n"),
    }
}

/// Returns the ending with the chart of a schedule, or with the reason why there is none.
fn run_ending<R: Threads + Sync>(
    rt: &R,
    alloc: Global,
    schedule: &Schedule,
) -> Result<Ending, AllocError>
    requires { IsSchedule schedule.now }
    ensures printed { IfOk result (λ e. (source : Option (List ℕ)) → IfSome source (λ bytes. schedule_of bytes ≡ Ok schedule.now) → Charts source e.status (string_bytes e.text)) }
    ensures status { IfOk result (λ e. e.status ≢ Status.ReadFault) }
{
    match Ending::unsound(alloc, schedule)? {
        Some(ending) => Ok(ending),
        None => sound_ending(rt, alloc, schedule),
    }
}

/// Returns the ending of a chart of the input. Fails when out of memory.
#[tactic(auto, using(crate::proofs::Unread::unread_charts))]
fn chart_ending<S: Source, R: Threads + Sync>(
    rt: &R,
    alloc: Global,
    input: &mut S,
) -> Result<Ending, AllocError>
    ensures printed { IfOk result (λ e. Charts (S.left input.old) e.status (string_bytes e.text)) }
    ensures end { IfOk result (λ e. e.status ≡ Status.Done → IsAtEnd (S.left input.new)) }
    ensures read { IfOk result (λ e. e.status ≡ Status.ReadFault → Rose (S.fault_count input.old) (S.fault_count input.new)) }
    ensures cut { IfOk result (λ e. e.status ≡ Status.ReadFault → WasCutOff (S.left input.old) (S.left input.new)) }
    ensures taken { WasTakenTo (S.left input.old) (S.left input.new) }
{
    match read_schedule(alloc, input) {
        Ok(schedule) => run_ending(rt, alloc, &schedule),
        Err(error) => Ending::unread(alloc, error),
    }
}

/// Reads a schedule from the input, runs it, and writes the run to the output as a Mermaid sequence
/// diagram. Returns the status. The chart shows each message when it is delivered or lost, the answers
/// beside the peer that gives them, the lines of the schedule that are about one peer, and what each
/// peer is doing whenever that changes; at the end the messages that still wait. It is cut after 500
/// lines.
///
/// A chart that ends in any other way writes one line: `read fault` if the input failed, `schedule
/// LINE CAUSE` if the input is not a schedule, `limit lines 200000` if it has too many lines,
/// `premise VIEW reverted MEMBERS` if at least half of the members of a view are reverted, `limit
/// messages 500000` if its run would send more messages, and `memory` when out of memory. If the
/// output fails, a prefix of the text was written.
pub fn chart<S: Source, O: Sink, R: Threads + Sync>(
    rt: &R,
    alloc: Global,
    input: &mut S,
    output: &mut O,
) -> Status
    ensures printed { result ≢ Status.WriteFault → (text : List ℕ) × Charts (S.left input.old) result text × Appends (O.written output.old) (O.written output.new) text }
    ensures prefix { result ≡ Status.WriteFault → (status : Status) × (text : List ℕ)
        × Charts (S.left input.old) status text × (status ≡ Status.Done → IsAtEnd (S.left input.new))
        × (status ≡ Status.ReadFault → Rose (S.fault_count input.old) (S.fault_count input.new)
        × WasCutOff (S.left input.old) (S.left input.new))
        × AppendsPrefix (O.written output.old) (O.written output.new) text }
    ensures end { result ≡ Status.Done → IsAtEnd (S.left input.new) }
    ensures read { result ≡ Status.ReadFault → Rose (S.fault_count input.old) (S.fault_count input.new) }
    // The input failed before the bytes that it gave decided anything.
    ensures cut { result ≡ Status.ReadFault → WasCutOff (S.left input.old) (S.left input.new) }
    // However it ends, it took lines none of which is bad, and at most 4,401 bytes after them.
    ensures taken { WasTakenTo (S.left input.old) (S.left input.new) }
    ensures write { result ≡ Status.WriteFault → Rose (O.fault_count output.old) (O.fault_count output.new) }
{
    match chart_ending(rt, alloc, input) {
        Ok(ending) => finish(output, ending.text.as_str(), ending.status),
        Err(_) => finish(output, "memory\n", Status::Memory),
    }
}
