ghost use Rattle.std.specs.Prelude.{◌≡◌, ◌≢◌, List, ℕ, Option, IfOk, IfSome};
ghost use Rattle.std.specs.Io.KnownBytes.{Appends, IsAtEnd};
ghost use Rattle.ens_base.specs.Causes.{Rose};
ghost use Rattle.ens_base.specs.declared.status.Status.{Status};
ghost use Rattle.environment.specs.Written.{AppendsPrefix};
ghost use Rattle.history_record.specs.Reading.{first_stage};
ghost use Rattle.history_record.specs.Records.{IsRecord};
ghost use Rattle.audit.specs.Reading.{IsLike, Refuses, WasCutOff, WasTakenTo};
ghost use Rattle.audit.specs.Printed.{IsReportText, PrintsReport};

use crate::auditing::audit;
use crate::ending::unread;
use crate::read::{ReadError, read_record};
use crate::text::report_text;
use ens_base::Status;
use environment::{Sink, Source, finish, write_all};
use history_record::{AuditError, Record};
use std::alloc::{AllocError, Global};

/// How an audit ends: its status, and the text that it prints.
#[derive(Drop)]
struct Audited {
    status: Status,
    text: Vec<u8>,
}

/// Returns the text of the report on a record.
fn text_of_report(alloc: Global, recorded: &Record) -> Result<Vec<u8>, AuditError>
    requires { IsRecord recorded.now }
    ensures { IfOk result (λ text. IsReportText recorded.now text.items) }
{
    let report = audit(alloc, recorded)?;
    report_text(alloc, &report)
}

/// Returns how an audit ends that read a record like this one. Fails when out of memory.
fn read_ending(alloc: Global, recorded: &Record) -> Result<Audited, AllocError>
    requires { IsRecord recorded.now }
    ensures printed { IfOk result (λ a. (source : Option (List ℕ)) → IfSome source (λ bytes. IsLike bytes recorded.now) → PrintsReport source a.status a.text.items) }
    ensures status { IfOk result (λ a. a.status ≡ Status.Done) }
{
    match text_of_report(alloc, recorded) {
        Ok(text) => Ok(Audited {
            status: Status::Done,
            text,
        }),
        Err(_) => Err(AllocError),
    }
}

/// Returns how an audit ends that read no record. Fails when out of memory.
fn unread_ending(alloc: Global, error: ReadError) -> Result<Audited, AllocError>
    ensures printed { IfOk result (λ a. (source : Option (List ℕ)) → Refuses source first_stage error → PrintsReport source a.status a.text.items) }
    ensures status { IfOk result (λ a. (a.status ≢ Status.Done) × (a.status ≡ Status.ReadFault → error ≡ ReadError.Failed)) }
{
    let ending = unread(alloc, error)?;
    Ok(Audited {
        status: ending.status,
        text: ending.text.into_bytes(),
    })
}

/// Returns how an audit of the input ends. Fails when out of memory.
fn audit_ending<S: Source>(alloc: Global, input: &mut S) -> Result<Audited, AllocError>
    ensures printed { IfOk result (λ a. PrintsReport (S.left input.old) a.status a.text.items) }
    ensures end { IfOk result (λ a. a.status ≡ Status.Done → IsAtEnd (S.left input.new)) }
    ensures read { IfOk result (λ a. a.status ≡ Status.ReadFault → Rose (S.fault_count input.old) (S.fault_count input.new)) }
    ensures cut { IfOk result (λ a. a.status ≡ Status.ReadFault → WasCutOff (S.left input.old) (S.left input.new)) }
    ensures taken { WasTakenTo (S.left input.old) (S.left input.new) }
{
    match read_record(alloc, input) {
        Ok(record) => read_ending(alloc, &record),
        Err(error) => unread_ending(alloc, error),
    }
}

/// Writes the text with which an audit ends. Returns the status, or `WriteFault` if the output failed; then a
/// prefix of the text was written.
fn write_ending<O: Sink>(output: &mut O, audited: &Audited) -> Status
    requires { audited.now.status ≢ Status.WriteFault }
    ensures written { result ≢ Status.WriteFault → (result ≡ audited.now.status) × Appends (O.written output.old) (O.written output.new) audited.now.text.items }
    ensures prefix { result ≡ Status.WriteFault → AppendsPrefix (O.written output.old) (O.written output.new) audited.now.text.items }
    ensures failed { result ≡ Status.WriteFault → Rose (O.fault_count output.old) (O.fault_count output.new) }
{
    match write_all(output, &audited.text) {
        Ok(()) => audited.status,
        Err(_) => Status::WriteFault,
    }
}

/// Reads a record from the input, and writes the report on its histories to the output. Returns the status.
///
/// A job that ends in any other way writes one line: `read fault` if the input failed, `schedule LINE CAUSE` if
/// the input is not a record, `limit lines 200000` if its schedule has too many lines, and `memory` when out of
/// memory. If the output failed, a prefix was written of the text with which the job would otherwise have
/// ended.
pub fn print_report<S: Source, O: Sink>(alloc: Global, input: &mut S, output: &mut O) -> Status
    ensures printed { result ≢ Status.WriteFault → (text : List ℕ) × PrintsReport (S.left input.old) result text × Appends (O.written output.old) (O.written output.new) text }
    ensures prefix { result ≡ Status.WriteFault → (status : Status) × (text : List ℕ)
        × PrintsReport (S.left input.old) status text × (status ≡ Status.Done → IsAtEnd (S.left input.new))
        × (status ≡ Status.ReadFault → Rose (S.fault_count input.old) (S.fault_count input.new))
        × (status ≡ Status.ReadFault → WasCutOff (S.left input.old) (S.left input.new))
        × AppendsPrefix (O.written output.old) (O.written output.new) text }
    ensures end { result ≡ Status.Done → IsAtEnd (S.left input.new) }
    ensures read { result ≡ Status.ReadFault → Rose (S.fault_count input.old) (S.fault_count input.new) }
    // The input failed before the bytes that it gave decided anything.
    ensures cut { result ≡ Status.ReadFault → WasCutOff (S.left input.old) (S.left input.new) }
    // However it ends, it took lines none of which is bad, and after them at most one byte more than the next line
    // may have.
    ensures taken { WasTakenTo (S.left input.old) (S.left input.new) }
    ensures write { result ≡ Status.WriteFault → Rose (O.fault_count output.old) (O.fault_count output.new) }
{
    match audit_ending(alloc, input) {
        Ok(audited) => write_ending(output, &audited),
        Err(_) => finish(output, "memory\n", Status::Memory),
    }
}
