ghost use Rattle.std.specs.Prelude.{◌≡◌, ◌≢◌, ◌+◌, ◌≤◌, ℕ, List, Option, Ok, Err, length, IfOk, IfErr, IfSome, IfNone, OnOk, IsErrOf};
ghost use Rattle.std.specs.Io.KnownBytes.{prepend_known, IsAtEnd};
ghost use Rattle.ens_base.specs.Causes.{Rose};
ghost use Rattle.history_record.specs.Reading.{end_stage, first_stage, lines_of, most_in};
ghost use Rattle.history_record.specs.Records.{IsRecord};
ghost use Rattle.audit.specs.Lines.{BeginsLong};
ghost use Rattle.audit.specs.Reading.{HasTaken, IsLike, ReadsAs, ReadsOn, Refuses, WasCutOff, WasTakenTo};

use crate::lines::RecordLines;
use environment::{Next, NextError, Source};
use history_record::{AuditError, Record, RecordReading};
use std::alloc::Global;

/// No record has more lines than these.
const LIMIT: u32 = 800_005;

/// Why no record was read.
#[derive(Clone, Copy, Debug, PartialEq, Eq)]
pub enum ReadError {
    /// The source failed.
    Failed,
    /// The first bad line, counted from 1, and its cause, from 1 to 16.
    Bad { line: u32, cause: u8 },
    /// Line 200,001 begins and is not `answers`, and no line before it is bad.
    Lines,
    /// Out of memory.
    Memory,
}

impl From<NextError> for ReadError {
    ghost use Rattle.std.specs.Prelude.{◌≡◌};
    ghost use Rattle.audit.specs.Reading.{of_next};

    ghost from_gives = { λ e r. r ≡ of_next e };

    fn from(e: NextError) -> ReadError {
        match e {
            NextError::Failed => ReadError::Failed,
            NextError::Memory => ReadError::Memory,
        }
    }
}

impl From<AuditError> for ReadError {
    ghost use Rattle.std.specs.Prelude.{◌≡◌};
    ghost use Rattle.audit.specs.Reading.{of_audit};

    ghost from_gives = { λ e r. r ≡ of_audit e };

    fn from(e: AuditError) -> ReadError {
        match e {
            AuditError::Bad { line, cause } => ReadError::Bad { line, cause },
            AuditError::Lines => ReadError::Lines,
            AuditError::Memory => ReadError::Memory,
        }
    }
}

/// Reads the next line into `reading`. At the end of the source, returns what follows the last line feed.
fn take_line<S: Source>(
    alloc: Global,
    lines: &mut RecordLines,
    input: &mut S,
    reading: &mut RecordReading,
) -> Result<Option<Vec<u8>>, ReadError>
    requires { length lines.old.pending.items ≤ most_in reading.old + 1 }
    ensures line { IfOk result (λ o. IfNone o (ReadsOn (prepend_known lines.old.pending.items (S.left input.old)) reading.old (prepend_known lines.new.pending.items (S.left input.new)) reading.new)) }
    ensures count { IfOk result (λ o. IfNone o ((lines_of reading.new ≡ lines_of reading.old + 1) × (lines_of reading.new ≤ 800004))) }
    ensures rest { IfOk result (λ o. IfSome o
        (λ v. ReadsAs (prepend_known lines.old.pending.items (S.left input.old)) reading.old
        (end_stage reading.old v.items) × IsAtEnd (prepend_known lines.new.pending.items (S.left input.new))
        × (reading.new ≡ reading.old))) }
    ensures bad { IfErr result (Refuses (prepend_known lines.old.pending.items (S.left input.old)) reading.old) }
    ensures later { S.fault_count input.old ≤ S.fault_count input.new }
    ensures failed { IsErrOf result ReadError.Failed → Rose (S.fault_count input.old) (S.fault_count input.new) }
    ensures few { OnOk result (length lines.new.pending.items ≤ most_in reading.new + 1) }
    ensures taken { (source : Option (List ℕ)) → HasTaken source lines.old.pending.items (S.left input.old) reading.old → WasTakenTo source (S.left input.new) }
    ensures held { IfOk result (λ o. IfNone o ((source : Option (List ℕ))
        → HasTaken source lines.old.pending.items (S.left input.old) reading.old
        → HasTaken source lines.new.pending.items (S.left input.new) reading.new)) }
    ensures cut { IsErrOf result ReadError.Failed → (source : Option (List ℕ)) → HasTaken source lines.old.pending.items (S.left input.old) reading.old → WasCutOff source (S.left input.new) }
{
    match lines.next(alloc, input, reading.most_bytes())? {
        Next::Line(line) => {
            reading.line(&line)?;
            Ok(None)
        }
        Next::Rest(rest) => Ok(Some(rest)),
        Next::TooLong => Err(long_line(reading)),
    }
}

/// Returns why the next line is rejected, which has more bytes than a line may have here.
fn long_line(reading: &RecordReading) -> ReadError
    ensures refused { (rest : Option (List ℕ)) → BeginsLong (most_in reading.now) rest → Refuses rest reading.now result }
    ensures read { result ≢ ReadError.Failed }
{
    ReadError::from(reading.long_line())
}

/// Returns the record, given what follows the last line feed.
fn end_of(reading: RecordReading, rest: &[u8]) -> Result<Record, ReadError>
    ensures ok { IfOk result (λ r. end_stage reading rest.now ≡ Ok r) }
    ensures record { IfOk result IsRecord }
    ensures bad { IfErr result (λ e. (bytes : Option (List ℕ)) → ReadsAs bytes reading (end_stage reading rest.now) → Refuses bytes reading e) }
    ensures only { result ≢ Err ReadError.Failed }
{
    match reading.end(rest) {
        Ok(record) => Ok(record),
        Err(e) => Err(ReadError::from(e)),
    }
}

/// Reads a record up to the end of the source, its first bad line, or the first byte of a line 200,001 that
/// is not `answers`. A history with a stray id keeps that id alone, so that all histories together take little
/// memory beside the schedule, however long their lines are; the report on the record stays the same.
pub fn read_record<S: Source>(alloc: Global, input: &mut S) -> Result<Record, ReadError>
    ensures ok { IfOk result (λ r. IfSome (S.left input.old) (λ bytes. IsLike bytes r)) }
    ensures record { IfOk result IsRecord }
    ensures end { OnOk result (IsAtEnd (S.left input.new)) }
    ensures bad { IfErr result (Refuses (S.left input.old) first_stage) }
    ensures later { S.fault_count input.old ≤ S.fault_count input.new }
    ensures failed { IsErrOf result ReadError.Failed → Rose (S.fault_count input.old) (S.fault_count input.new) }
    // However it ends, it took lines none of which is bad, and after them at most one byte more than the next line
    // may have.
    ensures taken { WasTakenTo (S.left input.old) (S.left input.new) }
    // The source failed before the bytes that it gave decided anything.
    ensures cut { IsErrOf result ReadError.Failed → WasCutOff (S.left input.old) (S.left input.new) }
{
    let mut lines = RecordLines::new(alloc);
    let mut reading = RecordReading::new(alloc);
    for _turn in 0..LIMIT {
        if let Some(rest) = take_line(alloc, &mut lines, input, &mut reading)? {
            return end_of(reading, &rest);
        }
        reading.shorten()?;
    }
    unreachable!()
}
