ghost use Rattle.std.specs.Prelude.{◌≡◌, ◌≢◌, ◌+◌, ◌<◌, ◌≤◌, ℕ, List, Option, IfOk, IfErr, IfSome, IfNone, OnOk, IsErrOf};
ghost use Rattle.std.specs.Io.KnownBytes.{prepend_known, IsAtEnd};
ghost use Rattle.ens_base.specs.Causes.{Rose};
ghost use Rattle.environment.specs.Lines.{BeginsLong};
ghost use Rattle.schedule_text.specs.Progress.{Blank, lines_so_far};
ghost use Rattle.schedule_text.specs.Reading.{ended, schedule_of};
ghost use Rattle.schedule_text.specs.Spelling.{IsSchedule};
ghost use Rattle.schedule_input.specs.Reading.{HasTaken, IsReached, ReadsAs, ReadsOn, Refuses, WasCutOff, WasTakenTo, of_schedule};

use ens_base::MAX_LINES;
use environment::{Lines, Next, NextError, Source};
use schedule_text::{Reading, Schedule, ScheduleError};
use std::alloc::Global;

/// Why no schedule was read.
#[derive(Clone, Copy, Debug, PartialEq, Eq)]
pub enum ReadError {
    /// The source failed.
    Failed,
    /// The first bad line, counted from 1, and its cause, from 1 to 9.
    Bad { line: u32, cause: u8 },
    /// Line 200,001 begins, and no line before it is bad.
    Lines,
    /// Out of memory.
    Memory,
}

impl From<NextError> for ReadError {
    ghost use Rattle.std.specs.Prelude.{◌≡◌};
    ghost use Rattle.schedule_input.specs.Reading.{of_next};

    ghost from_gives = { λ e r. r ≡ of_next e };

    fn from(e: NextError) -> ReadError {
        match e {
            NextError::Failed => ReadError::Failed,
            NextError::Memory => ReadError::Memory,
        }
    }
}

impl From<ScheduleError> for ReadError {
    ghost use Rattle.std.specs.Prelude.{◌≡◌};
    ghost use Rattle.schedule_input.specs.Reading.{of_schedule};

    ghost from_gives = { λ e r. r ≡ of_schedule e };

    fn from(e: ScheduleError) -> ReadError {
        match e {
            ScheduleError::Bad { line, cause } => ReadError::Bad { line, cause },
            ScheduleError::Lines => ReadError::Lines,
            ScheduleError::Memory => ReadError::Memory,
        }
    }
}

/// Reads the next line into `reading`. At the end of the source, returns what follows the last line
/// feed.
fn take_line<S: Source>(
    alloc: Global,
    lines: &mut Lines,
    input: &mut S,
    reading: &mut Reading,
) -> Result<Option<Vec<u8>>, ReadError>
    ensures line { IfOk result (λ o. IfNone o
        (ReadsOn (prepend_known lines.old.pending.items (S.left input.old)) reading.old
        (prepend_known lines.new.pending.items (S.left input.new)) reading.new
        × (lines_so_far reading.new ≡ lines_so_far reading.old + 1))) }
    ensures rest { IfOk result (λ o. IfSome o
        (λ v. ReadsAs (prepend_known lines.old.pending.items (S.left input.old)) reading.old
        (ended reading.old v.items) × IsAtEnd (prepend_known lines.new.pending.items (S.left input.new))
        × (reading.new ≡ reading.old))) }
    ensures reached { OnOk result (IsReached reading.old → IsReached reading.new) }
    ensures bad { IfErr result (Refuses (prepend_known lines.old.pending.items (S.left input.old)) reading.old) }
    ensures later { S.fault_count input.old ≤ S.fault_count input.new }
    ensures failed { IsErrOf result ReadError.Failed → Rose (S.fault_count input.old) (S.fault_count input.new) }
    ensures held { IfOk result (λ o. IfNone o ((source : Option (List ℕ))
        → HasTaken source lines.old.pending.items (S.left input.old) reading.old
        → HasTaken source lines.new.pending.items (S.left input.new) reading.new)) }
    ensures taken { (source : Option (List ℕ)) → HasTaken source lines.old.pending.items (S.left input.old) reading.old → lines_so_far reading.old < 200000 → WasTakenTo source (S.left input.new) }
    ensures cut { IsErrOf result ReadError.Failed → (source : Option (List ℕ))
        → HasTaken source lines.old.pending.items (S.left input.old) reading.old → lines_so_far reading.old < 200000
        → WasCutOff source (S.left input.new) }
{
    match lines.next(alloc, input)? {
        Next::Line(line) => {
            reading.line(&line)?;
            Ok(None)
        }
        Next::Rest(rest) => Ok(Some(rest)),
        Next::TooLong => Err(long_line(reading)),
    }
}

/// Returns why the next line is rejected, which has more than 4,400 bytes.
fn long_line(reading: &Reading) -> ReadError
    ensures refused { (rest : Option (List ℕ)) → BeginsLong rest → Refuses rest reading.now result }
    ensures read { result ≢ ReadError.Failed }
{
    ReadError::from(reading.long_line())
}

/// Reads a schedule up to the end of the source, its first bad line, or the first byte of line
/// 200,001. Takes at most 4,401 bytes from the beginning of the first bad line on, and at most
/// 880,200,001 bytes in all.
pub fn read_schedule<S: Source>(alloc: Global, input: &mut S) -> Result<Schedule, ReadError>
    ensures ok { IfOk result (λ s. IfSome (S.left input.old) (λ bytes. schedule_of bytes ≡ Ok s)) }
    ensures valid { IfOk result IsSchedule }
    ensures end { OnOk result (IsAtEnd (S.left input.new)) }
    ensures bad { IfErr result (Refuses (S.left input.old) Blank) }
    ensures later { S.fault_count input.old ≤ S.fault_count input.new }
    ensures failed { IsErrOf result ReadError.Failed → Rose (S.fault_count input.old) (S.fault_count input.new) }
    // However it ends, it took lines none of which is bad, and at most 4,401 bytes after them.
    ensures taken { WasTakenTo (S.left input.old) (S.left input.new) }
    // The source failed before the bytes that it gave decided anything.
    ensures cut { IsErrOf result ReadError.Failed → WasCutOff (S.left input.old) (S.left input.new) }
{
    let mut lines = Lines::new(alloc);
    let mut reading = Reading::new(alloc);
    for _turn in 0..MAX_LINES {
        if let Some(rest) = take_line(alloc, &mut lines, input, &mut reading)? {
            return end_of(reading, &rest);
        }
    }
    if !lines.is_end(input)? {
        return Err(ReadError::Lines);
    }
    end_of(reading, &[])
}

/// Returns the schedule, given what follows the last line feed.
fn end_of(reading: Reading, rest: &[u8]) -> Result<Schedule, ReadError>
    ensures ok { IfOk result (λ s. ended reading rest.now ≡ Ok s) }
    ensures valid { IfOk result (λ s. IsReached reading → IsSchedule s) }
    ensures bad { IfErr result (λ e. (bytes : Option (List ℕ)) → ReadsAs bytes reading (ended reading rest.now) → Refuses bytes reading e) }
    ensures only { result ≢ Err ReadError.Failed }
{
    match reading.end(rest) {
        Ok(schedule) => Ok(schedule),
        Err(e) => Err(ReadError::from(e)),
    }
}
