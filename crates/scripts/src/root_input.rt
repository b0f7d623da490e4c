ghost use Rattle.std.specs.Prelude.{◌≡◌, ◌≢◌, ◌+◌, ◌<◌, ◌≤◌, ℕ, List, Option, IfOk, IfErr, IfSome, IfNone, OnOk, IsErrOf};
ghost use Rattle.std.specs.Io.KnownBytes.{prepend_known, IsAtEnd};
ghost use Rattle.ens_base.specs.Causes.{Rose};
ghost use Rattle.environment.specs.Lines.{BeginsLong};
ghost use Rattle.schedule_input.specs.Counting.{HasCounted, IsReached};
ghost use Rattle.schedule_input.specs.LineReading.{ReadsAs, ReadsOn};
ghost use Rattle.scripts.specs.Progress.{Blank, lines_so_far};
ghost use Rattle.scripts.specs.RootReading.{ended, next_line, script_of};
ghost use Rattle.scripts.specs.Spelling.{IsScript};
ghost use Rattle.scripts.specs.RootInput.{Refuses, WasCutOff, WasTakenTo};

use crate::root_reading::RootReading;
use crate::script::RootScript;
use ens_base::MAX_LINES;
use environment::{Lines, Next, Source};
use schedule_input::ReadError;
use std::alloc::Global;

/// Reads the next line into `reading`. At the end of the source, returns what follows the last line
/// feed.
fn take_line<S: Source>(
    alloc: Global,
    lines: &mut Lines,
    input: &mut S,
    reading: &mut RootReading,
) -> Result<Option<Vec<u8>>, ReadError>
    ensures line { IfOk result (λ o. IfNone o
        (ReadsOn next_line ended (prepend_known lines.old.pending.items (S.left input.old)) reading.old
        (prepend_known lines.new.pending.items (S.left input.new)) reading.new
        × (lines_so_far reading.new ≡ lines_so_far reading.old + 1))) }
    ensures rest { IfOk result (λ o. IfSome o
        (λ v. ReadsAs next_line ended (prepend_known lines.old.pending.items (S.left input.old)) reading.old
        (ended reading.old v.items) × IsAtEnd (prepend_known lines.new.pending.items (S.left input.new))
        × (reading.new ≡ reading.old))) }
    ensures reached { OnOk result (IsReached next_line ended Blank reading.old → IsReached next_line ended Blank reading.new) }
    ensures bad { IfErr result (Refuses (prepend_known lines.old.pending.items (S.left input.old)) reading.old) }
    ensures later { S.fault_count input.old ≤ S.fault_count input.new }
    ensures failed { IsErrOf result ReadError.Failed → Rose (S.fault_count input.old) (S.fault_count input.new) }
    ensures held { IfOk result (λ o. IfNone o ((source : Option (List ℕ))
        → HasCounted next_line ended Blank lines_so_far source lines.old.pending.items (S.left input.old)
        reading.old → HasCounted next_line ended Blank lines_so_far source lines.new.pending.items
        (S.left input.new) reading.new)) }
    ensures taken { (source : Option (List ℕ))
        → HasCounted next_line ended Blank lines_so_far source lines.old.pending.items (S.left input.old)
        reading.old → lines_so_far reading.old < 200000 → WasTakenTo source (S.left input.new) }
    ensures cut { IsErrOf result ReadError.Failed → (source : Option (List ℕ))
        → HasCounted next_line ended Blank lines_so_far source lines.old.pending.items (S.left input.old)
        reading.old → lines_so_far reading.old < 200000 → WasCutOff source (S.left input.new) }
{
    match lines.next(alloc, input)? {
        Next::Line(line) => {
            reading.line(&line)?;
            Ok(None)
        }
        Next::Rest(rest) => Ok(Some(rest)),
        Next::TooLong => Err(long_line(reading)),
    }
}

/// Returns why the next line is rejected, which has more than 4,400 bytes.
fn long_line(reading: &RootReading) -> ReadError
    ensures refused { (rest : Option (List ℕ)) → BeginsLong rest → Refuses rest reading.now result }
    ensures read { result ≢ ReadError.Failed }
{
    ReadError::from(reading.long_line())
}

/// Reads a script up to the end of the source, its first bad line, or the first byte of line
/// 200,001. Takes at most 4,401 bytes from the beginning of the first bad line on, and at most
/// 880,200,001 bytes in all.
pub fn read_root_script<S: Source>(alloc: Global, input: &mut S) -> Result<RootScript, ReadError>
    ensures ok { IfOk result (λ s. IfSome (S.left input.old) (λ bytes. script_of bytes ≡ Ok s)) }
    ensures valid { IfOk result IsScript }
    ensures end { OnOk result (IsAtEnd (S.left input.new)) }
    ensures bad { IfErr result (Refuses (S.left input.old) Blank) }
    ensures later { S.fault_count input.old ≤ S.fault_count input.new }
    ensures failed { IsErrOf result ReadError.Failed → Rose (S.fault_count input.old) (S.fault_count input.new) }
    // However it ends, it took lines none of which is bad, and at most 4,401 bytes after them.
    ensures taken { WasTakenTo (S.left input.old) (S.left input.new) }
    // The source failed before the bytes that it gave decided anything.
    ensures cut { IsErrOf result ReadError.Failed → WasCutOff (S.left input.old) (S.left input.new) }
{
    let mut lines = Lines::new(alloc);
    let mut reading = RootReading::new(alloc);
    for _turn in 0..MAX_LINES {
        if let Some(rest) = take_line(alloc, &mut lines, input, &mut reading)? {
            return end_of(reading, &rest);
        }
    }
    if !lines.is_end(input)? {
        return Err(ReadError::Lines);
    }
    end_of(reading, &[])
}

/// Returns the script, given what follows the last line feed.
fn end_of(reading: RootReading, rest: &[u8]) -> Result<RootScript, ReadError>
    ensures ok { IfOk result (λ s. ended reading rest.now ≡ Ok s) }
    ensures valid { IfOk result (λ s. IsReached next_line ended Blank reading → IsScript s) }
    ensures bad { IfErr result (λ e. (bytes : Option (List ℕ)) → ReadsAs next_line ended bytes reading (ended reading rest.now) → Refuses bytes reading e) }
    ensures only { result ≢ Err ReadError.Failed }
{
    match reading.end(rest) {
        Ok(script) => Ok(script),
        Err(e) => Err(ReadError::from(e)),
    }
}
