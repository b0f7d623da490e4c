ghost use Rattle.std.specs.Prelude.{◌≡◌, ◌≢◌, ◌+◌, ◌<◌, ◌≤◌, ℕ, List, [], Option, Ok, Err, IfOk, IfErr, IfSome, IfNone, OnOk, IsErrOf, length};
ghost use Rattle.std.specs.Io.KnownBytes.{prepend_known, IsAtEnd};
ghost use Rattle.ens_base.specs.Causes.{Rose};
ghost use Rattle.environment.specs.Lines.{BeginsLong};
ghost use Rattle.schedule_input.specs.Counting.{HasCounted, WasCutOff, WasTakenTo};
ghost use Rattle.schedule_input.specs.LineReading.{ReadsAs, ReadsOn};
ghost use Rattle.scripts.specs.ClusterReading.{Refuses, of_schedule};
ghost use Rattle.scripts.specs.Scripts.{IsScript, ended, next_line, script_of};

use crate::cluster_reading::ScriptReading;
use crate::line::ScriptLine;
use ens_base::{MAX_LINES, Seq};
use environment::{Lines, Next, NextError, Source};
use schedule_text::ScheduleError;
use std::alloc::Global;

/// Why no script was read.
#[derive(Clone, Copy, Debug, PartialEq, Eq)]
pub enum ReadError {
    /// The source failed.
    Failed,
    /// The first bad line, counted from 1, and its cause, from 1 to 9 but not 3.
    Bad { line: u32, cause: u8 },
    /// Line 200,001 begins, and no line before it is bad.
    Lines,
    /// Out of memory.
    Memory,
}

impl From<NextError> for ReadError {
    ghost use Rattle.std.specs.Prelude.{◌≡◌};
    ghost use Rattle.scripts.specs.ClusterReading.{of_next};

    ghost from_gives = { λ e r. r ≡ of_next e };

    fn from(e: NextError) -> ReadError {
        match e {
            NextError::Failed => ReadError::Failed,
            NextError::Memory => ReadError::Memory,
        }
    }
}

impl From<ScheduleError> for ReadError {
    ghost use Rattle.std.specs.Prelude.{◌≡◌};
    ghost use Rattle.scripts.specs.ClusterReading.{of_schedule};

    ghost from_gives = { λ e r. r ≡ of_schedule e };

    fn from(e: ScheduleError) -> ReadError {
        match e {
            ScheduleError::Bad { line, cause } => ReadError::Bad { line, cause },
            ScheduleError::Lines => ReadError::Lines,
            ScheduleError::Memory => ReadError::Memory,
        }
    }
}

/// Reads the next line into `reading`. At the end of the source, returns what follows the last line feed.
fn take_line<S: Source>(
    alloc: Global,
    lines: &mut Lines,
    input: &mut S,
    reading: &mut ScriptReading,
) -> Result<Option<Vec<u8>>, ReadError>
    ensures line { IfOk result (λ o. IfNone o
        (ReadsOn (next_line reading.old.peers) ended (prepend_known lines.old.pending.items (S.left input.old))
        reading.old.lines.items (prepend_known lines.new.pending.items (S.left input.new)) reading.new.lines.items
        × (length reading.new.lines.items ≡ length reading.old.lines.items + 1))) }
    ensures rest { IfOk result (λ o. IfSome o
        (λ v. ReadsAs (next_line reading.old.peers) ended (prepend_known lines.old.pending.items (S.left input.old))
        reading.old.lines.items (ended reading.old.lines.items v.items)
        × IsAtEnd (prepend_known lines.new.pending.items (S.left input.new)) × (reading.new ≡ reading.old))) }
    ensures peers { reading.new.peers ≡ reading.old.peers }
    ensures stands { OnOk result (reading.old.peers ≤ 31 → IsScript reading.old.peers reading.old.lines.items → IsScript reading.old.peers reading.new.lines.items) }
    ensures bad { IfErr result (Refuses reading.old.peers (prepend_known lines.old.pending.items (S.left input.old)) reading.old.lines.items) }
    ensures later { S.fault_count input.old ≤ S.fault_count input.new }
    ensures failed { IsErrOf result ReadError.Failed → Rose (S.fault_count input.old) (S.fault_count input.new) }
    ensures held { IfOk result (λ o. IfNone o ((source : Option (List ℕ))
        → HasCounted (next_line reading.old.peers) ended [] length source lines.old.pending.items (S.left input.old)
        reading.old.lines.items → HasCounted (next_line reading.old.peers) ended [] length source
        lines.new.pending.items (S.left input.new) reading.new.lines.items)) }
    ensures taken { (source : Option (List ℕ))
        → HasCounted (next_line reading.old.peers) ended [] length source lines.old.pending.items (S.left input.old)
        reading.old.lines.items → length reading.old.lines.items < 200000
        → WasTakenTo (next_line reading.old.peers) ended [] length source (S.left input.new) }
    ensures cut { IsErrOf result ReadError.Failed → (source : Option (List ℕ))
        → HasCounted (next_line reading.old.peers) ended [] length source lines.old.pending.items (S.left input.old)
        reading.old.lines.items → length reading.old.lines.items < 200000
        → WasCutOff (next_line reading.old.peers) ended [] length source (S.left input.new) }
{
    match lines.next(alloc, input)? {
        Next::Line(line) => {
            reading.line(&line)?;
            Ok(None)
        }
        Next::Rest(rest) => Ok(Some(rest)),
        Next::TooLong => Err(long_line(reading)),
    }
}

/// Returns why the next line is rejected, which has more than 4,400 bytes.
fn long_line(reading: &ScriptReading) -> ReadError
    ensures refused { (rest : Option (List ℕ)) → BeginsLong rest → Refuses reading.now.peers rest reading.now.lines.items result }
    ensures read { result ≢ ReadError.Failed }
{
    ReadError::from(reading.long_line())
}

/// Returns the script, given what follows the last line feed.
#[tactic(auto, using(crate::proofs::Standing::ended_stands))]
fn end_of(reading: ScriptReading, rest: &[u8]) -> Result<Seq<ScriptLine>, ReadError>
    ensures ok { IfOk result (λ script. ended reading.lines.items rest.now ≡ Ok script) }
    ensures stands { IfOk result (λ script. IsScript reading.peers reading.lines.items → IsScript reading.peers script) }
    ensures bad { IfErr result (λ e. (bytes : Option (List ℕ))
        → ReadsAs (next_line reading.peers) ended bytes reading.lines.items (ended reading.lines.items rest.now)
        → Refuses reading.peers bytes reading.lines.items e) }
    ensures only { result ≢ Err ReadError.Failed }
{
    match reading.end(rest) {
        Ok(script) => Ok(script),
        Err(e) => Err(ReadError::from(e)),
    }
}

/// Reads a script for `peers` peers up to the end of the source, its first bad line, or the first byte of line
/// 200,001. Takes at most 4,401 bytes from the beginning of the first bad line on, and at most 880,200,001
/// bytes in all.
#[tactic(auto, using(crate::proofs::Standing::nothing_stands))]
pub fn read_script<S: Source>(
    alloc: Global,
    input: &mut S,
    peers: u32,
) -> Result<Seq<ScriptLine>, ReadError>
    ensures ok { IfOk result (λ script. IfSome (S.left input.old) (λ bytes. script_of peers bytes ≡ Ok script)) }
    ensures valid { peers ≤ 31 → IfOk result (IsScript peers) }
    ensures end { OnOk result (IsAtEnd (S.left input.new)) }
    ensures bad { IfErr result (Refuses peers (S.left input.old) []) }
    ensures later { S.fault_count input.old ≤ S.fault_count input.new }
    ensures failed { IsErrOf result ReadError.Failed → Rose (S.fault_count input.old) (S.fault_count input.new) }
    // However it ends, it took lines none of which is bad, and at most 4,401 bytes after them.
    ensures taken { WasTakenTo (next_line peers) ended [] length (S.left input.old) (S.left input.new) }
    // The source failed before the bytes that it gave decided anything.
    ensures cut { IsErrOf result ReadError.Failed → WasCutOff (next_line peers) ended [] length (S.left input.old) (S.left input.new) }
{
    let mut lines = Lines::new(alloc);
    let mut reading = ScriptReading::new(alloc, peers);
    for _turn in 0..MAX_LINES {
        if let Some(rest) = take_line(alloc, &mut lines, input, &mut reading)? {
            return end_of(reading, &rest);
        }
    }
    if !lines.is_end(input)? {
        return Err(ReadError::Lines);
    }
    end_of(reading, &[])
}
