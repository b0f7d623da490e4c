ghost use Rattle.std.specs.Prelude.{◌≡◌, IfOk};
ghost use Rattle.schedule_text.specs.Errors.{Answers};
ghost use Rattle.scripts.specs.RootReading.{script_of};
ghost use Rattle.scripts.specs.Spelling.{script_text, IsScript};

use crate::root_reading::RootReading;
use crate::script::RootScript;
use crate::split::split;
use schedule_text::ScheduleError;
use std::alloc::Global;

// Reads the text line by line.
fn read_lines(alloc: Global, bytes: &[u8]) -> Result<RootScript, ScheduleError>
    ensures { Answers (script_of bytes.now) result }
{
    let mut reading = RootReading::new(alloc);
    let mut rest = bytes;
    while let Some((line, more)) = split(rest, b'\n') {
        match reading.line(line) {
            Ok(()) => rest = more,
            Err(e) => return Err(e),
        }
    }
    reading.end(rest)
}

/// Returns the script that the text spells, or the number of the first bad line and its cause, from 1 to 9
/// as in a schedule. A text in which line 200,001 begins, and no line before it is bad, has too many lines.
pub fn read_root(alloc: Global, bytes: &[u8]) -> Result<RootScript, ScheduleError>
    ensures exact { Answers (script_of bytes.now) result }
    // What is read is spelled so.
    ensures text { IfOk result (λ s. script_text s ≡ bytes.now) }
    ensures script { IfOk result IsScript }
{
    read_lines(alloc, bytes)
}
