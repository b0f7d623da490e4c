ghost use Rattle.std.specs.Prelude.{◌≡◌, ◌==◌, ◌<◌, ◌∷◌, [], length, position, IfOk, MatchOption};
ghost use Rattle.lexemes.specs.Words.{parts_of};
ghost use Rattle.schedule_text.specs.Errors.{Answers};
ghost use Rattle.schedule_text.specs.Reading.{schedule_of};
ghost use Rattle.schedule_text.specs.Spelling.{schedule_text, IsSchedule};

use crate::error::ScheduleError;
use crate::reading::Reading;
use crate::schedule::Schedule;
use std::alloc::Global;

// Where the first line feed stands.
fn find_feed(text: &[u8]) -> Option<usize>
    ensures { result ≡ position (λ b. b == 10) text.now }
{
    text.iter().position(|b| *b == b'\n')
}

// The first line and what follows its line feed, where there is a line feed.
fn split_line(text: &[u8]) -> Option<(&[u8], &[u8])>
    ensures parts { MatchOption result (parts_of 10 text.now ≡ text.now ∷ []) (λ x. parts_of 10 text.now ≡ x.0.now ∷ parts_of 10 x.1.now) }
    ensures less { MatchOption result (Unit {0}) (λ x. length x.1.now < length text.now) }
{
    match find_feed(text) {
        Some(at) => Some((&text[..at], &text[at + 1..])),
        None => None,
    }
}

/// Reads the text line by line.
pub(crate) fn read_lines(alloc: Global, bytes: &[u8]) -> Result<Schedule, ScheduleError>
    ensures { Answers (schedule_of bytes.now) result }
{
    let mut reading = Reading::new(alloc);
    let mut rest = bytes;
    while let Some((line, more)) = split_line(rest) {
        match reading.line(line) {
            Ok(()) => rest = more,
            Err(e) => return Err(e),
        }
    }
    reading.end(rest)
}

/// Returns the schedule that the text spells, or the number of the first bad line and its cause. A text
/// in which line 200,001 begins, and no line before it is bad, has too many lines.
pub fn read_schedule(alloc: Global, bytes: &[u8]) -> Result<Schedule, ScheduleError>
    ensures exact { Answers (schedule_of bytes.now) result }
    // What is read may be written, and what is written is the text.
    ensures text { IfOk result (λ s. schedule_text s ≡ bytes.now) }
    ensures schedule { IfOk result IsSchedule }
{
    read_lines(alloc, bytes)
}
