ghost use Rattle.std.specs.Prelude.{◌≡◌, map};
ghost use Rattle.schedule_text.specs.Errors.{Answers, at_line, error_at};
ghost use Rattle.lexemes.specs.declared.cause.WordError.TheVariants.{Bad};
ghost use Rattle.scripts.specs.Scripts.{is_scripted, line_of, scripted_of, turn_of};

use ens_base::MAX_LINE_BYTES;
use lexemes::{Cause, line_words, number};
use schedule_text::{ScheduleError, ScheduleEvent, read_event};
use std::alloc::Global;

/// The most looks of one line.
const MOST_LOOKS: u64 = 100_000;

/// A line of a script.
#[derive(Debug, Drop)]
pub enum ScriptLine {
    /// An event, which the peers take and the record keeps as it stands.
    Event(ScheduleEvent),
    /// So many looks for messages, 1 to 100,000.
    Turn(u32),
}

/// Returns whether an event of a script begins with this word.
fn is_event(word: &[u8]) -> bool
    ensures { result ≡ is_scripted word.now }
{
    word == b"call".as_slice()
        || word == b"tick".as_slice()
        || word == b"change".as_slice()
        || word == b"stop".as_slice()
        || word == b"start".as_slice()
}

/// Returns how often a line `turn` looks, given the words behind that word.
fn turn(words: &[&[u8]]) -> Result<ScriptLine, Cause>
    ensures { result ≡ turn_of (map (λ word. word.now) words.now) }
{
    match words {
        [count] if !count.is_empty() => {
            let looks = number(count, 1, MOST_LOOKS)?;
            Ok(ScriptLine::Turn(looks as u32))
        }
        _ => Err(Cause::Words),
    }
}

/// Returns the event that the bytes spell, as a line of a script.
fn event(alloc: Global, bytes: &[u8], place: u32, peers: u32) -> Result<ScriptLine, ScheduleError>
    ensures { Answers (at_line place (scripted_of peers bytes.now)) result }
{
    match read_event(alloc, bytes, place, peers) {
        Ok(event) => Ok(ScriptLine::Event(event)),
        Err(e) => Err(e),
    }
}

/// Returns the line of a script of `peers` peers that the bytes spell. `place` is the number of the line, which
/// an error repeats. The causes are 1 and 4 to 8, and the first that applies is returned.
pub(crate) fn read_line(
    alloc: Global,
    bytes: &[u8],
    place: u32,
    peers: u32,
) -> Result<ScriptLine, ScheduleError>
    ensures { Answers (at_line place (line_of peers bytes.now)) result }
{
    if bytes.len() > MAX_LINE_BYTES {
        return Err(bad(place, Cause::TooLong));
    }
    let Ok(words) = line_words(alloc, bytes) else {
        return Err(ScheduleError::Memory);
    };
    match words.as_slice() {
        [first, rest @ ..] if *first == b"turn".as_slice() => match turn(rest) {
            Ok(line) => Ok(line),
            Err(cause) => Err(bad(place, cause)),
        },
        [first, ..] if is_event(first) => event(alloc, bytes, place, peers),
        _ => Err(bad(place, Cause::Unknown)),
    }
}

/// Returns the error of a bad line.
pub(crate) fn bad(line: u32, cause: Cause) -> ScheduleError
    ensures { result ≡ error_at line (Bad cause) }
{
    ScheduleError::Bad {
        line,
        cause: cause.number(),
    }
}
