ghost use Rattle.std.specs.Prelude.{◌≡◌, ◌≤◌, ◌+◌, length};
ghost use Rattle.lexemes.specs.Causes.{Gives};
ghost use Rattle.lexemes.specs.Words.{words_of};
ghost use Rattle.schedule_text.specs.Events.{line_limit, words_event};
ghost use Rattle.scripts.specs.Events.{at_of, in_ensemble, is_barred, is_early, keyword_event, own_event, root_event_of, route_of};
ghost use Rattle.scripts.specs.Keywords.{keyword_of, keyword_word, lone_cause};

use crate::call_lines::{look_line, open_line};
use crate::event::RootEvent;
use crate::keyword::Keyword;
use crate::refusal::without_line;
use crate::slots::ensemble_named;
use crate::split::{first_word, split};
use ens_base::MAX_LINE_BYTES;
use lexemes::{Cause, WordError};
use schedule_text::{ScheduleEvent, read_event};
use std::alloc::Global;

// The event that a line of a schedule spells.
fn event(alloc: Global, line: &[u8], peers: u32) -> Result<ScheduleEvent, WordError>
    requires { length line.now ≤ line_limit }
    ensures { Gives (words_event peers (words_of line.now)) result }
{
    match read_event(alloc, line, 1, peers) {
        Ok(event) => Ok(event),
        Err(e) => Err(without_line(e)),
    }
}

// Whether no event that begins with this word may stand behind `at`.
fn is_barred(word: &[u8]) -> bool
    ensures { result ≡ is_barred word.now }
{
    word == b"call".as_slice() || word == b"upgrade".as_slice() || word == b"deepen".as_slice()
}

// The event that stands behind `at` and the ensemble.
fn own_event(alloc: Global, line: &[u8], peers: u32) -> Result<ScheduleEvent, WordError>
    requires { length line.now ≤ line_limit }
    ensures { Gives (own_event peers (words_of line.now)) result }
{
    if is_barred(first_word(line)) {
        return Err(WordError::Bad(Cause::Unknown));
    }
    event(alloc, line, peers)
}

// Whether the cause is tested before the ensemble is.
fn is_early(cause: Cause) -> bool
    ensures { result ≡ is_early cause }
{
    matches!(cause, Cause::Unknown | Cause::Words)
}

// The cause of an `at` line whose event is bad for this cause.
fn first_cause(word: &[u8], cause: Cause) -> Cause
    ensures { in_ensemble word.now (Err cause) ≡ Err result }
{
    if is_early(cause) {
        return cause;
    }
    match ensemble_named(word) {
        Ok(_) => cause,
        Err(first) => first,
    }
}

// S EVENT
fn at_line(alloc: Global, words: &[u8], peers: u32) -> Result<RootEvent, WordError>
    requires { length words.now ≤ line_limit }
    ensures { Gives (at_of peers (words_of words.now)) result }
{
    let Some((word, line)) = split(words, b' ') else {
        return Err(WordError::Bad(Cause::Words));
    };
    match own_event(alloc, line, peers) {
        Ok(event) => {
            let ensemble = ensemble_named(word)?;
            Ok(RootEvent::At { ensemble, event })
        }
        Err(WordError::Bad(cause)) => Err(WordError::Bad(first_cause(word, cause))),
        Err(WordError::Memory) => Err(WordError::Memory),
    }
}

// P ID COMMAND KEY ARGS, which are the words of a call
fn route_line(alloc: Global, words: &[u8], peers: u32) -> Result<RootEvent, WordError>
    requires { 5 + length words.now ≤ line_limit }
    ensures { Gives (route_of peers (words_of words.now)) result }
{
    let mut line = Vec::from_slice(alloc, b"call ")?;
    line.extend_from_slice(words)?;
    match event(alloc, &line, peers)? {
        ScheduleEvent::Call {
            peer,
            id,
            key,
            command,
        } => Ok(RootEvent::Route {
            peer,
            id,
            key,
            command,
        }),
        _ => Err(WordError::Bad(Cause::Unknown)),
    }
}

// What is wrong with a line of one word.
fn lone_cause(word: &[u8]) -> Cause
    ensures { result ≡ lone_cause (keyword_of word.now) }
{
    match Keyword::from_word(word) {
        Some(_) => Cause::Words,
        None => Cause::Unknown,
    }
}

// The event, from the bytes behind the first word of its line.
fn keyword_event(
    alloc: Global,
    keyword: Keyword,
    words: &[u8],
    peers: u32,
) -> Result<RootEvent, WordError>
    requires { length (keyword_word keyword) + 1 + length words.now ≤ line_limit }
    ensures { Gives (keyword_event peers keyword (words_of words.now)) result }
{
    match keyword {
        Keyword::At => at_line(alloc, words, peers),
        Keyword::Open => open_line(alloc, words, peers),
        Keyword::Look => look_line(alloc, words, peers),
        Keyword::Route => route_line(alloc, words, peers),
    }
}

/// Returns the event that a line of a script spells, or its cause.
pub(crate) fn root_event(alloc: Global, line: &[u8], peers: u32) -> Result<RootEvent, WordError>
    ensures { Gives (root_event_of peers line.now) result }
{
    if line.len() > MAX_LINE_BYTES {
        return Err(WordError::Bad(Cause::TooLong));
    }
    let Some((first, words)) = split(line, b' ') else {
        return Err(WordError::Bad(lone_cause(line)));
    };
    let Some(keyword) = Keyword::from_word(first) else {
        return Err(WordError::Bad(Cause::Unknown));
    };
    keyword_event(alloc, keyword, words, peers)
}
