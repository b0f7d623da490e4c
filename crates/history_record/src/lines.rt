ghost use Rattle.std.specs.Prelude.{◌≡◌};
ghost use Rattle.schedule_text.specs.Arguments.{has_empty};
ghost use Rattle.schedule_text.specs.Texts.{texts};
ghost use Rattle.history_record.specs.Flaws.{Finds};
ghost use Rattle.history_record.specs.Lines.{
  answer_from,
  answer_of,
  change_from,
  change_of,
  history_from,
  history_of,
  ids_from,
  line_from,
  line_of,
  number,
  ok_from,
  outcome_of,
  plain,
  reply_from,
  value_from,
};

use crate::flaw::{Flaw, LineError};
use crate::reply_name::ReplyName;
use ens_base::{Reply, Seq};
use lexemes::{Cause, key, line_words, number as number_word, value, version};
use register_model::{Answer, History};
use std::alloc::Global;

/// The most bytes of a line behind the line `answers`.
pub(crate) const MOST_BYTES: usize = 8_388_608;

/// A line behind the line `answers`.
#[derive(Debug, Drop)]
pub enum RecordLine {
    /// The answer to a call.
    Answered(Answer),
    /// A peer took or refused the change of view of this event.
    Changed(u64, u64),
    /// The history of a key.
    Told(History),
}

// Whether a word is empty.
fn has_empty(words: &[&[u8]]) -> bool
    ensures { result ≡ has_empty (texts words.now) }
{
    words.iter().any(|word| word.is_empty())
}

fn number(word: &[u8]) -> Result<u64, Flaw>
    ensures { result ≡ number word.now }
{
    match number_word(word, 0, u64::MAX) {
        Ok(number) => Ok(number),
        Err(_) => Err(Flaw::Form),
    }
}

fn value_reply(alloc: Global, words: &[&[u8]]) -> Result<Reply, LineError>
    ensures { Finds (value_from (texts words.now)) result }
{
    let [stamp, bytes] = words else {
        return Err(LineError::Flawed(Flaw::Words));
    };
    let stamp = version(alloc, stamp)?;
    Ok(Reply::Value(stamp, value(alloc, bytes)?))
}

fn ok_reply(alloc: Global, words: &[&[u8]]) -> Result<Reply, LineError>
    ensures { Finds (ok_from (texts words.now)) result }
{
    let [stamp] = words else {
        return Err(LineError::Flawed(Flaw::Words));
    };
    Ok(Reply::Ok(version(alloc, stamp)?))
}

fn plain_reply(reply: Reply, words: &[&[u8]]) -> Result<Reply, LineError>
    ensures { Finds (plain reply (texts words.now)) result }
{
    if words.is_empty() {
        Ok(reply)
    } else {
        Err(LineError::Flawed(Flaw::Words))
    }
}

fn reply(alloc: Global, name: ReplyName, words: &[&[u8]]) -> Result<Reply, LineError>
    ensures { Finds (reply_from name (texts words.now)) result }
{
    match name {
        ReplyName::Value => value_reply(alloc, words),
        ReplyName::Ok => ok_reply(alloc, words),
        ReplyName::NotFound => plain_reply(Reply::NotFound, words),
        ReplyName::Failed => plain_reply(Reply::Failed, words),
        ReplyName::Unavailable => plain_reply(Reply::Unavailable, words),
        ReplyName::Busy => plain_reply(Reply::Busy, words),
        ReplyName::Lost => plain_reply(Reply::Lost, words),
        ReplyName::Timeout => plain_reply(Reply::Timeout, words),
    }
}

fn named_answer(
    alloc: Global,
    id: &[u8],
    event: &[u8],
    name: ReplyName,
    words: &[&[u8]],
) -> Result<RecordLine, LineError>
    ensures { Finds (answer_from id.now event.now name (texts words.now)) result }
{
    if words.len() != name.operand_count() {
        return Err(LineError::Flawed(Flaw::Words));
    }
    let id = number(id)?;
    let event = number(event)?;
    let reply = reply(alloc, name, words)?;
    Ok(RecordLine::Answered(Answer { id, event, reply }))
}

// ID EVENT REPLY
fn answer(alloc: Global, words: &[&[u8]]) -> Result<RecordLine, LineError>
    ensures { Finds (answer_of (texts words.now)) result }
{
    let [id, event, name, operands @ ..] = words else {
        return Err(LineError::Flawed(Flaw::Words));
    };
    if has_empty(words) {
        return Err(LineError::Flawed(Flaw::Words));
    }
    match ReplyName::from_word(name) {
        Some(name) => named_answer(alloc, id, event, name, operands),
        None => Err(LineError::Flawed(Flaw::Form)),
    }
}

// Whether the change was taken.
fn outcome(word: &[u8]) -> Result<bool, Flaw>
    ensures { result ≡ outcome_of word.now }
{
    if word == b"taken".as_slice() {
        Ok(true)
    } else if word == b"refused".as_slice() {
        Ok(false)
    } else {
        Err(Flaw::Form)
    }
}

fn change_words(event: &[u8], peer: &[u8], word: &[u8]) -> Result<RecordLine, Flaw>
    ensures { result ≡ change_from event.now peer.now word.now }
{
    let event = number(event)?;
    let peer = number(peer)?;
    let _taken = outcome(word)?;
    Ok(RecordLine::Changed(event, peer))
}

// EVENT PEER taken, or EVENT PEER refused
fn change(words: &[&[u8]]) -> Result<RecordLine, Flaw>
    ensures { result ≡ change_of (texts words.now) }
{
    match words {
        [event, peer, word] if !has_empty(words) => change_words(event, peer, word),
        _ => Err(Flaw::Words),
    }
}

fn ids(alloc: Global, words: &[&[u8]]) -> Result<Seq<u64>, LineError>
    ensures { Finds (ids_from (texts words.now)) result }
{
    let mut ids = Vec::new(alloc);
    for word in words {
        ids.push(number(word)?)?;
    }
    Ok(Seq::new(ids))
}

fn history_words(alloc: Global, key_word: &[u8], words: &[&[u8]]) -> Result<RecordLine, LineError>
    ensures { Finds (history_from key_word.now (texts words.now)) result }
{
    let key = key(alloc, key_word)?;
    let calls = ids(alloc, words)?;
    Ok(RecordLine::Told(History { key, calls }))
}

// KEY ID ..
fn history(alloc: Global, words: &[&[u8]]) -> Result<RecordLine, LineError>
    ensures { Finds (history_of (texts words.now)) result }
{
    let [first, others @ ..] = words else {
        return Err(LineError::Flawed(Flaw::Words));
    };
    if has_empty(words) {
        return Err(LineError::Flawed(Flaw::Words));
    }
    history_words(alloc, first, others)
}

fn line_behind(
    alloc: Global,
    after: bool,
    first: &[u8],
    words: &[&[u8]],
) -> Result<RecordLine, LineError>
    ensures { Finds (line_from after first.now (texts words.now)) result }
{
    if first == b"history".as_slice() {
        history(alloc, words)
    } else if after {
        Err(LineError::Flawed(Flaw::Keyword))
    } else if first == b"answer".as_slice() {
        answer(alloc, words)
    } else if first == b"change".as_slice() {
        Ok(change(words)?)
    } else {
        Err(LineError::Flawed(Flaw::Keyword))
    }
}

/// Returns what a line behind the line `answers` says. `after` says whether a history line came before.
pub(crate) fn record_line(alloc: Global, after: bool, text: &[u8]) -> Result<RecordLine, LineError>
    ensures { Finds (line_of after text.now) result }
{
    if text.len() > MOST_BYTES {
        return Err(LineError::Flawed(Flaw::Cut));
    }
    let words = line_words(alloc, text)?;
    match words.as_slice() {
        [first, others @ ..] => line_behind(alloc, after, first, others),
        [] => Err(LineError::Flawed(Flaw::Keyword)),
    }
}
