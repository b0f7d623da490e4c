ghost use Rattle.std.specs.Prelude.{◌≡◌, ◌-◌, ◌<◌, ◌≤◌, ◌^◌, Option, Ok, IfOk};
ghost use Rattle.lexemes.specs.Causes.{Gives};
ghost use Rattle.schedule_text.specs.Errors.{Answers, at_line};
ghost use Rattle.schedule_text.specs.Spelling.{event_line, MayStand};
ghost use Rattle.schedule_text.specs.Texts.{texts};
ghost use Rattle.schedule_text.specs.Events.{
  tick_of,
  deliver_of,
  one_peer_of,
  two_peers_of,
  calm_of,
  change_of,
  placed_of,
  inner_of,
  revert_of,
  deepen_of,
  fail_of,
  keyword_event,
  words_event,
  event_of,
};

use crate::arguments::{first, four, none, one, some, three, two};
use crate::call_line::call;
use crate::error::ScheduleError;
use crate::event::ScheduleEvent;
use crate::keyword::{Keyword, StoreName, Survivor};
use ens_base::{Bytes, Key, MAX_LINE_BYTES, PeerId};
use lexemes::{Cause, WordError, content, key, line_words, members, number, peer, view};
use std::alloc::Global;

// P N
fn tick(words: &[&[u8]], peers: u32) -> Result<ScheduleEvent, WordError>
    ensures { Gives (tick_of peers (texts words.now)) result }
{
    let (target, ticks) = two(words)?;
    let peer = peer(target, peers)?;
    let ticks = number(ticks, 1, 100)? as u32;
    Ok(ScheduleEvent::Tick { peer, ticks })
}

// N
fn deliver(words: &[&[u8]]) -> Result<ScheduleEvent, WordError>
    ensures { Gives (deliver_of (texts words.now)) result }
{
    let message = number(one(words)?, 1, u64::MAX)?;
    Ok(ScheduleEvent::Deliver { message })
}

// P
fn one_peer(words: &[&[u8]], peers: u32) -> Result<PeerId, WordError>
    ensures { Gives (one_peer_of peers (texts words.now)) result }
{
    Ok(peer(one(words)?, peers)?)
}

// A B
fn two_peers(words: &[&[u8]], peers: u32) -> Result<(PeerId, PeerId), WordError>
    ensures { Gives (two_peers_of peers (texts words.now)) result }
{
    let (sender, receiver) = two(words)?;
    let sender = peer(sender, peers)?;
    Ok((sender, peer(receiver, peers)?))
}

// nothing, or P ..
fn calm(alloc: Global, words: &[&[u8]], peers: u32) -> Result<ScheduleEvent, WordError>
    ensures { Gives (calm_of peers (texts words.now)) result }
{
    if words.is_empty() {
        return Ok(ScheduleEvent::Calm);
    }
    let members = members(alloc, some(words)?, peers)?;
    Ok(ScheduleEvent::CalmAmong { members })
}

// P M ..
fn change(alloc: Global, words: &[&[u8]], peers: u32) -> Result<ScheduleEvent, WordError>
    ensures { Gives (change_of peers (texts words.now)) result }
{
    let (target, members) = first(words)?;
    let peer = peer(target, peers)?;
    let view = view(alloc, members, peers)?;
    Ok(ScheduleEvent::Change { peer, view })
}

// P KEY BYTES
fn placed(
    alloc: Global,
    words: &[&[u8]],
    peers: u32,
) -> Result<(PeerId, Key, Option<Bytes>), WordError>
    ensures { Gives (placed_of peers (texts words.now)) result }
{
    let (target, place, bytes) = three(words)?;
    let peer = peer(target, peers)?;
    let key = key(alloc, place)?;
    Ok((peer, key, content(alloc, bytes)?))
}

// The last index of a node at a level.
fn last_index(level: u8) -> u64
    requires { level ≤ 4 }
    ensures value { result ≡ 16 ^ level - 1 }
    ensures most { result ≤ 65535 }
{
    match level {
        0 => 0,
        1 => 15,
        2 => 255,
        3 => 4_095,
        _ => 65_535,
    }
}

// P LEVEL INDEX BYTES
fn inner(alloc: Global, words: &[&[u8]], peers: u32) -> Result<ScheduleEvent, WordError>
    ensures { Gives (inner_of peers (texts words.now)) result }
{
    let (target, level, index, bytes) = four(words)?;
    let peer = peer(target, peers)?;
    let level = number(level, 0, 4)? as u8;
    let index = number(index, 0, last_index(level))? as u32;
    let bytes = content(alloc, bytes)?;
    Ok(ScheduleEvent::Inner {
        peer,
        level,
        index,
        bytes,
    })
}

// P N
fn revert(words: &[&[u8]], peers: u32) -> Result<ScheduleEvent, WordError>
    ensures { Gives (revert_of peers (texts words.now)) result }
{
    let (target, changes) = two(words)?;
    let peer = peer(target, peers)?;
    let changes = number(changes, 1, 1_000_000)? as u32;
    Ok(ScheduleEvent::Revert { peer, changes })
}

// nothing
fn deepen(words: &[&[u8]]) -> Result<ScheduleEvent, WordError>
    ensures { Gives (deepen_of (texts words.now)) result }
{
    none(words)?;
    Ok(ScheduleEvent::Deepen)
}

// P STORE OLD
fn fail(words: &[&[u8]], peers: u32) -> Result<ScheduleEvent, WordError>
    ensures { Gives (fail_of peers (texts words.now)) result }
{
    let (target, store, survivor) = three(words)?;
    let peer = peer(target, peers)?;
    let store = StoreName::from_word(store).ok_or(Cause::Number)?;
    let survivor = Survivor::from_word(survivor).ok_or(Cause::Number)?;
    Ok(ScheduleEvent::Fail {
        peer,
        store,
        survivor,
    })
}

fn keyword_event(
    alloc: Global,
    keyword: Keyword,
    words: &[&[u8]],
    peers: u32,
) -> Result<ScheduleEvent, WordError>
    ensures { Gives (keyword_event peers keyword (texts words.now)) result }
{
    match keyword {
        Keyword::Call => call(alloc, words, peers),
        Keyword::Tick => tick(words, peers),
        Keyword::Deliver => deliver(words),
        Keyword::Pass => {
            let (sender, receiver) = two_peers(words, peers)?;
            Ok(ScheduleEvent::Pass { sender, receiver })
        }
        Keyword::Lose => {
            let (sender, receiver) = two_peers(words, peers)?;
            Ok(ScheduleEvent::Lose { sender, receiver })
        }
        Keyword::Calm => calm(alloc, words, peers),
        Keyword::Change => change(alloc, words, peers),
        Keyword::Stop => Ok(ScheduleEvent::Stop {
            peer: one_peer(words, peers)?,
        }),
        Keyword::Start => Ok(ScheduleEvent::Start {
            peer: one_peer(words, peers)?,
        }),
        Keyword::Upgrade => Ok(ScheduleEvent::Upgrade {
            peer: one_peer(words, peers)?,
        }),
        Keyword::Deepen => deepen(words),
        Keyword::Spoil => {
            let (peer, key, bytes) = placed(alloc, words, peers)?;
            Ok(ScheduleEvent::Spoil { peer, key, bytes })
        }
        Keyword::Damage => {
            let (peer, key, bytes) = placed(alloc, words, peers)?;
            Ok(ScheduleEvent::Damage { peer, key, bytes })
        }
        Keyword::Inner => inner(alloc, words, peers),
        Keyword::Revert => revert(words, peers),
        Keyword::Fail => fail(words, peers),
    }
}

fn words_event(alloc: Global, words: &[&[u8]], peers: u32) -> Result<ScheduleEvent, WordError>
    ensures { Gives (words_event peers (texts words.now)) result }
{
    let [first, rest @ ..] = words else {
        return Err(WordError::Bad(Cause::Unknown));
    };
    let Some(keyword) = Keyword::from_word(first) else {
        return Err(WordError::Bad(Cause::Unknown));
    };
    keyword_event(alloc, keyword, rest, peers)
}

/// Returns the event that a line spells, or its cause.
pub(crate) fn event(alloc: Global, line: &[u8], peers: u32) -> Result<ScheduleEvent, WordError>
    ensures { Gives (event_of peers line.now) result }
{
    if line.len() > MAX_LINE_BYTES {
        return Err(WordError::Bad(Cause::TooLong));
    }
    let words = line_words(alloc, line)?;
    words_event(alloc, words.as_slice(), peers)
}

/// Returns the event that a line spells in a schedule of `peers` peers. `number` is the number of the
/// line, which an error repeats. The causes are 1 and 4 to 8, and the first that applies is returned.
pub fn read_event(
    alloc: Global,
    bytes: &[u8],
    number: u32,
    peers: u32,
) -> Result<ScheduleEvent, ScheduleError>
    ensures exact { Answers (at_line number (event_of peers bytes.now)) result }
    // What is read is spelled so and may stand in a schedule, and what may stand is read so.
    ensures line { IfOk result (λ event. peers ≤ 31 → (bytes.now ≡ event_line event) × MayStand peers event) }
    ensures only { (event : ScheduleEvent) → peers ≤ 31 → MayStand peers event → bytes.now ≡ event_line event → Answers (Ok event) result }
{
    match event(alloc, bytes, peers) {
        Ok(event) => Ok(event),
        Err(e) => Err(ScheduleError::at(number, e)),
    }
}
