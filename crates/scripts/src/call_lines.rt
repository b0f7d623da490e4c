ghost use Rattle.std.specs.Prelude.{◌≡◌};
ghost use Rattle.schedule_text.specs.Arguments.{has_empty};
ghost use Rattle.schedule_text.specs.Texts.{texts};
ghost use Rattle.lexemes.specs.Causes.{Gives};
ghost use Rattle.lexemes.specs.Words.{words_of};
ghost use Rattle.scripts.specs.Events.{look_from, look_of, open_from, open_of};

use crate::event::RootEvent;
use crate::slots::slot;
use lexemes::{Cause, WordError, line_words, number, peer, view};
use std::alloc::Global;

// Whether a word is empty.
fn has_empty(words: &[&[u8]]) -> bool
    ensures { result ≡ has_empty (texts words.now) }
{
    words.iter().any(|word| word.is_empty())
}

// The opening of a slot, from the words of its peer, its id, its slot and its members.
fn open_from(
    alloc: Global,
    peers: u32,
    caller: &[u8],
    id: &[u8],
    key: &[u8],
    members: &[&[u8]],
) -> Result<RootEvent, WordError>
    ensures { Gives (open_from peers caller.now id.now key.now (texts members.now)) result }
{
    let peer = peer(caller, peers)?;
    let id = number(id, 0, u64::MAX)?;
    let slot = slot(key)?;
    let view = view(alloc, members, peers)?;
    Ok(RootEvent::Open {
        peer,
        id,
        slot,
        view,
    })
}

// The opening of a slot, from the words behind `open`.
fn open_words(alloc: Global, words: &[&[u8]], peers: u32) -> Result<RootEvent, WordError>
    ensures { Gives (open_of peers (texts words.now)) result }
{
    let [caller, id, key, members @ ..] = words else {
        return Err(WordError::Bad(Cause::Words));
    };
    if has_empty(words) || members.is_empty() {
        return Err(WordError::Bad(Cause::Words));
    }
    open_from(alloc, peers, caller, id, key, members)
}

/// P ID SLOT M ..
pub(crate) fn open_line(alloc: Global, words: &[u8], peers: u32) -> Result<RootEvent, WordError>
    ensures { Gives (open_of peers (words_of words.now)) result }
{
    let words = line_words(alloc, words)?;
    open_words(alloc, words.as_slice(), peers)
}

// The look at a slot, from the words of its peer, its id and its slot.
fn look_from(peers: u32, caller: &[u8], id: &[u8], key: &[u8]) -> Result<RootEvent, Cause>
    ensures { result ≡ look_from peers caller.now id.now key.now }
{
    let peer = peer(caller, peers)?;
    let id = number(id, 0, u64::MAX)?;
    let slot = slot(key)?;
    Ok(RootEvent::Look { peer, id, slot })
}

// The look at a slot, from the words behind `look`.
fn look_words(words: &[&[u8]], peers: u32) -> Result<RootEvent, Cause>
    ensures { result ≡ look_of peers (texts words.now) }
{
    match words {
        [caller, id, key] if !has_empty(words) => look_from(peers, caller, id, key),
        _ => Err(Cause::Words),
    }
}

/// P ID SLOT
pub(crate) fn look_line(alloc: Global, words: &[u8], peers: u32) -> Result<RootEvent, WordError>
    ensures { Gives (look_of peers (words_of words.now)) result }
{
    let words = line_words(alloc, words)?;
    Ok(look_words(words.as_slice(), peers)?)
}
