ghost use Rattle.std.specs.Prelude.{◌≡◌};
ghost use Rattle.lexemes.specs.Causes.{Gives};
ghost use Rattle.lexemes.specs.Words.{words_of};
ghost use Rattle.schedule_text.specs.Reading.{peers_of, opening_of};
ghost use Rattle.schedule_text.specs.Texts.{texts};

use ens_base::View;
use lexemes::{Cause, WordError, line_words, number, view};
use std::alloc::Global;

// What the second line says.
fn peers_from(words: &[&[u8]]) -> Result<u32, Cause>
    ensures { result ≡ peers_of (texts words.now) }
{
    let [first, count] = words else {
        return Err(Cause::Heading);
    };
    if *first != b"peers".as_slice() {
        return Err(Cause::Heading);
    }
    match number(count, 1, 31) {
        Ok(peers) => Ok(peers as u32),
        Err(_) => Err(Cause::Heading),
    }
}

/// The number of peers, from the second line.
pub(crate) fn peers_line(alloc: Global, line: &[u8]) -> Result<u32, WordError>
    ensures { Gives (peers_of (words_of line.now)) result }
{
    let words = line_words(alloc, line)?;
    Ok(peers_from(words.as_slice())?)
}

// What the third line says.
fn view_from(alloc: Global, words: &[&[u8]], peers: u32) -> Result<View, WordError>
    ensures { Gives (opening_of peers (texts words.now)) result }
{
    let [first, members @ ..] = words else {
        return Err(WordError::Bad(Cause::Heading));
    };
    if *first != b"view".as_slice() {
        return Err(WordError::Bad(Cause::Heading));
    }
    match view(alloc, members, peers) {
        Ok(view) => Ok(view),
        Err(WordError::Memory) => Err(WordError::Memory),
        Err(WordError::Bad(_)) => Err(WordError::Bad(Cause::Heading)),
    }
}

/// The view that the peers open with, from the third line.
pub(crate) fn view_line(alloc: Global, line: &[u8], peers: u32) -> Result<View, WordError>
    ensures { Gives (opening_of peers (words_of line.now)) result }
{
    let words = line_words(alloc, line)?;
    view_from(alloc, words.as_slice(), peers)
}
