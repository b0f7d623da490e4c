ghost use Rattle.std.specs.Prelude.{map};
ghost use Rattle.lexemes.specs.Causes.{Gives};
ghost use Rattle.lexemes.specs.Words.{members_of, view_of};

use crate::cause::{Cause, WordError};
use crate::numbers::number_within;
use ens_base::{PeerId, Seq, View};
use std::alloc::Global;

// The greatest number of a peer in a view.
const MOST_PEERS: u32 = 31;

/// Returns the members that the words name: numbers from 1 to `peers`, each greater than the one before.
/// Rejects any other list with the cause `Peers`.
pub fn members(alloc: Global, words: &[&[u8]], peers: u32) -> Result<Seq<PeerId>, WordError>
    ensures { Gives (members_of peers (map (λ word. word.now) words.now)) result }
{
    let mut members = Vec::new(alloc);
    let mut low: u64 = 1;
    for word in words {
        let Some(member) = number_within(word, low, u64::from(peers)) else {
            return Err(WordError::Bad(Cause::Peers));
        };
        members.push(PeerId(member as u32))?;
        low = member + 1;
    }
    Ok(Seq::new(members))
}

/// Returns the view that the words name: 1 to 9 numbers from 1 to `peers`, and at most 31, each greater
/// than the one before. Rejects any other list with the cause `Peers`.
pub fn view(alloc: Global, words: &[&[u8]], peers: u32) -> Result<View, WordError>
    ensures { Gives (view_of peers (map (λ word. word.now) words.now)) result }
{
    let members = members(alloc, words, peers.min(MOST_PEERS))?;
    match View::new(members.as_slice()) {
        Ok(view) => Ok(view),
        Err(_) => Err(WordError::Bad(Cause::Peers)),
    }
}
