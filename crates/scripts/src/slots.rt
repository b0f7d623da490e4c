ghost use Rattle.std.specs.Prelude.{◌≡◌};
ghost use Rattle.scripts.specs.Events.{ensemble_of, slot_of};

use lexemes::{Cause, number};

/// The root ensemble, or the ensemble of a slot, from 0 to 63.
#[derive(Clone, Copy, Debug, PartialEq, Eq)]
pub enum Ensemble {
    Root,
    Slot(u8),
}

/// The slot that a word names.
pub(crate) fn slot(word: &[u8]) -> Result<u8, Cause>
    ensures { result ≡ slot_of word.now }
{
    let slot = number(word, 0, 63)?;
    Ok(slot as u8)
}

/// The ensemble that a word names.
pub(crate) fn ensemble_named(word: &[u8]) -> Result<Ensemble, Cause>
    ensures { result ≡ ensemble_of word.now }
{
    if word.is_empty() {
        return Err(Cause::Words);
    }
    if word == b"r".as_slice() {
        return Ok(Ensemble::Root);
    }
    let slot = slot(word)?;
    Ok(Ensemble::Slot(slot))
}
