ghost use Rattle.world_spec.specs.HeldLaws.{AreApart, AreBeyond, AreDetermined, AreKeptOnce};
ghost use Rattle.peer_state.specs.declared.state.State.{State};

use hash_book::Hasher16;

/// Over stores in memory a plan has one run, which is the function `run`: however a call was
/// answered or refused, the ending, the stores and the notes are those of `run`, and the hasher took
/// the strings of `run`, unless the run was out of memory or the hasher rejected the next of them.
pub fn runs_are_determined<H: Hasher16>()
    ensures { AreDetermined State H }
{}

/// If a hasher that kept nothing has taken some strings, and it says what it keeps, no two different
/// strings of these have the same MD5.
pub fn taken_strings_are_apart()
    ensures { AreApart }
{}

/// If a hasher that kept nothing has taken some strings, and it says what it keeps, then it keeps each
/// of them once, and they have no more bytes than its limit. If one of them did not fit, they have
/// more, each counted once.
pub fn strings_fill_a_book_once()
    ensures taken { AreKeptOnce }
    ensures filled { AreBeyond }
{}
