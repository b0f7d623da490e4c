ghost use Rattle.std.specs.Prelude.{◌≡◌};
ghost use Rattle.history_scribe.specs.Marks.{key_of, mark_of};

use ens_base::{Key, Version};
use register_model::Note;

/// The content of a note, without its key.
#[derive(Clone, Copy, Debug, PartialEq, Eq)]
pub enum Mark {
    /// A version was proposed, with its parent, and with the call that it is the write of unless it
    /// is a rewrite.
    Proposed {
        version: Version,
        parent: Option<Version>,
        call: Option<u64>,
    },
    /// A quorum acknowledged the version.
    Settled(Version),
    /// The call was answered from the base, without a write.
    Read {
        id: u64,
        base: Option<Version>,
    },
}

/// Returns the key of a note.
pub fn key_of(note: &Note) -> &Key
    ensures { result.now ≡ key_of note.now }
{
    match note {
        Note::Proposed { key, .. } => key,
        Note::Settled { key, .. } => key,
        Note::Read { key, .. } => key,
    }
}

/// Returns the content of a note, without its key.
pub fn mark_of(note: &Note) -> Mark
    ensures { result ≡ mark_of note.now }
{
    match note {
        Note::Proposed {
            version,
            parent,
            call,
            ..
        } => Mark::Proposed {
            version: *version,
            parent: *parent,
            call: *call,
        },
        Note::Settled { version, .. } => Mark::Settled(*version),
        Note::Read { id, base, .. } => Mark::Read {
            id: *id,
            base: *base,
        },
    }
}
