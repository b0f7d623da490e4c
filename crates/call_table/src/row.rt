ghost use Rattle.std.specs.Prelude.{◌≡◌, IfOk};
ghost use Rattle.call_table.specs.Rows.{base_of, check_round, has_put};

use ens_base::{CopyError, Digest, Entry, Reply, Version};
use quorums::Round;
use std::alloc::Global;
use stored_formats::{Object, copy_object};

/// What a leader knows of a key.
#[derive(Clone, Copy, Debug, PartialEq, Eq)]
pub enum Known {
    /// Nothing is known in this epoch.
    Unknown,
    /// It is settled that the key was never written.
    Absent,
    /// This version is settled.
    Present {
        version: Version,
        /// The version of the write that gave the value.
        stamp: Version,
        /// The MD5 of the object's bytes.
        digest: Digest,
        /// Whether the key is deleted.
        tombstone: bool,
    },
}

impl Known {
    /// Returns the settled version, if there is one.
    pub fn base(self) -> Option<Version>
        ensures { result ≡ base_of self }
    {
        match self {
            Known::Unknown => None,
            Known::Absent => None,
            Known::Present { version, .. } => Some(version),
        }
    }
}

/// The greatest entry among the replies of a round, and its object if a reply had it.
#[derive(Debug, Drop)]
pub struct Found {
    pub entry: Entry,
    pub object: Option<Object>,
}

/// How far the running call of a key has come.
#[derive(Debug, Drop)]
pub enum Stage {
    /// No call is running, or the running call asks nobody.
    Idle,
    /// The members are asked, in this round, what they have of the key.
    Reading {
        round: u64,
        heard: Round,
        best: Option<Found>,
    },
    /// The members are asked, in this round, whether they still stand at the epoch, before this
    /// reply is given.
    Checking {
        round: u64,
        heard: Round,
        reply: Reply,
    },
    /// The object was put, and is not settled yet.
    Putting {
        object: Object,
        digest: Digest,
        acks: Round,
        /// Whether the put is a rewrite, and not the write of a call.
        rewrite: bool,
    },
}

fn copy_found(found: &Option<Found>, alloc: Global) -> Result<Option<Found>, CopyError>
    ensures { IfOk result (λ f. f ≡ found.now) }
{
    match found {
        None => Ok(None),
        Some(found) => Ok(Some(Found {
            entry: found.entry.copy(alloc)?,
            object: copy_object(alloc, &found.object)?,
        })),
    }
}

impl Stage {
    /// Makes a copy. Fails only when out of memory.
    pub fn copy(&self, alloc: Global) -> Result<Stage, CopyError>
        ensures { IfOk result (λ s. s ≡ self.now) }
    {
        match self {
            Stage::Idle => Ok(Stage::Idle),
            Stage::Reading { round, heard, best } => Ok(Stage::Reading {
                round: *round,
                heard: *heard,
                best: copy_found(best, alloc)?,
            }),
            Stage::Checking {
                round,
                heard,
                reply,
            } => Ok(Stage::Checking {
                round: *round,
                heard: *heard,
                reply: reply.copy(alloc)?,
            }),
            Stage::Putting {
                object,
                digest,
                acks,
                rewrite,
            } => Ok(Stage::Putting {
                object: object.copy(alloc)?,
                digest: *digest,
                acks: *acks,
                rewrite: *rewrite,
            }),
        }
    }

    /// Returns the round of the check, if this stage is a check.
    pub fn check_round(&self) -> Option<u64>
        ensures { result ≡ check_round self.now }
    {
        match self {
            Stage::Checking { round, .. } => Some(*round),
            _ => None,
        }
    }

    /// Whether a put waits for acknowledgements.
    pub fn has_put(&self) -> bool
        ensures { result ≡ has_put self.now }
    {
        match self {
            Stage::Putting { .. } => true,
            _ => false,
        }
    }
}

/// What a leader knows of a key, and how far its running call has come.
#[derive(Debug, Drop)]
pub struct KeyRow {
    pub known: Known,
    pub stage: Stage,
}
