ghost use Rattle.std.specs.Prelude.{◌≡◌, IfOk};

use crate::position::Position;
use ens_base::{CopyError, Digest, Entry, Seq};
use std::alloc::Global;

/// The result of a scan of a whole tree: the entries of all segments that verify, in the order of their
/// keys, and the positions nearest the root that do not verify.
#[derive(Debug, Drop)]
pub struct Scan {
    pub entries: Seq<Entry>,
    pub damaged: Seq<Position>,
}

/// What a peer sends of a node that it was asked for.
#[derive(Debug, Drop)]
pub enum TreeBody {
    /// An inner node: the mask of its children, bit c for child c, and their digests, that of the lowest
    /// bit first.
    Inner { mask: u16, digests: Seq<Digest> },
    /// Entries of a segment in the order of their keys, at most 32, and whether more follow.
    Page { entries: Seq<Entry>, more: bool },
    /// The node does not verify, or one above it: the position of that one.
    Damaged(Position),
}

fn copy_entries(entries: &Seq<Entry>, alloc: Global) -> Result<Seq<Entry>, CopyError>
    ensures { IfOk result (λ s. s ≡ entries.now) }
{
    let mut copies = Vec::new(alloc);
    for entry in entries.as_slice() {
        match copies.push(entry.copy(alloc)?) {
            Ok(()) => {}
            Err(_) => return Err(CopyError::Memory),
        }
    }
    Ok(Seq::new(copies))
}

fn copy_digests(digests: &Seq<Digest>, alloc: Global) -> Result<Seq<Digest>, CopyError>
    ensures { IfOk result (λ s. s ≡ digests.now) }
{
    Ok(Seq::new(Vec::from_slice(alloc, digests.as_slice())?))
}

impl TreeBody {
    /// An equal body.
    pub fn copy(&self, alloc: Global) -> Result<TreeBody, CopyError>
        ensures { IfOk result (λ b. b ≡ self.now) }
    {
        match self {
            TreeBody::Inner { mask, digests } => Ok(TreeBody::Inner {
                mask: *mask,
                digests: copy_digests(digests, alloc)?,
            }),
            TreeBody::Page { entries, more } => Ok(TreeBody::Page {
                entries: copy_entries(entries, alloc)?,
                more: *more,
            }),
            TreeBody::Damaged(position) => Ok(TreeBody::Damaged(*position)),
        }
    }
}
