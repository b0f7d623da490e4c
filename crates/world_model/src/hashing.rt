ghost use Rattle.std.specs.Prelude.{◌∷◌, [], IfErr, OnOk};
ghost use Rattle.world_spec.specs.Held.{HasHashed, account};
ghost use Rattle.world_model.specs.Refusals.{IsCutOff};

use crate::error::WorldError;
use ens_base::Bytes;
use hash_book::{HashError, Hasher16};
use std::alloc::Global;

/// Hashes a string that a line names.
pub(crate) fn hash<H: Hasher16>(
    alloc: Global,
    hasher: &mut H,
    bytes: &[u8],
) -> Result<(), WorldError>
    ensures ok { OnOk result (HasHashed (bytes.now ∷ []) (account H.kept H.clashes H.fulls hasher.old) (account H.kept H.clashes H.fulls hasher.new)) }
    ensures err { IfErr result (IsCutOff (bytes.now ∷ []) (account H.kept H.clashes H.fulls hasher.old) (account H.kept H.clashes H.fulls hasher.new)) }
{
    match hasher.digest(alloc, bytes) {
        Ok(_digest) => Ok(()),
        Err(HashError::Clash { first, second }) => Err(WorldError::Clash {
            first: Bytes::new(first),
            second: Bytes::new(second),
        }),
        Err(HashError::BookFull(kept)) => Err(WorldError::BookFull(kept)),
        Err(HashError::Memory) => Err(WorldError::Memory),
    }
}
