ghost use Rattle.std.specs.Prelude.{◌≡◌};
ghost use Rattle.peer_stores.specs.Stores.{hash_error as hash_error_of};
ghost use Rattle.peer_spec.specs.TreeCalls.{heard, peer_error};

use ens_base::Bytes;
use hash_book::HashError;
use step_plans::{PeerError, Walked};
use synctree::TreeError;

/// Returns the error of a peer whose tree was stopped by this error.
pub(crate) fn tree_error(error: TreeError) -> PeerError
    ensures { result ≡ peer_error error }
{
    match error {
        TreeError::Damaged(_at) => PeerError::StoreFault,
        TreeError::Failed => PeerError::StoreFault,
        TreeError::Clash { first, second } => PeerError::Clash {
            first: Bytes::new(first),
            second: Bytes::new(second),
        },
        TreeError::BookFull(kept) => PeerError::BookFull(kept),
        TreeError::Memory => PeerError::Memory,
    }
}

/// Returns damage as an answer, and any other error as an error of the peer.
fn damage<T>(error: TreeError) -> Result<Walked<T>, PeerError>
    ensures { result ≡ heard (Err error) }
{
    match error {
        TreeError::Damaged(at) => Ok(Walked::Broken(at)),
        TreeError::Failed => Err(PeerError::StoreFault),
        TreeError::Clash { first, second } => Err(PeerError::Clash {
            first: Bytes::new(first),
            second: Bytes::new(second),
        }),
        TreeError::BookFull(kept) => Err(PeerError::BookFull(kept)),
        TreeError::Memory => Err(PeerError::Memory),
    }
}

/// Returns the result of a call of the tree as a result of the stores.
pub(crate) fn walked<T>(came: Result<T, TreeError>) -> Result<Walked<T>, PeerError>
    ensures { result ≡ heard came }
{
    match came {
        Ok(found) => Ok(Walked::Reached(found)),
        Err(error) => damage(error),
    }
}

/// Returns the error of a peer for this error of a hasher.
pub(crate) fn hash_error(error: HashError) -> PeerError
    ensures { result ≡ hash_error_of error }
{
    match error {
        HashError::Clash { first, second } => PeerError::Clash {
            first: Bytes::new(first),
            second: Bytes::new(second),
        },
        HashError::BookFull(kept) => PeerError::BookFull(kept),
        HashError::Memory => PeerError::Memory,
    }
}
