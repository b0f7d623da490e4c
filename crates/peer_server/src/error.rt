ghost use Rattle.std.specs.Prelude.{◌≡◌};
ghost use Rattle.peer_server.specs.Faults.{keep_status, link_status, peer_status, status_of, store_status};

use environment::{LinkError, StoreError};
use fact_store::KeepError;
use step_plans::PeerError;

/// Why a peer stopped before its last turn.
#[derive(Clone, Copy, Debug, PartialEq, Eq)]
pub(crate) enum ServeError {
    /// A disk failed, the file of facts holds no fact, or it has its last serial number.
    Store,
    /// The link failed.
    Link,
    /// Out of memory.
    Memory,
}

/// Translates the error of a step or a start. A hasher that keeps nothing refuses nothing.
pub(crate) fn peer_error(error: PeerError) -> ServeError
    ensures { status_of result ≡ peer_status error }
{
    match error {
        PeerError::StoreFault | PeerError::BadFact(_) | PeerError::Halted => ServeError::Store,
        PeerError::Clash { .. } | PeerError::BookFull(_) | PeerError::Memory => ServeError::Memory,
    }
}

/// Translates the error of a link.
pub(crate) fn link_error(error: LinkError) -> ServeError
    ensures { status_of result ≡ link_status error }
{
    match error {
        LinkError::Failed => ServeError::Link,
        LinkError::Memory => ServeError::Memory,
    }
}

/// Translates the error of opening a store.
pub(crate) fn store_error(error: StoreError) -> ServeError
    ensures { status_of result ≡ store_status error }
{
    match error {
        StoreError::Failed => ServeError::Store,
        StoreError::Memory => ServeError::Memory,
    }
}

/// Translates the error of opening the file of facts.
pub(crate) fn keep_error(error: KeepError) -> ServeError
    ensures { status_of result ≡ keep_status error }
{
    match error {
        KeepError::Failed | KeepError::Bad(_) => ServeError::Store,
        KeepError::Memory => ServeError::Memory,
    }
}
