ghost use Rattle.std.specs.Prelude.{◌≡◌};
ghost use Rattle.step_plans.specs.declared.error.PeerError.TheVariants.{Memory};

use ens_base::{Bytes, CopyError};
use leader_output::LeadError;
use phase_rows::FactError;
use std::alloc::{AllocError, AllocFailed};

/// Why a peer did not start, or did not take a step.
#[derive(Debug, PartialEq, Eq, Drop)]
pub enum PeerError {
    /// A store failed: its count of faults rose in this call.
    StoreFault,
    /// Two different strings have the same digest: the one kept, and the new one.
    Clash { first: Bytes, second: Bytes },
    /// The book of hashes would pass its limit with the new string. Holds the number of bytes kept.
    BookFull(u64),
    /// Out of memory.
    Memory,
    /// An earlier error halted the peer.
    Halted,
    /// The saved record is not a fact, for this reason. Only a start returns this error.
    BadFact(FactError),
}

impl From<AllocError> for PeerError {
    ghost from_gives = { λ _ e. e ≡ Memory };

    fn from(_e: AllocError) -> PeerError {
        PeerError::Memory
    }
}

impl<T: Drop> From<AllocFailed<T>> for PeerError {
    ghost from_gives = { λ _ e. e ≡ Memory };

    fn from(_e: AllocFailed<T>) -> PeerError {
        PeerError::Memory
    }
}

impl From<CopyError> for PeerError {
    ghost from_gives = { λ _ e. e ≡ Memory };

    fn from(_e: CopyError) -> PeerError {
        PeerError::Memory
    }
}

impl From<LeadError> for PeerError {
    ghost from_gives = { λ _ e. e ≡ Memory };

    fn from(_e: LeadError) -> PeerError {
        PeerError::Memory
    }
}
