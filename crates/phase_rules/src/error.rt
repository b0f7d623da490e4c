ghost use Rattle.std.specs.Prelude.{◌≡◌};
ghost use Rattle.phase_rules.specs.declared.error.PhaseError.TheVariants.{Memory};

use ens_base::CopyError;

/// Why a rule did not answer.
#[derive(Clone, Copy, Debug, PartialEq, Eq)]
pub enum PhaseError {
    /// Out of memory.
    Memory,
}

impl From<CopyError> for PhaseError {
    ghost from_gives = { λ _ e. e ≡ Memory };

    fn from(_e: CopyError) -> PhaseError {
        PhaseError::Memory
    }
}
