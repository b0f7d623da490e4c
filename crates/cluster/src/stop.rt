ghost use Rattle.std.specs.Prelude.{◌≡◌};
ghost use Rattle.cluster.specs.declared.stop.Stop.TheVariants.{World as OfWorld, Link as OfLink};
ghost use Rattle.world_model.specs.declared.error.WorldError.TheVariants.{Memory};

use environment::LinkError;
use std::alloc::AllocFailed;
use world_model::WorldError;

/// Why a recording stopped before the end of its script.
#[derive(Debug, Drop)]
pub(crate) enum Stop {
    /// Line 200,001 of the recorded schedule would begin.
    Lines,
    /// The world did not open, or did not apply a line.
    World(WorldError),
    /// A look failed, or a message was not handed to the link.
    Link(LinkError),
}

impl From<WorldError> for Stop {
    ghost from_gives = { λ e r. r ≡ OfWorld e };

    fn from(e: WorldError) -> Stop {
        Stop::World(e)
    }
}

impl From<LinkError> for Stop {
    ghost from_gives = { λ e r. r ≡ OfLink e };

    fn from(e: LinkError) -> Stop {
        Stop::Link(e)
    }
}

impl<T: Drop> From<AllocFailed<T>> for Stop {
    ghost from_gives = { λ _ r. r ≡ OfWorld Memory };

    fn from(_e: AllocFailed<T>) -> Stop {
        Stop::World(WorldError::Memory)
    }
}
