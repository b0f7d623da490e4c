ghost use Rattle.std.specs.Prelude.{◌≡◌, IfOk};

use ens_base::{Bytes, View};
use std::alloc::{AllocError, Global};

/// An ensemble, as codes name it: by its id, 16 random bytes, and its opening view. Neither ever changes.
#[derive(Clone, Copy, Debug, PartialEq, Eq)]
pub struct Ensemble {
    pub id: [u8; 16],
    pub opening: View,
}

impl Ensemble {
    ghost use Rattle.frame_codes.specs.Seals.{name_of};

    /// Returns the bytes that name the ensemble in a code: its id, how many members its opening view has,
    /// and each of them.
    pub fn name(&self, alloc: Global) -> Result<Bytes, AllocError>
        ensures { IfOk result (λ name. name ≡ name_of self.now) }
    {
        let members = self.opening.members();
        let mut name = Vec::from_slice(alloc, &self.id)?;
        name.push(members.len() as u8)?;
        name.extend_from_slice(members)?;
        Ok(Bytes::new(name))
    }
}
