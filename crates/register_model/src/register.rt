ghost use Rattle.std.specs.Prelude.{◌≡◌, IfOk};

use ens_base::{CopyError, Value, Version};
use std::alloc::Global;

/// The content of a key: absent, or a value under the stamp of the write that gave it.
#[derive(Debug, PartialEq, Eq, Drop)]
pub enum Register {
    /// The key holds nothing.
    Absent,
    /// The key holds this value, written under this stamp.
    Present(Version, Value),
}

impl Register {
    /// Returns a copy. Fails only when out of memory.
    pub fn copy(&self, alloc: Global) -> Result<Register, CopyError>
        ensures { IfOk result (λ r. r ≡ self.now) }
    {
        match self {
            Register::Absent => Ok(Register::Absent),
            Register::Present(stamp, value) => Ok(Register::Present(*stamp, value.copy(alloc)?)),
        }
    }
}
