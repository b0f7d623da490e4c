ghost use Rattle.std.specs.Prelude.{◌≡◌, IfOk};

use ens_base::{Command, CopyError, Key};
use std::alloc::Global;

/// A call on the register of a key.
#[derive(Debug, PartialEq, Eq, Drop)]
pub struct Call {
    /// The id of the call. No other call has it.
    pub id: u64,
    /// The key of the register.
    pub key: Key,
    /// What the call asks of the register.
    pub command: Command,
    /// The number of the event at which the call was made.
    pub event: u64,
}

impl Call {
    /// Returns a copy. Fails only when out of memory.
    pub fn copy(&self, alloc: Global) -> Result<Call, CopyError>
        ensures { IfOk result (λ c. c ≡ self.now) }
    {
        Ok(Call {
            id: self.id,
            key: self.key.copy(alloc)?,
            command: self.command.copy(alloc)?,
            event: self.event,
        })
    }
}
