ghost use Rattle.std.specs.Prelude.{◌≡◌, IfOk};
ghost use Rattle.call_table.specs.Calls.{is_due};

use ens_base::{Command, CopyError, Key};
use std::alloc::Global;

/// An unanswered call.
#[derive(Debug, Drop)]
pub struct Waiting {
    /// The caller.
    pub from: u32,
    /// The number of the call.
    pub id: u64,
    pub key: Key,
    pub command: Command,
    /// The number of ticks that it has waited, up to 255.
    pub age: u8,
}

/// A call that is due.
#[derive(Debug, Drop)]
pub struct DueCall {
    pub from: u32,
    pub id: u64,
    /// Its key, if it is the running call of the key.
    pub running: Option<Key>,
}

impl Waiting {
    /// The number of ticks after which a call is due.
    pub const LIMIT: u8 = 8;

    /// Makes a copy. Fails only when out of memory.
    pub fn copy(&self, alloc: Global) -> Result<Waiting, CopyError>
        ensures { IfOk result (λ w. w ≡ self.now) }
    {
        Ok(Waiting {
            from: self.from,
            id: self.id,
            key: self.key.copy(alloc)?,
            command: self.command.copy(alloc)?,
            age: self.age,
        })
    }

    /// Whether it is due: it has waited for at least 8 ticks.
    pub fn is_due(&self) -> bool
        ensures { result ≡ is_due self.now }
    {
        self.age >= Waiting::LIMIT
    }
}
