ghost use Rattle.std.specs.Prelude.{◌≡◌, IfOk};

use crate::copy_error::CopyError;
use crate::epoch::Version;
use crate::value::Value;
use std::alloc::Global;

/// What a call asks of the register of its key. A stamp is the version under which a register was
/// last written.
#[derive(Debug, PartialEq, Eq, Drop)]
pub enum Command {
    /// Reads the value.
    Get,
    /// Writes the value if the register is absent.
    PutOnce(Value),
    /// Writes the value if the register has this stamp.
    Update(Version, Value),
    /// Appends the bytes to the value.
    Append(Value),
    /// Adds to the value, which must be a big-endian number of 8 bytes.
    Add(u64),
    /// Writes the second value if the register holds the first.
    Swap(Value, Value),
    /// Writes the value, whatever the register holds.
    Over(Value),
    /// Makes the register absent, whatever it holds.
    Delete,
}

impl Command {
    /// Returns a copy. Fails only when out of memory.
    pub fn copy(&self, alloc: Global) -> Result<Command, CopyError>
        ensures { IfOk result (λ c. c ≡ self.now) }
    {
        match self {
            Command::Get => Ok(Command::Get),
            Command::PutOnce(value) => Ok(Command::PutOnce(value.copy(alloc)?)),
            Command::Update(stamp, value) => Ok(Command::Update(*stamp, value.copy(alloc)?)),
            Command::Append(tail) => Ok(Command::Append(tail.copy(alloc)?)),
            Command::Add(number) => Ok(Command::Add(*number)),
            Command::Swap(old, new) => Ok(Command::Swap(old.copy(alloc)?, new.copy(alloc)?)),
            Command::Over(value) => Ok(Command::Over(value.copy(alloc)?)),
            Command::Delete => Ok(Command::Delete),
        }
    }
}
