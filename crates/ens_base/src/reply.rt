ghost use Rattle.std.specs.Prelude.{◌≡◌, IfOk};

use crate::copy_error::CopyError;
use crate::epoch::Version;
use crate::value::Value;
use std::alloc::Global;

/// The reply to a call.
#[derive(Debug, PartialEq, Eq, Drop)]
pub enum Reply {
    /// The register holds this value, written under this stamp.
    Value(Version, Value),
    /// The register is absent.
    NotFound,
    /// The write took effect under this stamp.
    Ok(Version),
    /// The command does not apply to what the register holds.
    Failed,
    /// The peer is not leading, or is ending its epoch. The call had no effect.
    Unavailable,
    /// Too many calls on the key are unanswered. The call had no effect.
    Busy,
    /// No peer has the object that the register should hold. The call had no effect.
    Lost,
    /// The call took too long. It may or may not have taken effect.
    Timeout,
}

impl Reply {
    /// Returns a copy. Fails only when out of memory.
    pub fn copy(&self, alloc: Global) -> Result<Reply, CopyError>
        ensures { IfOk result (λ r. r ≡ self.now) }
    {
        match self {
            Reply::Value(stamp, value) => Ok(Reply::Value(*stamp, value.copy(alloc)?)),
            Reply::NotFound => Ok(Reply::NotFound),
            Reply::Ok(stamp) => Ok(Reply::Ok(*stamp)),
            Reply::Failed => Ok(Reply::Failed),
            Reply::Unavailable => Ok(Reply::Unavailable),
            Reply::Busy => Ok(Reply::Busy),
            Reply::Lost => Ok(Reply::Lost),
            Reply::Timeout => Ok(Reply::Timeout),
        }
    }
}
