ghost use Rattle.std.specs.Prelude.{◌≡◌, ℕ, List, Option, IfOk, OnErr};
ghost use Rattle.environment.specs.Links.{LinkCounts, Sends, Looks};
ghost use Rattle.environment.specs.Told.{bytes_of, StaysTold, IsTold};

use crate::errors::LinkError;
use std::alloc::Global;

/// A link to other peers: frames sent to numbers, and frames received.
pub trait Link {
    /// The frames sent, each with the number it was sent to, the oldest first; `None` if unknown.
    ghost sent: { Self → Option (List (ℕ × List ℕ)) };

    /// The result of each look, a frame or nothing, the oldest first; `None` if unknown.
    ghost given: { Self → Option (List (Option (List ℕ))) };

    /// The frame that waits for a look now, or that none does; `None` if unknown.
    ghost waits: { Self → Option (Option (List ℕ)) };

    /// The number of calls that failed.
    ghost fault_count: { Self → ℕ };

    /// Returns the fault count. It never falls. Once it has reached the greatest u64 it stays
    /// there, and counts as risen.
    fn faults(&self) -> u64
        ensures { result ≡ fault_count self.now };

    /// Sends `frame` to the number `to`. On an error the frame was not sent.
    fn send(&mut self, alloc: Global, to: u32, frame: &[u8]) -> Result<(), LinkError>
        ensures sent { Sends (sent self.old) (sent self.new) to frame.now result }
        ensures given { StaysTold (given self.old) (given self.new) }
        ensures counts { LinkCounts (fault_count self.old) (fault_count self.new) result };

    /// Looks once for a frame. Returns the frame that waits, or `None` if none does. On an error
    /// the frame still waits.
    fn receive(&mut self, alloc: Global) -> Result<Option<Vec<u8>>, LinkError>
        ensures given { Looks (given self.old) (given self.new) result }
        ensures waited { IfOk result (λ o. IsTold (waits self.old) (bytes_of o)) }
        ensures waits_on { OnErr result (StaysTold (waits self.old) (waits self.new)) }
        ensures sent { StaysTold (sent self.old) (sent self.new) }
        ensures counts { LinkCounts (fault_count self.old) (fault_count self.new) result };
}
