ghost use Rattle.std.specs.Prelude.{◌≡◌, List, ℕ, Option};
ghost use Rattle.std.specs.Io.{ReadsAtMost};
ghost use Rattle.std.specs.Io.KnownBytes.{ReadConsumes};
ghost use Rattle.ens_base.specs.Causes.{HasCause};

use ens_base::Failed;

/// A source of bytes.
pub trait Source {
    /// The bytes still to be read; `None` if unknown.
    ghost left: { Self → Option (List ℕ) };

    /// The number of calls that failed.
    ghost fault_count: { Self → ℕ };

    /// Returns the fault count. It never falls. Once it has reached the greatest u64 it stays
    /// there, and counts as risen.
    fn faults(&self) -> u64
        ensures { result ≡ fault_count self.now };

    /// Reads some bytes into the front of `buf`. Returns how many; 0 means the end, unless `buf` is
    /// empty.
    fn read_some(&mut self, buf: &mut [u8]) -> Result<usize, Failed>
        ensures bound { ReadsAtMost result buf.new }
        ensures bytes { ReadConsumes (left self.old) (left self.new) result buf.new }
        ensures cause { HasCause (fault_count self.old) (fault_count self.new) result };
}
