ghost use Rattle.std.specs.Prelude.{◌≡◌, ◌<◌, List, ℕ, Option, length, IfOk, OnOk};
ghost use Rattle.std.specs.Io.{WritesAtMost};
ghost use Rattle.std.specs.Io.KnownBytes.{WriteAppends, Appends};
ghost use Rattle.ens_base.specs.Causes.{HasCause};
ghost use Rattle.environment.specs.Written.{AppendsPrefix};

use ens_base::Failed;

/// A sink of bytes.
pub trait Sink {
    /// The bytes written; `None` if unknown.
    ghost written: { Self → Option (List ℕ) };

    /// The number of calls that failed.
    ghost fault_count: { Self → ℕ };

    /// Returns the fault count. It never falls. Once it has reached the greatest u64 it stays
    /// there, and counts as risen.
    fn faults(&self) -> u64
        ensures { result ≡ fault_count self.now };

    /// Writes some bytes from the front of `bytes`: at least one, unless `bytes` is empty. Returns
    /// how many.
    fn write_some(&mut self, bytes: &[u8]) -> Result<usize, Failed>
        ensures bound { WritesAtMost result bytes.now }
        ensures progress { IfOk result (λ n. 0 < length bytes.now → 0 < n) }
        ensures bytes { WriteAppends (written self.old) (written self.new) result bytes.now }
        ensures cause { HasCause (fault_count self.old) (fault_count self.new) result };
}

/// Writes all of `bytes`. If a call fails, a prefix of them was written.
pub fn write_all<O: Sink>(output: &mut O, bytes: &[u8]) -> Result<(), Failed>
    ensures ok { OnOk result (Appends (O.written output.old) (O.written output.new) bytes.now) }
    ensures prefix { AppendsPrefix (O.written output.old) (O.written output.new) bytes.now }
    ensures cause { HasCause (O.fault_count output.old) (O.fault_count output.new) result }
{
    let mut at = 0;
    while at < bytes.len() {
        at += output.write_some(&bytes[at..])?;
    }
    Ok(())
}
