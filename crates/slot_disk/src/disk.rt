ghost use Rattle.std.specs.Prelude.{◌≡◌, ◌-◌, ◌≤◌, List, ℕ, Option, Some, length, take, drop, min, IfOk, OnOk, OnErr};
ghost use Rattle.std.specs.Io.{ReadsAtMost};
ghost use Rattle.slot_disk.specs.Crash.{written, Torn, Cut, Follows, Only, Elapses, Told, Stay, SeenIn};
ghost use Rattle.slot_disk.specs.Faults.{CountsFaults};

use ens_base::Failed;

/// A file on a disk that may crash: what a read returns, and what a crash may leave. Between two
/// syncs a crash may leave any bytes in each written range and past the old end; all other bytes
/// stay. A call that fails has raised the fault count, and one that succeeds leaves it unchanged. A
/// write or a cut that failed may be done in part, and a failed sync may have lost writes.
pub trait Disk {
    /// The bytes that a read returns; `None` if unknown.
    ghost seen: { Self → Option (List ℕ) };

    /// The files that a crash at this moment may leave.
    ghost may_leave: { Self → List ℕ → Type 0 };

    /// The current moment, a number that never falls.
    ghost moment: { Self → ℕ };

    /// The files that a crash at some moment from the given one on may have left.
    ghost left_since: { Self → ℕ → List ℕ → Type 0 };

    /// The number of calls that failed.
    ghost fault_count: { Self → ℕ };

    /// Returns the fault count. Once it has reached the greatest u64 it stays there.
    fn faults(&self) -> u64
        ensures { result ≡ fault_count self.now };

    /// Returns the length of the file in bytes.
    fn size(&mut self) -> Result<u64, Failed>
        ensures size { IfOk result (λ n. Told (seen self.old) (λ bytes. n ≡ length bytes)) }
        ensures seen { Stay (seen self.old) (seen self.new) }
        ensures crash { (c : List ℕ) → may_leave self.new c → may_leave self.old c }
        ensures time { Elapses (moment self.old) (moment self.new) (left_since self.old) (left_since self.new) (may_leave self.new) }
        ensures cause { CountsFaults (fault_count self.old) (fault_count self.new) result };

    /// Reads into the front of `buf`, from byte `at` on. Returns how many bytes were read: fewer
    /// than `buf` holds only at the end of the file.
    fn read(&mut self, at: u64, buf: &mut [u8]) -> Result<usize, Failed>
        ensures bound { ReadsAtMost result buf.new }
        ensures bytes { IfOk result (λ n. Told (seen self.old) (λ bytes. (n ≡ min (length buf.new) (length bytes - at)) × (take n buf.new ≡ take n (drop at bytes)))) }
        ensures seen { Stay (seen self.old) (seen self.new) }
        ensures crash { (c : List ℕ) → may_leave self.new c → may_leave self.old c }
        ensures time { Elapses (moment self.old) (moment self.new) (left_since self.old) (left_since self.new) (may_leave self.new) }
        ensures cause { CountsFaults (fault_count self.old) (fault_count self.new) result };

    /// Writes `bytes` from byte `at` on, over the old bytes and past the end; a gap is filled with
    /// zeros. A write of no bytes changes nothing. After an error a read returns what a crash during the write may leave.
    fn write_at(&mut self, at: u64, bytes: &[u8]) -> Result<(), Failed>
        ensures written { OnOk result (Told (seen self.old) (λ old. seen self.new ≡ Some (written old at bytes.now))) }
        ensures failed { OnErr result (Told (seen self.old) (λ old. SeenIn seen self.new (Torn at (length bytes.now) old))) }
        ensures crash { Follows (Torn at (length bytes.now)) (may_leave self.old) (may_leave self.new) }
        ensures time { Elapses (moment self.old) (moment self.new) (left_since self.old) (left_since self.new) (may_leave self.new) }
        ensures cause { CountsFaults (fault_count self.old) (fault_count self.new) result };

    /// Cuts the file to at most `len` bytes. After an error a read returns what a crash during the
    /// cut may leave.
    fn cut(&mut self, len: u64) -> Result<(), Failed>
        ensures cut { OnOk result (Told (seen self.old) (λ old. seen self.new ≡ Some (take len old))) }
        ensures failed { OnErr result (Told (seen self.old) (λ old. SeenIn seen self.new (Cut len old))) }
        ensures crash { Follows (Cut len) (may_leave self.old) (may_leave self.new) }
        ensures time { Elapses (moment self.old) (moment self.new) (left_since self.old) (left_since self.new) (may_leave self.new) }
        ensures cause { CountsFaults (fault_count self.old) (fault_count self.new) result };

    /// Makes all writes durable: after it a crash leaves exactly what a read returns. After an error
    /// a read returns one of the files that a crash might have left before.
    fn sync(&mut self) -> Result<(), Failed>
        ensures durable { OnOk result (Told (seen self.old) (λ bytes. Only bytes (may_leave self.new))) }
        ensures seen { OnOk result (Stay (seen self.old) (seen self.new)) }
        ensures failed { OnErr result (Told (seen self.old) (λ bytes. SeenIn seen self.new (may_leave self.old))) }
        ensures crash { (c : List ℕ) → may_leave self.new c → may_leave self.old c }
        ensures time { Elapses (moment self.old) (moment self.new) (left_since self.old) (left_since self.new) (may_leave self.new) }
        ensures cause { CountsFaults (fault_count self.old) (fault_count self.new) result };

    /// A crash may leave what a read returns.
    ghost may_stay: { (disk : Self) (bytes : List ℕ) → seen disk ≡ Some bytes → may_leave disk bytes };

    /// The present moment is one of those since any earlier one.
    ghost counts_now: { (disk : Self) (t : ℕ) (c : List ℕ) → t ≤ moment disk → may_leave disk c → left_since disk t c };

    /// The present moment is the only one since itself.
    ghost only_now: { (disk : Self) (c : List ℕ) → left_since disk (moment disk) c → may_leave disk c };
}
