ghost use Rattle.std.specs.Prelude.{◌≡◌, ℕ, Option, IfOk};
ghost use Rattle.md5.specs.Md5.{md5};
ghost use Rattle.hash_book.specs.Hashing.{Book, Admits, AreClashFree};

use crate::error::HashError;
use ens_base::Digest;
use std::alloc::Global;

/// Computes digests, and may keep the strings that it was given.
pub trait Hasher16 {
    /// The different strings admitted, the oldest first, and the number of bytes that they may have
    /// in all; `None` if unknown.
    ghost kept: { Self → Option Book };

    /// The number of clashes found; the count stops at the greatest u64.
    ghost clashes: { Self → ℕ };

    /// The number of strings rejected because they did not fit; the count stops at the greatest
    /// u64.
    ghost fulls: { Self → ℕ };

    /// Returns the MD5 of `bytes` (RFC 1321), and admits the string. On an error nothing is
    /// admitted.
    fn digest(&mut self, alloc: Global, bytes: &[u8]) -> Result<Digest, HashError>
        ensures digest { IfOk result (λ d. d ≡ md5 bytes.now) }
        ensures admits { Admits bytes.now (kept self.old) (kept self.new) (clashes self.old) (clashes self.new) (fulls self.old) (fulls self.new) result };

    /// Admits a string whose digest is known. On an error nothing is admitted.
    fn admit(&mut self, alloc: Global, bytes: &[u8], digest: &Digest) -> Result<(), HashError>
        requires { digest.now ≡ md5 bytes.now }
        ensures admits { Admits bytes.now (kept self.old) (kept self.new) (clashes self.old) (clashes self.new) (fulls self.old) (fulls self.new) result };

    /// The strings, if known, are distinct and free of clashes at any time.
    ghost clash_free: { (hasher : Self) → AreClashFree (kept hasher) };
}
