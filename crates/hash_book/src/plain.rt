ghost use Rattle.std.specs.Prelude.{◌≡◌, None, IsOk, IfOk};
ghost use Rattle.md5.specs.Md5.{md5};
ghost use Rattle.hash_book.specs.Hashing.{Admits};

use crate::digest::digest_of;
use crate::error::HashError;
use crate::hasher::Hasher16;
use ens_base::Digest;
use std::alloc::Global;

/// A hasher that keeps nothing and rejects nothing.
#[derive(Clone, Copy, Debug, PartialEq, Eq)]
pub struct PlainHasher;

impl Hasher16 for PlainHasher {
    ghost kept = { λ _. None };

    ghost clashes = { λ _. 0 };

    ghost fulls = { λ _. 0 };

    ghost clash_free = { λ _. tt };

    fn digest(&mut self, _alloc: Global, bytes: &[u8]) -> Result<Digest, HashError>
        ensures digest { IfOk result (λ d. d ≡ md5 bytes.now) }
        ensures admits { Admits bytes.now None None 0 0 0 0 result }
        ensures always { IsOk result }
    {
        Ok(digest_of(bytes))
    }

    fn admit(&mut self, _alloc: Global, _bytes: &[u8], _digest: &Digest) -> Result<(), HashError>
        ensures admits { Admits _bytes.now None None 0 0 0 0 result }
        ensures always { IsOk result }
    {
        Ok(())
    }
}
