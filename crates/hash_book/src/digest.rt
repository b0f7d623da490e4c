ghost use Rattle.std.specs.Prelude.{◌≡◌};
ghost use Rattle.md5.specs.Md5.{md5};

use ens_base::Digest;
use md5::{Digest as _, Md5};

/// Returns the MD5 of the bytes (RFC 1321).
pub fn digest_of(bytes: &[u8]) -> Digest
    ensures { result ≡ md5 bytes.now }
{
    Digest(Md5::digest(bytes))
}
