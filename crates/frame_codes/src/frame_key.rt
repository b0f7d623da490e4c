ghost use Rattle.std.specs.Prelude.{◌≡◌, ◌++◌, take};
ghost use Rattle.frame_codes.specs.Hmac.{hmac};
ghost use Rattle.frame_codes.specs.Seals.{is_sealed};

use crate::hmac::{ended, inner, outer};
use crate::same::is_same;
use sha2::Sha256;
use std::marker::Model;

/// The length of a code in bytes.
pub const CODE_LENGTH: usize = 16;

/// A key, as the two hashers that have taken its blocks. Contracts see its 32 bytes.
#[derive(Drop)]
pub struct FrameKey {
    secret: [u8; 32],
    inner: Sha256,
    outer: Sha256,
}

impl Model for FrameKey {
    ghost use Rattle.std.specs.Prelude.{ℕ, List};
    ghost use Rattle.sha2.specs.Hashers.{Holds256};
    ghost use Rattle.frame_codes.specs.Hmac.{inner_of, outer_of};

    ghost Value = { List ℕ };

    ghost view = { λ k. k.secret };

    ghost invariant = { λ k. ∥ Holds256 k.inner (inner_of k.secret) ∥₁ × ∥ Holds256 k.outer (outer_of k.secret) ∥₁ };
}

impl FrameKey {
    /// Makes the key of these bytes.
    pub fn new(secret: [u8; 32]) -> FrameKey
        ensures { result ≡ secret }
    {
        FrameKey {
            secret,
            inner: inner(&secret),
            outer: outer(&secret),
        }
    }

    /// Returns the code of a frame of the ensemble of this name.
    pub fn code(&self, name: &[u8], frame: &[u8]) -> [u8; 16]
        ensures { result ≡ take 16 (hmac self.now (name.now ++ frame.now)) }
    {
        let digest = ended(&self.inner, name, frame);
        first_half(&ended(&self.outer, &digest, &[]))
    }

    /// Returns whether the bytes end with the code of what stands before it.
    pub fn opens(&self, name: &[u8], bytes: &[u8]) -> bool
        ensures { result ≡ is_sealed name.now bytes.now self.now }
    {
        if bytes.len() < CODE_LENGTH {
            return false;
        }
        let (frame, code) = bytes.split_at(bytes.len() - CODE_LENGTH);
        is_same(&self.code(name, frame), code)
    }
}

/// Returns the first 16 bytes of a digest.
fn first_half(digest: &[u8; 32]) -> [u8; 16]
    ensures { result ≡ take 16 digest.now }
{
    let mut out = [0; CODE_LENGTH];
    out.copy_from_slice(&digest[..CODE_LENGTH]);
    out
}
