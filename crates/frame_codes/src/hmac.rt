ghost use Rattle.std.specs.Prelude.{◌≡◌, ◌≤◌, ◌-◌, ◌++◌, ℕ, List, length, replicate, map, bit_xor};
ghost use Rattle.frame_codes.specs.Hmac.{block_of, masked, inner_of, outer_of, hmac};
ghost use Rattle.sha2.specs.Hashers.{Holds256};
ghost use Rattle.sha2.specs.Sha256.{sha256};

use sha2::{Digest, Sha256};

/// The bytes of a block of SHA-256.
const BLOCK: usize = 64;

/// Copies the bytes to the front of a block of zeros.
fn filled(bytes: &[u8]) -> [u8; 64]
    requires { length bytes.now ≤ 64 }
    ensures { result ≡ bytes.now ++ replicate (64 - length bytes.now) 0 }
{
    let mut block = [0; BLOCK];
    block[..bytes.len()].copy_from_slice(bytes);
    block
}

/// Returns the block of a secret of any length.
fn block(secret: &[u8]) -> [u8; 64]
    ensures { result ≡ block_of secret.now }
{
    if secret.len() <= BLOCK {
        filled(secret)
    } else {
        filled(&Sha256::digest(secret))
    }
}

/// Turns the bits of the mask in each byte.
fn turned(block: &[u8; 64], mask: u8) -> [u8; 64]
    ensures { result ≡ map (λ b. bit_xor b mask) block.now }
{
    let mut out = *block;
    'bytes: for i in 0..BLOCK {
        out[i] ^= mask;
    }
    out
}

/// Returns a hasher that has taken the block of the secret under the mask.
fn begun(secret: &[u8], mask: u8) -> Sha256
    ensures { Holds256 result (masked mask secret.now) }
{
    let mut hasher = Sha256::new();
    hasher.update(turned(&block(secret), mask).as_slice());
    hasher
}

/// Returns the hasher of what stands before the message.
pub fn inner(secret: &[u8]) -> Sha256
    ensures { Holds256 result (inner_of secret.now) }
{
    begun(secret, 0x36)
}

/// Returns the hasher of what stands before the digest of the message.
pub fn outer(secret: &[u8]) -> Sha256
    ensures { Holds256 result (outer_of secret.now) }
{
    begun(secret, 0x5c)
}

/// Returns the digest of what the hasher took and then these two strings.
pub fn ended(hasher: &Sha256, front: &[u8], back: &[u8]) -> [u8; 32]
    ensures { (m : List ℕ) → Holds256 hasher.now m → result ≡ sha256 (m ++ (front.now ++ back.now)) }
{
    let mut hasher = hasher.clone().unwrap();
    hasher.update(front);
    hasher.update(back);
    hasher.finalize()
}

/// Returns the HMAC-SHA-256 of a message under a secret of any length (RFC 2104).
pub fn hmac_sha256(secret: &[u8], message: &[u8]) -> [u8; 32]
    ensures { result ≡ hmac secret.now message.now }
{
    let digest = ended(&inner(secret), message, &[]);
    ended(&outer(secret), &digest, &[])
}
