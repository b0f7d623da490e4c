use std::marker::Model;

/// An MD5 digest (RFC 1321). Contracts see its 16 bytes.
#[derive(Clone, Copy, Debug, PartialEq, Eq, PartialOrd, Ord, Hash)]
pub struct Digest(pub [u8; 16]);

impl Model for Digest {
    ghost use Rattle.std.specs.Prelude.{ℕ, List};

    ghost Value = { List ℕ };

    ghost view = { λ d. d.0 };

    ghost inverse = { λ bytes. record { 0 = bytes } };
}
