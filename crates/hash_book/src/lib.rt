//! MD5 digests (RFC 1321), and a book of the strings that were hashed.
//!
//! The tree relies on the premise that no two different strings have the same MD5. A `HashBook`
//! checks the premise: it keeps each string that it was given, and rejects a string that has the
//! digest of a different one. A `PlainHasher` keeps nothing and rejects nothing. Callers are proved
//! over the trait `Hasher16` alone. The definitions stand in `specs/`.
#![tactic(auto)]

mod book;
mod digest;
mod error;
mod hasher;
mod laws;
mod plain;

pub use book::HashBook;
pub use digest::digest_of;
pub use error::HashError;
pub use hasher::Hasher16;
pub use laws::{a_digest_names_its_string, kept_strings_stay_clash_free};
pub use plain::PlainHasher;
