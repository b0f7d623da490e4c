use ens_base::{Bytes, Digest};
use hash_book::{HashError, Hasher16};
use std::alloc::Global;

/// A hasher that records each string that it is given together with its digest, in order, and leaves
/// the rest to another one.
#[derive(Drop)]
pub struct Recorder<H> {
    hasher: H,
    admitted: Vec<Bytes>,
}

impl<H> Recorder<H> {
    pub fn new(alloc: Global, hasher: H) -> Recorder<H> {
        Recorder {
            hasher,
            admitted: Vec::new(alloc),
        }
    }

    /// How often this string was given together with its digest.
    pub fn times_admitted(&self, wanted: &[u8]) -> u64 {
        let mut times: u64 = 0;
        for bytes in self.admitted.as_slice() {
            if bytes.as_slice() == wanted {
                times = times.saturating_add(1);
            }
        }
        times
    }
}

impl<H: Hasher16> Hasher16 for Recorder<H> {
    ghost kept = { λ r. H.kept r.hasher };

    ghost clashes = { λ r. H.clashes r.hasher };

    ghost fulls = { λ r. H.fulls r.hasher };

    ghost clash_free = { λ r. H.clash_free r.hasher };

    fn digest(&mut self, alloc: Global, bytes: &[u8]) -> Result<Digest, HashError> {
        self.hasher.digest(alloc, bytes)
    }

    fn admit(&mut self, alloc: Global, bytes: &[u8], digest: &Digest) -> Result<(), HashError> {
        let copy = Bytes::from_slice(alloc, bytes)?;
        self.admitted.reserve(1)?;
        self.hasher.admit(alloc, bytes, digest)?;
        self.admitted.push(copy).unwrap();
        Ok(())
    }
}
