ghost use Rattle.std.specs.Prelude.{◌≡◌, ◌≢◌, ◌+◌, ◌<◌, ◌≤◌, ◌++◌, ◌∷◌, [], length, Some, All, Contains, IfSome, IfNone, IfOk, IfErr, OnOk, OnErr, Option};
ghost use Rattle.md5.specs.Md5.{md5};
ghost use Rattle.hash_book.specs.Kept.{strings_of, book_of, IsKeyed, BookAnswers, Counts};
ghost use Rattle.hash_book.specs.Hashing.{Admits, IsNew, IsClashFree, total};
ghost use Rattle.hash_book.specs.Props.{IsClashFree-prop};

use crate::digest::digest_of;
use crate::error::HashError;
use crate::hasher::Hasher16;
use ens_base::Digest;
use indexmap::IndexMap;
use std::alloc::Global;

/// A hasher that keeps each different string that it was given, up to a limit of bytes in all, and
/// rejects a string that has the digest of a different one. It counts the strings that it rejects
/// for either reason; the counts stop at the greatest u64.
#[derive(Drop)]
pub struct HashBook {
    kept: IndexMap<Digest, Vec<u8>>,
    limit: u64,
    bytes: u64,
    clashes: u64,
    fulls: u64,
    ghost keyed: { IsKeyed kept.entries },
    ghost counted: { bytes ≡ total (strings_of kept.entries) },
    ghost free: { IsClashFree (strings_of kept.entries) } by { IsClashFree-prop (strings_of kept.entries) },
}

impl HashBook {
    /// Makes an empty book that keeps at most `limit` bytes in all.
    pub fn new(alloc: Global, limit: u64) -> HashBook
        ensures empty { strings_of result.kept.entries ≡ [] }
        ensures limit { result.limit ≡ limit }
        ensures counts { (result.clashes ≡ 0) × (result.fulls ≡ 0) }
    {
        HashBook {
            kept: IndexMap::new(alloc),
            limit,
            bytes: 0,
            clashes: 0,
            fulls: 0,
        }
    }

    /// Returns the kept string with this digest, if there is one.
    fn find(&self, digest: &Digest) -> Option<&[u8]>
        ensures found { IfSome result (λ s. Contains (strings_of self.now.kept.entries) s.now × (md5 s.now ≡ digest.now)) }
        ensures none { IfNone result (All (λ s. md5 s ≢ digest.now) (strings_of self.now.kept.entries)) }
    {
        match self.kept.get(digest) {
            Some(v) => Some(v.as_slice()),
            None => None,
        }
    }

    /// Keeps a string whose digest no kept string has. When out of memory, keeps nothing.
    fn keep(&mut self, alloc: Global, bytes: &[u8], digest: &Digest) -> Result<(), HashError>
        requires digest { digest.now ≡ md5 bytes.now }
        requires fresh { IsNew (strings_of self.old.kept.entries) bytes.now }
        requires room { self.old.bytes + length bytes.now ≤ self.old.limit }
        ensures ok { OnOk result (strings_of self.new.kept.entries ≡ strings_of self.old.kept.entries ++ bytes.now ∷ []) }
        ensures err { OnErr result (strings_of self.new.kept.entries ≡ strings_of self.old.kept.entries) }
        ensures memory { IfErr result (λ e. e ≡ HashError.Memory) }
        ensures counts { (self.new.clashes ≡ self.old.clashes) × (self.new.fulls ≡ self.old.fulls) × (self.new.limit ≡ self.old.limit) }
    {
        let copy = Vec::from_slice(alloc, bytes)?;
        self.kept.insert(*digest, copy)?;
        self.bytes += bytes.len() as u64;
        Ok(())
    }
}

impl Hasher16 for HashBook {
    ghost kept = { λ b. Some (book_of b.kept.entries b.limit) };

    ghost clashes = { λ b. b.clashes };

    ghost fulls = { λ b. b.fulls };

    ghost clash_free = { λ b. b.free };

    fn digest(&mut self, alloc: Global, bytes: &[u8]) -> Result<Digest, HashError>
        ensures digest { IfOk result (λ d. d ≡ md5 bytes.now) }
        ensures admits { Admits bytes.now (Some (book_of self.old.kept.entries self.old.limit))
            (Some (book_of self.new.kept.entries self.new.limit)) self.old.clashes self.new.clashes self.old.fulls
            self.new.fulls result }
        ensures exactly { BookAnswers (book_of self.old.kept.entries self.old.limit) bytes.now result }
        ensures counts { Counts self.old.clashes self.new.clashes self.old.fulls self.new.fulls result }
        ensures same_limit { self.new.limit ≡ self.old.limit }
    {
        let digest = digest_of(bytes);
        self.admit(alloc, bytes, &digest)?;
        Ok(digest)
    }

    fn admit(&mut self, alloc: Global, bytes: &[u8], digest: &Digest) -> Result<(), HashError>
        requires { digest.now ≡ md5 bytes.now }
        ensures admits { Admits bytes.now (Some (book_of self.old.kept.entries self.old.limit))
            (Some (book_of self.new.kept.entries self.new.limit)) self.old.clashes self.new.clashes self.old.fulls
            self.new.fulls result }
        ensures exactly { BookAnswers (book_of self.old.kept.entries self.old.limit) bytes.now result }
        ensures counts { Counts self.old.clashes self.new.clashes self.old.fulls self.new.fulls result }
        ensures same_limit { self.new.limit ≡ self.old.limit }
    {
        if let Some(kept) = self.find(digest) {
            if kept == bytes {
                return Ok(());
            }
            let first = Vec::from_slice(alloc, kept)?;
            let second = Vec::from_slice(alloc, bytes)?;
            self.clashes = self.clashes.saturating_add(1);
            return Err(HashError::Clash { first, second });
        }
        let len = bytes.len() as u64;
        if self.bytes > self.limit || len > self.limit - self.bytes {
            self.fulls = self.fulls.saturating_add(1);
            return Err(HashError::BookFull(self.bytes));
        }
        self.keep(alloc, bytes, digest)
    }
}
