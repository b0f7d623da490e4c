ghost use Rattle.std.specs.Prelude.{◌≡◌, ◌≢◌, ◌⊎◌, ◌+◌, ◌<◌, ◌≤◌, ◌++◌, ◌∷◌, [], length, take, slice_index, IfOk, IfErr, IfSome, IfNone, OnErr, Some, true, false, vec_len, IsErrOf};
ghost use Rattle.std.specs.Io.KnownBytes.{prepend_known, Keeps, IsAtEnd};
ghost use Rattle.ens_base.specs.Causes.{Rose};
ghost use Rattle.environment.specs.Lines.{IsNext, IsReady, IsLine, HasNoFeed, bytes_in};

use crate::source::Source;
use ens_base::{Failed, MAX_LINE_BYTES};
use std::alloc::{AllocError, Global};
use std::mem;

const PIECE: usize = 512;

/// What a source gave next.
#[derive(Debug, Drop)]
pub enum Next {
    /// A line, without its line feed.
    Line(Vec<u8>),
    /// The bytes after the last line feed. The source is at its end.
    Rest(Vec<u8>),
    /// More than 4,400 bytes come without a line feed. None of them is consumed.
    TooLong,
}

/// Why the next line was not read: the source failed, or out of memory.
#[derive(Clone, Copy, Debug, PartialEq, Eq)]
pub enum NextError {
    /// The source failed. Its fault count has risen.
    Failed,
    /// Out of memory.
    Memory,
}

/// Splits a source into lines. Keeps the bytes that were read and not yet returned.
#[derive(Drop)]
pub struct Lines {
    /// The bytes that were read and not yet returned.
    pub pending: Vec<u8>,
}

fn find_feed(bytes: &[u8]) -> Option<usize>
    ensures found { IfSome result (λ k. k < length bytes.now) }
    ensures feed { IfSome result (λ k. slice_index bytes.now k ≡ 10) }
    ensures before { IfSome result (λ k. HasNoFeed (take k bytes.now)) }
    ensures none { IfNone result (HasNoFeed bytes.now) }
{
    for i in 0..bytes.len() {
        if bytes[i] == b'\n' {
            return Some(i);
        }
    }
    None
}

impl Lines {
    /// Makes a reader with nothing pending.
    pub fn new(alloc: Global) -> Self
        ensures { result.pending.items ≡ [] }
    {
        Lines {
            pending: Vec::new(alloc),
        }
    }

    /// Takes out the bytes before the line feed at index `k`, and drops the line feed. When out of
    /// memory, leaves the pending bytes unchanged.
    fn take_line(&mut self, alloc: Global, k: usize) -> Result<Vec<u8>, AllocError>
        requires place { k < length self.old.pending.items }
        requires feed { slice_index self.old.pending.items k ≡ 10 }
        ensures line { IfOk result (λ v. v.items ≡ take k self.old.pending.items) }
        ensures split { IfOk result (λ v. self.old.pending.items ≡ (v.items ++ 10 ∷ []) ++ self.new.pending.items) }
        ensures err { OnErr result (self.new.pending.items ≡ self.old.pending.items) }
    {
        let rest = Vec::from_slice(alloc, &self.pending[k + 1..])?;
        let mut line = mem::replace(&mut self.pending, rest);
        line.truncate(k);
        Ok(line)
    }

    /// Returns what the pending bytes alone decide: a line, or `TooLong`. Returns `None` if they do
    /// not decide it, and leaves them unchanged then.
    fn ready(&mut self, alloc: Global) -> Result<Option<Next>, NextError>
        ensures next { IfOk result (λ o. IfSome o (IsReady self.old.pending.items self.new.pending.items)) }
        ensures none { IfOk result (λ o. IfNone o ((self.new.pending.items ≡ self.old.pending.items) × IsLine self.old.pending.items)) }
        ensures err { OnErr result (self.new.pending.items ≡ self.old.pending.items) }
        ensures memory { IfErr result (λ e. e ≡ NextError.Memory) }
    {
        let seen = self.pending.len().min(MAX_LINE_BYTES + 1);
        match find_feed(&self.pending[..seen]) {
            Some(k) => match self.take_line(alloc, k) {
                Ok(line) => Ok(Some(Next::Line(line))),
                Err(_) => Err(NextError::Memory),
            },
            None if self.pending.len() > MAX_LINE_BYTES => Ok(Some(Next::TooLong)),
            None => Ok(None),
        }
    }

    /// Reads one piece of at most `most` bytes after the pending bytes. Returns whether there was
    /// any.
    fn fill<S: Source>(&mut self, source: &mut S, most: usize) -> Result<bool, NextError>
        requires { 0 < most }
        ensures bytes { Keeps (prepend_known self.old.pending.items (S.left source.old)) (prepend_known self.new.pending.items (S.left source.new)) }
        ensures end { IfOk result (λ more. more ≡ false → (self.new.pending.items ≡ self.old.pending.items) × IsAtEnd (S.left source.new)) }
        ensures grows { IfOk result (λ more. more ≡ true → vec_len self.old.pending < vec_len self.new.pending) }
        ensures shrinks_never { vec_len self.old.pending ≤ vec_len self.new.pending }
        ensures few { length self.new.pending.items ≤ length self.old.pending.items + most }
        ensures err { OnErr result (self.new.pending.items ≡ self.old.pending.items) }
        ensures later { S.fault_count source.old ≤ S.fault_count source.new }
        ensures failed { IsErrOf result NextError.Failed → Rose (S.fault_count source.old) (S.fault_count source.new) }
    {
        if self.pending.reserve(PIECE).is_err() {
            return Err(NextError::Memory);
        }
        let mut piece = [0u8; PIECE];
        let size = most.min(PIECE);
        match source.read_some(&mut piece[..size]) {
            Ok(n) => {
                self.pending.extend_from_slice(&piece[..n]).unwrap();
                Ok(n > 0)
            }
            Err(Failed) => Err(NextError::Failed),
        }
    }

    /// Returns the next line, the rest after the last line feed, or `TooLong` if more than 4,400
    /// bytes come without a line feed. An error loses no byte, and neither does `TooLong`. Reads
    /// nothing past the 4,401 bytes that decide which it is, and nothing if the pending bytes do.
    ///
    /// Each turn reads at least one byte or returns, so 4,402 turns are enough.
    pub fn next<S: Source>(&mut self, alloc: Global, source: &mut S) -> Result<Next, NextError>
        ensures next { IfOk result (λ n. IsNext (prepend_known self.old.pending.items (S.left source.old))
            (prepend_known self.new.pending.items (S.left source.new)) n) }
        ensures kept { OnErr result (Keeps (prepend_known self.old.pending.items (S.left source.old))
            (prepend_known self.new.pending.items (S.left source.new))) }
        ensures later { S.fault_count source.old ≤ S.fault_count source.new }
        ensures failed { IsErrOf result NextError.Failed → Rose (S.fault_count source.old) (S.fault_count source.new) }
        // The source failed before the bytes that it gave decided anything.
        ensures undecided { IsErrOf result NextError.Failed → IsLine self.new.pending.items }
        ensures few { (S.left source.new ≡ S.left source.old) ⊎ (bytes_in result + length self.new.pending.items ≤ 4401) }
    {
        for turn in 0..MAX_LINE_BYTES + 2 {
            if let Some(next) = self.ready(alloc)? {
                return Ok(next);
            }
            let most = MAX_LINE_BYTES + 1 - self.pending.len();
            if !self.fill(source, most)? {
                let rest = mem::replace(&mut self.pending, Vec::new(alloc));
                return Ok(Next::Rest(rest));
            }
        }
        unreachable!()
    }

    /// Returns whether nothing is left to read. Reads at most one byte, and consumes nothing.
    pub fn is_end<S: Source>(&mut self, source: &mut S) -> Result<bool, NextError>
        ensures end { IfOk result (λ end. end ≡ true → IsAtEnd (prepend_known self.new.pending.items (S.left source.new))) }
        ensures more { IfOk result (λ end. end ≡ false → IfSome (prepend_known self.old.pending.items (S.left source.old)) (λ rest. rest ≢ [])) }
        ensures kept { Keeps (prepend_known self.old.pending.items (S.left source.old)) (prepend_known self.new.pending.items (S.left source.new)) }
        ensures later { S.fault_count source.old ≤ S.fault_count source.new }
        ensures failed { IsErrOf result NextError.Failed → Rose (S.fault_count source.old) (S.fault_count source.new) }
        ensures undecided { IsErrOf result NextError.Failed → self.new.pending.items ≡ [] }
        ensures few { (S.left source.new ≡ S.left source.old) ⊎ ((self.old.pending.items ≡ []) × (length self.new.pending.items ≤ 1)) }
    {
        if !self.pending.is_empty() {
            return Ok(false);
        }
        let more = self.fill(source, 1)?;
        Ok(!more)
    }
}
