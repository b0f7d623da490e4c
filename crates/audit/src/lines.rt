ghost use Rattle.std.specs.Prelude.{◌≡◌, ◌+◌, ◌<◌, ◌≤◌, ◌++◌, ◌^◌, ◌∷◌, [], length, take, slice_index, IfOk, IfErr, IfSome, IfNone, OnErr, true, false, vec_len, IsErrOf};
ghost use Rattle.std.specs.Io.KnownBytes.{prepend_known, Keeps, IsAtEnd};
ghost use Rattle.ens_base.specs.Causes.{Rose};
ghost use Rattle.environment.specs.Lines.{HasNoFeed};
ghost use Rattle.audit.specs.Lines.{AreFew, IsNext, IsReady, IsLine};

use ens_base::Failed;
use environment::{Next, NextError, Source};
use std::alloc::{AllocError, Global};
use std::mem;

/// The most bytes that one call of the source reads.
const PIECE: usize = 512;

/// Splits a source into lines. Keeps the bytes that were read and not yet returned.
#[derive(Drop)]
pub(crate) struct RecordLines {
    /// The bytes that were read and not yet returned.
    pub pending: Vec<u8>,
}

/// Returns the first line feed from `from` on and before `to`.
fn find_feed(bytes: &[u8], from: usize, to: usize) -> Option<usize>
    requires order { from ≤ to }
    requires within { to ≤ length bytes.now }
    requires before { HasNoFeed (take from bytes.now) }
    ensures found { IfSome result (λ k. k < to) }
    ensures feed { IfSome result (λ k. slice_index bytes.now k ≡ 10) }
    ensures clear { IfSome result (λ k. HasNoFeed (take k bytes.now)) }
    ensures none { IfNone result (HasNoFeed (take to bytes.now)) }
{
    for i in from..to {
        if bytes[i] == b'\n' {
            return Some(i);
        }
    }
    None
}

impl RecordLines {
    /// Makes a reader with nothing pending.
    pub fn new(alloc: Global) -> Self
        ensures { result.pending.items ≡ [] }
    {
        RecordLines {
            pending: Vec::new(alloc),
        }
    }

    // Takes out the bytes before the line feed at index `k`, and drops the line feed. When out of memory,
    // leaves the pending bytes unchanged.
    fn take_line(&mut self, alloc: Global, k: usize) -> Result<Vec<u8>, AllocError>
        requires place { k < length self.old.pending.items }
        requires feed { slice_index self.old.pending.items k ≡ 10 }
        ensures line { IfOk result (λ v. v.items ≡ take k self.old.pending.items) }
        ensures split { IfOk result (λ v. self.old.pending.items ≡ (v.items ++ 10 ∷ []) ++ self.new.pending.items) }
        ensures err { OnErr result (self.new.pending.items ≡ self.old.pending.items) }
    {
        let rest = Vec::from_slice(alloc, &self.pending[k + 1..])?;
        let mut line = mem::replace(&mut self.pending, rest);
        line.truncate(k);
        Ok(line)
    }

    // Returns what the pending bytes alone decide, the first `searched` of which have no line feed: a line,
    // or `TooLong`. Returns `None` if they do not decide it, and leaves them unchanged then.
    fn ready(
        &mut self,
        alloc: Global,
        searched: usize,
        most: usize,
    ) -> Result<Option<Next>, NextError>
        requires most { most < 2 ^ 24 }
        requires searched { searched ≤ length self.old.pending.items }
        requires short { searched ≤ most + 1 }
        requires clear { HasNoFeed (take searched self.old.pending.items) }
        ensures next { IfOk result (λ o. IfSome o (IsReady most self.old.pending.items self.new.pending.items)) }
        ensures none { IfOk result (λ o. IfNone o ((self.new.pending.items ≡ self.old.pending.items) × IsLine most self.old.pending.items)) }
        ensures err { OnErr result (self.new.pending.items ≡ self.old.pending.items) }
        ensures memory { IfErr result (λ e. e ≡ NextError.Memory) }
    {
        let seen = self.pending.len().min(most + 1);
        match find_feed(&self.pending, searched, seen) {
            Some(k) => match self.take_line(alloc, k) {
                Ok(line) => Ok(Some(Next::Line(line))),
                Err(_) => Err(NextError::Memory),
            },
            None if self.pending.len() > most => Ok(Some(Next::TooLong)),
            None => Ok(None),
        }
    }

    // Reads one piece of at most `most` bytes after the pending bytes. Returns whether there was any.
    fn fill<S: Source>(&mut self, source: &mut S, most: usize) -> Result<bool, NextError>
        requires { 0 < most }
        ensures bytes { Keeps (prepend_known self.old.pending.items (S.left source.old)) (prepend_known self.new.pending.items (S.left source.new)) }
        ensures end { IfOk result (λ more. more ≡ false → (self.new.pending.items ≡ self.old.pending.items) × IsAtEnd (S.left source.new)) }
        ensures grows { IfOk result (λ more. more ≡ true → vec_len self.old.pending < vec_len self.new.pending) }
        ensures prefix { take (length self.old.pending.items) self.new.pending.items ≡ self.old.pending.items }
        ensures few { length self.new.pending.items ≤ length self.old.pending.items + most }
        ensures err { OnErr result (self.new.pending.items ≡ self.old.pending.items) }
        ensures later { S.fault_count source.old ≤ S.fault_count source.new }
        ensures failed { IsErrOf result NextError.Failed → Rose (S.fault_count source.old) (S.fault_count source.new) }
    {
        if self.pending.reserve(PIECE).is_err() {
            return Err(NextError::Memory);
        }
        let mut piece = [0u8; PIECE];
        let size = most.min(PIECE);
        match source.read_some(&mut piece[..size]) {
            Ok(n) => {
                self.pending.extend_from_slice(&piece[..n]).unwrap();
                Ok(n > 0)
            }
            Err(Failed) => Err(NextError::Failed),
        }
    }

    /// Returns the next line, the rest after the last line feed, or `TooLong` if more than `most` bytes come
    /// without a line feed. An error loses no byte, and neither does `TooLong`. Reads nothing past the bytes
    /// that decide which it is but the rest of a piece, and searches no byte twice.
    ///
    /// Each turn reads at least one byte or returns.
    pub fn next<S: Source>(
        &mut self,
        alloc: Global,
        source: &mut S,
        most: usize,
    ) -> Result<Next, NextError>
        requires most { most < 2 ^ 24 }
        requires few { length self.old.pending.items ≤ most + 1 }
        ensures next { IfOk result (IsNext most (prepend_known self.old.pending.items (S.left source.old))
            (prepend_known self.new.pending.items (S.left source.new))) }
        ensures kept { OnErr result (Keeps (prepend_known self.old.pending.items (S.left source.old))
            (prepend_known self.new.pending.items (S.left source.new))) }
        ensures later { S.fault_count source.old ≤ S.fault_count source.new }
        ensures failed { IsErrOf result NextError.Failed → Rose (S.fault_count source.old) (S.fault_count source.new) }
        // The source failed before the bytes that it gave decided anything.
        ensures undecided { IsErrOf result NextError.Failed → IsLine most self.new.pending.items }
        ensures few { AreFew most (length self.new.pending.items) result }
    {
        let mut searched = 0;
        for turn in 0..most + 2 {
            if let Some(next) = self.ready(alloc, searched, most)? {
                return Ok(next);
            }
            searched = self.pending.len();
            let room = most + 1 - searched;
            if !self.fill(source, room)? {
                let rest = mem::replace(&mut self.pending, Vec::new(alloc));
                return Ok(Next::Rest(rest));
            }
        }
        unreachable!()
    }
}
