ghost use Rattle.std.specs.Prelude.{◌≡◌, ◌<◌, ◌≤◌, ◌-◌, [], Some, drop, length, min, vec_capacity, IfOk};
ghost use Rattle.std.specs.Io.{ReadsAtMost, WritesAtMost};
ghost use Rattle.std.specs.Io.KnownBytes.{ReadConsumes, WriteAppends};
ghost use Rattle.ens_base.specs.Causes.{HasCause};

mod backend;
mod failing_call;
mod failures;
mod link;
mod nodes;
mod queue;
mod ticker;

use crate::sink::Sink;
use crate::source::Source;
pub use backend::MemBackend;
use ens_base::Failed;
pub use failing_call::{FailingCall, Leaves};
pub use link::MemLink;
pub use nodes::MemNodes;
pub use queue::MemQueue;
use std::alloc::{AllocError, Global};
pub use ticker::MemTicker;

/// A source over bytes in memory. Exactly the calls whose numbers are listed fail. The first call
/// is number 1.
#[derive(Drop)]
pub struct MemSource {
    bytes: Vec<u8>,
    at: usize,
    calls: u64,
    failing: Vec<u64>,
    faults: u64,
    ghost in_range: { at ≤ length bytes.items },
}

impl MemSource {
    /// Makes a source that gives `bytes` and fails at the calls listed in `failing`.
    pub fn new(bytes: Vec<u8>, failing: Vec<u64>) -> Self
        ensures bytes { result.bytes ≡ bytes }
        ensures failing { result.failing ≡ failing }
        ensures start { (result.at ≡ 0) × (result.calls ≡ 0) × (result.faults ≡ 0) }
    {
        MemSource {
            bytes,
            at: 0,
            calls: 0,
            failing,
            faults: 0,
        }
    }
}

impl Source for MemSource {
    ghost use Rattle.environment.specs.MemStreams.{ReadDid, IsAfterRead};

    ghost left = { λ s. Some (drop s.at s.bytes.items) };

    ghost fault_count = { λ s. s.faults };

    fn faults(&self) -> u64 {
        self.faults
    }

    fn read_some(&mut self, buf: &mut [u8]) -> Result<usize, Failed>
        ensures bound { ReadsAtMost result buf.new }
        ensures bytes { ReadConsumes (Some (drop self.old.at self.old.bytes.items)) (Some (drop self.new.at self.new.bytes.items)) result buf.new }
        ensures cause { HasCause self.old.faults self.new.faults result }
        ensures did { ReadDid self.old (length buf.new) result self.new }
        ensures after { IsAfterRead self.old self.new }
    {
        self.calls = self.calls.saturating_add(1);
        if self.failing.contains(&self.calls) {
            self.faults = self.faults.saturating_add(1);
            return Err(Failed);
        }
        let n = buf.len().min(self.bytes.len() - self.at);
        buf[..n].copy_from_slice(&self.bytes[self.at..self.at + n]);
        self.at += n;
        Ok(n)
    }
}

/// A sink in memory, with its room allocated at the start. A write takes as many bytes as there is
/// room for. Exactly the calls whose numbers are listed fail, and those with bytes to write and no
/// room. The first call is number 1.
#[derive(Drop)]
pub struct MemSink {
    bytes: Vec<u8>,
    room: usize,
    calls: u64,
    failing: Vec<u64>,
    faults: u64,
    ghost within: { length bytes.items ≤ room },
    ghost taken: { room ≤ vec_capacity bytes },
}

impl MemSink {
    /// Makes an empty sink with room for `room` bytes, which fails at the calls listed in
    /// `failing`.
    pub fn new(alloc: Global, room: usize, failing: Vec<u64>) -> Result<Self, AllocError>
        ensures bytes { IfOk result (λ s. s.bytes.items ≡ []) }
        ensures room { IfOk result (λ s. s.room ≡ room) }
        ensures failing { IfOk result (λ s. s.failing ≡ failing) }
        ensures start { IfOk result (λ s. (s.calls ≡ 0) × (s.faults ≡ 0)) }
    {
        let bytes = Vec::with_capacity(alloc, room)?;
        Ok(MemSink {
            bytes,
            room,
            calls: 0,
            failing,
            faults: 0,
        })
    }

    /// Returns the bytes written.
    pub fn bytes(&self) -> &[u8]
        ensures { result.now ≡ self.now.bytes.items }
    {
        self.bytes.as_slice()
    }
}

impl Sink for MemSink {
    ghost use Rattle.environment.specs.MemStreams.{WriteDid, IsAfterWrite};

    ghost written = { λ s. Some s.bytes.items };

    ghost fault_count = { λ s. s.faults };

    fn faults(&self) -> u64 {
        self.faults
    }

    fn write_some(&mut self, bytes: &[u8]) -> Result<usize, Failed>
        ensures bound { WritesAtMost result bytes.now }
        ensures progress { IfOk result (λ n. 0 < length bytes.now → 0 < n) }
        ensures bytes { WriteAppends (Some self.old.bytes.items) (Some self.new.bytes.items) result bytes.now }
        ensures cause { HasCause self.old.faults self.new.faults result }
        ensures did { WriteDid self.old bytes.now result self.new }
        ensures after { IsAfterWrite self.old self.new }
    {
        let call = self.calls.saturating_add(1);
        self.calls = call;
        if self.failing.contains(&call) {
            self.faults = self.faults.saturating_add(1);
            return Err(Failed);
        }
        let n = bytes.len().min(self.room - self.bytes.len());
        if n == 0 && !bytes.is_empty() {
            self.faults = self.faults.saturating_add(1);
            return Err(Failed);
        }
        self.bytes.extend_from_slice(&bytes[..n]).unwrap();
        Ok(n)
    }
}
