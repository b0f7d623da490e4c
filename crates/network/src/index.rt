ghost use Rattle.std.specs.Prelude.{◌≡◌, ◌++◌, ◌∷◌, [], ℕ, List, drop, if◌then◌else◌, length, slice_get, OnOk, OnErr};
ghost use Rattle.ens_base.specs.Lists.{same_bytes};
ghost use Rattle.network.specs.Indexes.{queue_at};

use crate::queue::Queue;
use ens_base::Bytes;
use std::alloc::{AllocError, Global};
use std::collections::BTreeMap;

/// The numbers of messages, in one queue for the bytes of each frame, the oldest at the front. Bytes without
/// a queue have an empty one.
#[derive(Drop)]
pub struct FrameIndex {
    queues: BTreeMap<Bytes, Queue>,
}

impl FrameIndex {
    /// Makes an index in which every queue is empty.
    pub fn new(alloc: Global) -> FrameIndex
        ensures { (bytes : List ℕ) → queue_at result bytes ≡ [] }
    {
        FrameIndex {
            queues: BTreeMap::new(alloc),
        }
    }

    /// Returns the length of the queue of these bytes.
    fn count(&self, bytes: &Bytes) -> usize
        ensures { result ≡ length (queue_at self.now bytes.now) }
    {
        match self.queues.get(bytes) {
            Some(queue) => queue.len(),
            None => 0,
        }
    }

    /// Returns the number at the front of the queue of these bytes.
    fn first(&self, bytes: &Bytes) -> Option<u64>
        ensures { result ≡ slice_get (queue_at self.now bytes.now) 0 }
    {
        match self.queues.get(bytes) {
            Some(queue) => queue.first(),
            None => None,
        }
    }

    /// Removes the number at the front of the queue of these bytes, if there is one.
    fn remove_first(&mut self, bytes: &Bytes)
        ensures { (other : List ℕ) → queue_at self.new other ≡ (if same_bytes bytes.now other then drop 1 (queue_at self.old other) else queue_at self.old other) }
    {
        if self.count(bytes) <= 1 {
            self.queues.remove(bytes);
        } else if let Some(queue) = self.queues.get_mut(bytes) {
            queue.remove_first();
        }
    }

    /// Puts a number at the back of the queue of these bytes. When out of memory, leaves all queues
    /// unchanged.
    pub fn push(&mut self, alloc: Global, bytes: Bytes, number: u64) -> Result<(), AllocError>
        ensures ok { OnOk result ((other : List ℕ) → queue_at self.new other ≡ (if same_bytes bytes other then queue_at self.old other ++ number ∷ [] else queue_at self.old other)) }
        ensures err { OnErr result ((other : List ℕ) → queue_at self.new other ≡ queue_at self.old other) }
    {
        if let Some(queue) = self.queues.get_mut(&bytes) {
            queue.push(number)?;
            return Ok(());
        }
        let mut queue = Queue::new(alloc);
        queue.push(number)?;
        self.queues.insert(bytes, queue)?;
        Ok(())
    }

    /// Takes the number at the front of the queue of these bytes. Returns `None` if the queue is empty.
    pub fn take(&mut self, bytes: &Bytes) -> Option<u64>
        ensures first { result ≡ slice_get (queue_at self.old bytes.now) 0 }
        ensures rest { (other : List ℕ) → queue_at self.new other ≡ (if same_bytes bytes.now other then drop 1 (queue_at self.old other) else queue_at self.old other) }
    {
        let number = self.first(bytes);
        self.remove_first(bytes);
        number
    }
}
