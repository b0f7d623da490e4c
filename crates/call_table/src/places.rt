ghost use Rattle.std.specs.Prelude.{◌≡◌, ◌++◌, ◌∷◌, [], ℕ, List, if◌then◌else◌, length, OnOk, OnErr};
ghost use Rattle.ens_base.specs.Lists.{same_bytes};
ghost use Rattle.call_table.specs.Queues.{first_of, rest_of};
ghost use Rattle.call_table.specs.Slots.{places_at};

use crate::queue::Queue;
use ens_base::Key;
use std::alloc::{AllocError, Global};
use std::collections::BTreeMap;

/// For each key, the places of its calls, ascending. A key without calls has no places.
#[derive(Drop)]
pub struct Places {
    queues: BTreeMap<Key, Queue>,
}

impl Places {
    /// Makes a map in which no key has a place.
    pub fn new(alloc: Global) -> Places
        ensures { (k : List ℕ) → places_at result k ≡ [] }
    {
        Places {
            queues: BTreeMap::new(alloc),
        }
    }

    /// Returns the number of places of the key.
    pub fn count(&self, key: &Key) -> usize
        ensures { result ≡ length (places_at self.now key.now) }
    {
        match self.queues.get(key) {
            Some(queue) => queue.len(),
            None => 0,
        }
    }

    /// Returns the first place of the key, if it has one.
    pub fn first(&self, key: &Key) -> Option<usize>
        ensures { result ≡ first_of (places_at self.now key.now) }
    {
        match self.queues.get(key) {
            Some(queue) => queue.first(),
            None => None,
        }
    }

    /// Appends a place to those of the key. When out of memory, leaves all places unchanged.
    pub fn push(&mut self, alloc: Global, key: Key, place: usize) -> Result<(), AllocError>
        ensures ok { OnOk result ((k : List ℕ) → places_at self.new k ≡ (if same_bytes key k then places_at self.old k ++ place ∷ [] else places_at self.old k)) }
        ensures err { OnErr result ((k : List ℕ) → places_at self.new k ≡ places_at self.old k) }
    {
        if let Some(queue) = self.queues.get_mut(&key) {
            queue.push(place)?;
            return Ok(());
        }
        let mut queue = Queue::new(alloc);
        queue.push(place)?;
        self.queues.insert(key, queue)?;
        Ok(())
    }

    /// Removes the first place of the key, if it has one.
    pub fn remove_first(&mut self, key: &Key)
        ensures { (k : List ℕ) → places_at self.new k ≡ (if same_bytes key.now k then rest_of (places_at self.old k) else places_at self.old k) }
    {
        if self.count(key) <= 1 {
            self.queues.remove(key);
        } else if let Some(queue) = self.queues.get_mut(key) {
            queue.remove_first();
        }
    }
}
