ghost use Rattle.std.specs.Prelude.{◌≡◌, ◌≢◌, List, ℕ, Some, IfSome};
ghost use Rattle.environment.specs.Maps.{Entries, value_at};
ghost use Rattle.disk_stores.specs.Recents.{slot_from, Remembers};

use ens_base::Bytes;
use std::alloc::Global;

/// The number of slots.
const SLOTS: usize = 4096;

/// The greatest length in bytes of a content that is kept.
const LENGTH_LIMIT: usize = 1024;

/// A content that was put lately, and its name.
#[derive(Drop)]
pub(crate) struct Kept {
    pub(crate) name: Bytes,
    pub(crate) content: Bytes,
}

/// Returns the slot of a name.
fn slot_of(name: &[u8]) -> usize
    ensures { result ≡ slot_from 0 name.now }
{
    let mut slot = 0;
    for byte in name {
        slot = (slot * 31 + usize::from(*byte)) % SLOTS;
    }
    slot
}

/// Returns the name with a copy of its content, if that is short enough and there is memory.
fn copied(alloc: Global, name: Bytes, content: &[u8]) -> Option<Kept>
    ensures { IfSome result (λ k. (k.name ≡ name) × (k.content ≡ content.now)) }
{
    if content.len() > LENGTH_LIMIT {
        return None;
    }
    let content = Bytes::from_slice(alloc, content).ok()?;
    Some(Kept { name, content })
}

/// Contents of a log that were put lately, in memory: at most 4,096, of at most 1,024 bytes each.
/// A name has one slot, and stands there until a name with the same slot is put.
#[derive(Drop)]
pub(crate) struct Recent {
    alloc: Global,
    slots: Vec<Option<Kept>>,
}

impl Recent {
    /// Makes slots for nothing yet. They are allocated with the first content.
    pub(crate) fn new(alloc: Global) -> Recent
        ensures { (es : Entries) → Remembers result.slots.items es }
    {
        Recent {
            alloc,
            slots: Vec::new(alloc),
        }
    }

    /// Returns the content of the name, if it is kept.
    pub(crate) fn find(&self, name: &[u8]) -> Option<&[u8]>
        ensures { IfSome result (λ content. (es : Entries) → Remembers self.now.slots.items es → value_at name.now es ≡ Some content.now) }
    {
        match self.slots.get(slot_of(name)) {
            Some(Some(kept)) if kept.name.as_slice() == name => Some(kept.content.as_slice()),
            _ => None,
        }
    }

    /// Allocates the slots, as far as there is memory.
    fn fill(&mut self)
        ensures { (es : Entries) → Remembers self.old.slots.items es → Remembers self.new.slots.items es }
    {
        while self.slots.len() < SLOTS {
            if self.slots.push(None).is_err() {
                return;
            }
        }
    }

    /// Keeps the content that the name has from now on, in the slot of the name. If it is too long, or
    /// when out of memory, keeps nothing there.
    pub(crate) fn keep(&mut self, name: Bytes, content: &[u8])
        ensures { (before after : Entries) → Remembers self.old.slots.items before
            → value_at name after ≡ Some content.now
            → ((q : List ℕ) → q ≢ name → value_at q after ≡ value_at q before) → Remembers self.new.slots.items after }
    {
        self.fill();
        let slot = slot_of(name.as_slice());
        if slot < self.slots.len() {
            self.slots[slot] = copied(self.alloc, name, content);
        }
    }
}
