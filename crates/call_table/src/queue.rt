ghost use Rattle.std.specs.Prelude.{◌≡◌, ◌++◌, ◌∷◌, [], ℕ, List, length, OnOk, OnErr};
ghost use Rattle.call_table.specs.Queues.{first_of, rest_of};

use std::alloc::{AllocError, Global};
use std::collections::VecDeque;
use std::marker::Model;

/// The places of the calls on one key, ascending.
#[derive(Drop)]
pub struct Queue {
    places: VecDeque<usize>,
}

impl Model for Queue {
    ghost Value = { List ℕ };

    ghost view = { λ q. q.places.items };
}

impl Queue {
    /// Makes an empty queue.
    pub fn new(alloc: Global) -> Queue
        ensures { result ≡ [] }
    {
        Queue {
            places: VecDeque::new(alloc),
        }
    }

    /// Returns the number of places.
    pub fn len(&self) -> usize
        ensures { result ≡ length self.now }
    {
        self.places.len()
    }

    /// Returns the first place, if there is one.
    pub fn first(&self) -> Option<usize>
        ensures { result ≡ first_of self.now }
    {
        self.places.front().copied()
    }

    /// Appends a place. When out of memory, leaves the queue unchanged.
    pub fn push(&mut self, place: usize) -> Result<(), AllocError>
        ensures ok { OnOk result (self.new ≡ self.old ++ place ∷ []) }
        ensures err { OnErr result (self.new ≡ self.old) }
    {
        self.places.push_back(place)?;
        Ok(())
    }

    /// Removes the first place, if there is one.
    pub fn remove_first(&mut self)
        ensures { self.new ≡ rest_of self.old }
    {
        self.places.pop_front();
    }
}
