ghost use Rattle.std.specs.Prelude.{◌≡◌, ◌++◌, ◌∷◌, [], ℕ, List, drop, length, slice_get, OnOk, OnErr};

use std::alloc::{AllocError, Global};
use std::collections::VecDeque;
use std::marker::Model;

/// The numbers of messages with the same bytes, the oldest at the front.
#[derive(Drop)]
pub struct Queue {
    numbers: VecDeque<u64>,
}

impl Model for Queue {
    ghost Value = { List ℕ };

    ghost view = { λ q. q.numbers.items };
}

impl Queue {
    /// Makes an empty queue.
    pub fn new(alloc: Global) -> Queue
        ensures { result ≡ [] }
    {
        Queue {
            numbers: VecDeque::new(alloc),
        }
    }

    /// Returns how many numbers there are.
    pub fn len(&self) -> usize
        ensures { result ≡ length self.now }
    {
        self.numbers.len()
    }

    /// Returns the number at the front, if there is one.
    pub fn first(&self) -> Option<u64>
        ensures { result ≡ slice_get self.now 0 }
    {
        self.numbers.front().copied()
    }

    /// Puts a number at the back. When out of memory, leaves the queue unchanged.
    pub fn push(&mut self, number: u64) -> Result<(), AllocError>
        ensures ok { OnOk result (self.new ≡ self.old ++ number ∷ []) }
        ensures err { OnErr result (self.new ≡ self.old) }
    {
        self.numbers.push_back(number)?;
        Ok(())
    }

    /// Removes the number at the front, if there is one.
    pub fn remove_first(&mut self)
        ensures { self.new ≡ drop 1 self.old }
    {
        self.numbers.pop_front();
    }
}
