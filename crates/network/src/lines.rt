ghost use Rattle.std.specs.Prelude.{◌≡◌, ◌<◌, ℕ, [], ◌∷◌, ◌++◌, length, slice_get, IfOk, OnOk, OnErr};
ghost use Rattle.network.specs.Lines.{line, from_waiting, cleared, AreBelow, Changes};

use std::alloc::{AllocError, Global};
use std::collections::VecDeque;
use std::marker::Model;

/// One line for each pair of numbers below 32.
const LINES: usize = 1024;

/// Numbers of messages, in one queue for each sender and receiver. Contracts see the list of the
/// queues, each as the list of its numbers.
#[derive(Drop)]
pub struct Lines {
    lines: Vec<VecDeque<usize>>,
}

impl Model for Lines {
    ghost use Rattle.std.specs.Prelude.{◌≡◌, ℕ, List, map, vec_len};

    ghost Value = { List (List ℕ) };

    ghost view = { λ l. map (λ q. q.items) l.lines.items };

    ghost invariant = { λ l. vec_len l.lines ≡ 1024 };
}

impl Lines {
    /// Makes lines that are all empty. Fails when out of memory.
    pub fn new(alloc: Global) -> Result<Lines, AllocError>
        ensures { IfOk result (λ l. (p : ℕ) → line l p ≡ []) }
    {
        let mut lines = Vec::with_capacity(alloc, LINES)?;
        for _ in 0..LINES {
            lines.push(VecDeque::new(alloc))?;
        }
        Ok(Lines { lines })
    }

    /// Puts `number` at the back of the line at `place`. Fails when out of memory, and then leaves
    /// all lines as they were.
    pub fn push(&mut self, place: usize, number: usize) -> Result<(), AllocError>
        requires { place < 1024 }
        ensures ok { OnOk result (Changes self.old self.new place (λ ns. ns ++ number ∷ [])) }
        ensures err { OnErr result (self.new ≡ self.old) }
    {
        self.lines[place].push_back(number)?;
        Ok(())
    }

    /// Removes the numbers at the front of the line at `place` that no longer wait.
    pub fn skip(&mut self, place: usize, waiting: &[bool])
        requires place { place < 1024 }
        requires known { AreBelow (length waiting.now) (line self.old place) }
        ensures { Changes self.old self.new place (from_waiting waiting.now) }
    {
        skip_settled(&mut self.lines[place], waiting);
    }

    /// Removes all numbers from the line at `place`, and clears their flags.
    pub fn clear(&mut self, place: usize, waiting: &mut [bool])
        requires place { place < 1024 }
        requires known { AreBelow (length waiting.old) (line self.old place) }
        ensures flags { waiting.new ≡ cleared waiting.old (line self.old place) }
        ensures empty { Changes self.old self.new place (λ ns. []) }
    {
        clear_all(&mut self.lines[place], waiting);
    }

    /// Returns the number at the front of the line at `place`, or `None` if the line is empty.
    pub fn first(&self, place: usize) -> Option<usize>
        requires { place < 1024 }
        ensures { result ≡ slice_get (line self.now place) 0 }
    {
        self.lines[place].front().copied()
    }
}

/// Removes the numbers at the front of the queue that no longer wait.
fn skip_settled(queue: &mut VecDeque<usize>, waiting: &[bool])
    requires { AreBelow (length waiting.now) queue.old.items }
    ensures { queue.new.items ≡ from_waiting waiting.now queue.old.items }
{
    while let Some(&number) = queue.front() {
        if waiting[number] {
            return;
        }
        queue.pop_front();
    }
}

/// Removes all numbers from the queue, and clears their flags.
fn clear_all(queue: &mut VecDeque<usize>, waiting: &mut [bool])
    requires { AreBelow (length waiting.old) queue.old.items }
    ensures flags { waiting.new ≡ cleared waiting.old queue.old.items }
    ensures empty { queue.new.items ≡ [] }
{
    while let Some(number) = queue.pop_front() {
        waiting[number] = false;
    }
}
