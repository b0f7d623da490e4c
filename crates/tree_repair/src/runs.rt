ghost use Rattle.std.specs.Prelude.{◌≡◌, ◌<◌, ◌-◌, ◌+◌, length, map, nat_eq, IfOk};
ghost use Rattle.std.specs.List.{All, dedup};
ghost use Rattle.std.specs.List.Sorted.{IsNonDecreasing};
ghost use Rattle.tree_repair.specs.Runs.{IsRun, Ends};

use std::alloc::{AllocError, Global};

/// The places of one number in a list of numbers that ascend, some of them more than once.
#[derive(Clone, Copy)]
pub(crate) struct Run {
    pub(crate) number: u32,
    /// The first place.
    pub(crate) start: usize,
    /// The place behind the last one.
    pub(crate) end: usize,
}

/// Returns the place behind the last one of the number that stands at `start`.
fn end_of(numbers: &[u32], start: usize) -> usize
    requires { start < length numbers.now }
    ensures { Ends numbers.now start result }
{
    let number = numbers[start];
    for end in start + 1..numbers.len() {
        if numbers[end] != number {
            return end;
        }
    }
    numbers.len()
}

/// Returns the run of each number of a list of numbers that ascend, some of them more than once.
pub(crate) fn runs_of(alloc: Global, numbers: &[u32]) -> Result<Vec<Run>, AllocError>
    requires { IsNonDecreasing numbers.now }
    ensures numbers { IfOk result (λ v. map (λ r. r.number) v.items ≡ dedup nat_eq numbers.now) }
    ensures each { IfOk result (λ v. All (IsRun numbers.now) v.items) }
{
    let mut runs = Vec::new(alloc);
    let mut start = 0;
    while start < numbers.len() {
        let end = end_of(numbers, start);
        runs.push(Run {
            number: numbers[start],
            start,
            end,
        })?;
        start = end;
    }
    Ok(runs)
}
