//! Tests an order of 20,000 calls of which one in ten has no printed reply, and compares the test with
//! a plain search on every order of three calls out of a small set.

mod long;
mod plain;
mod small;

use std::alloc::Global;

/// Returns how many orders of three calls were tested, how many of them are runs, on how many the
/// search agrees, and whether the long order is a run. `None` when out of memory.
pub fn measure(alloc: Global) -> Option<(u32, u32, u32, bool)> {
    let (orders, runs, same) = small::compared(alloc)?;
    let long = long::is_run_of(alloc, 20_000)?;
    Some((orders, runs, same, long))
}
