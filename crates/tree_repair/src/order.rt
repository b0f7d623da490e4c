ghost use Rattle.std.specs.Prelude.{◌≡◌, ◌<◌, ◌==◌, ℕ, length, filter, IfOk};
ghost use Rattle.std.specs.List.{All};
ghost use Rattle.std.specs.List.Sorted.{IsNonDecreasingBy};
ghost use Rattle.tree_repair.specs.Segments.{placed};

use std::alloc::{AllocError, Global};

/// The place of an entry in a list, and the index of its segment.
#[derive(Clone, Copy)]
pub(crate) struct Placed {
    pub(crate) segment: u32,
    pub(crate) entry: usize,
}

/// Returns the places of the entries with these segments in the order of the segments; those of one
/// segment keep their order.
pub(crate) fn in_order(alloc: Global, segments: &[u32]) -> Result<Vec<Placed>, AllocError>
    ensures rises { IfOk result (λ v. IsNonDecreasingBy (λ p. p.segment) v.items) }
    ensures parts { IfOk result (λ v. (i : ℕ) → filter (λ p. p.segment == i) v.items ≡ filter (λ p. p.segment == i) (placed segments.now 0)) }
    ensures within { IfOk result (λ v. All (λ p. p.entry < length segments.now) v.items) }
{
    let mut order = Vec::with_capacity(alloc, segments.len())?;
    for entry in 0..segments.len() {
        order.push(Placed {
            segment: segments[entry],
            entry,
        })?;
    }
    order.sort_by_key(|placed| placed.segment)?;
    Ok(order)
}
