/// Sees each piece of work begin, in whatever thread it runs, and says how many nodes are worth threads.
pub trait Gate {
    /// Called as a piece begins: the halves of a level are pieces 0 and 1, their halves 2 to 5, and
    /// the halves of these 6 to 13.
    fn enter(&self, piece: u32);

    /// The number of nodes from which on a level is hashed in halves.
    fn fewest_in_halves(&self) -> usize;
}

/// A gate that does nothing as a piece begins, and leaves a level of fewer than 1,000 nodes to one
/// thread: to start threads takes longer than to hash a few hundred nodes.
#[derive(Clone, Copy, Debug)]
pub struct NoGate;

impl Gate for NoGate {
    fn enter(&self, _piece: u32) {}

    fn fewest_in_halves(&self) -> usize {
        1_000
    }
}
