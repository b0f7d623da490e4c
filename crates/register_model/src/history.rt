use ens_base::{Key, Seq};

/// The history of a key: the ids of calls on it, in an order in which one register may have met
/// them.
#[derive(Debug, Drop)]
pub struct History {
    /// The key.
    pub key: Key,
    /// The ids of the calls, in order.
    pub calls: Seq<u64>,
}
