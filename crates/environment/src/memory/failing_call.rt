/// What a failing call leaves behind. For a call that only reads, both are the same.
#[derive(Clone, Copy, Debug, PartialEq, Eq)]
pub enum Leaves {
    /// The state before the call: the call had no effect.
    Old,
    /// The state after the call: it took effect, and still reports a failure.
    New,
}

/// A call that is planned to fail.
#[derive(Clone, Copy, Debug, PartialEq, Eq)]
pub struct FailingCall {
    /// The number of the call among all calls of its store. The first call is number 1.
    pub call: u64,
    /// What the call leaves behind.
    pub leaves: Leaves,
}
