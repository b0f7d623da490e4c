use thiserror::Error;

/// A call to a source, a sink or a disk failed. The fault count of the callee has risen.
#[derive(Clone, Copy, Debug, PartialEq, Eq, Error)]
#[error("a call to the outside failed")]
pub struct Failed;
