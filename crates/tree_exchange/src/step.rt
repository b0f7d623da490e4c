/// What an answer did to an ask.
#[derive(Clone, Copy, Debug, PartialEq, Eq)]
pub enum Step {
    /// The answer was taken, and another question is open.
    Next,
    /// The answer was taken, and nothing is left to ask.
    Done,
    /// The answer reports damage or has the wrong form for its position. The ask is as it was.
    Dropped,
    /// The answer is not for the open question. The ask is as it was.
    Ignored,
}
