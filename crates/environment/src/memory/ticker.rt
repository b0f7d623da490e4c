ghost use Rattle.std.specs.Prelude.{◌≡◌, ◌+◌, ◌≤◌, length, Some};
ghost use Rattle.environment.specs.MemLink.{answer_at};

use crate::ticker::Ticker;

/// A ticker that gives these answers in order, and after them is never due.
#[derive(Drop)]
pub struct MemTicker {
    answers: Vec<bool>,
    at: usize,
    ghost in_range: { at ≤ length answers.items },
}

impl MemTicker {
    /// Makes a ticker that gives `answers` in order.
    pub fn new(answers: Vec<bool>) -> Self
        ensures answers { result.answers ≡ answers }
        ensures start { result.at ≡ 0 }
    {
        MemTicker { answers, at: 0 }
    }
}

impl Ticker for MemTicker {
    ghost coming = { λ t. Some (λ n. answer_at t.answers.items (t.at + n)) };

    fn due(&mut self) -> bool {
        if self.at == self.answers.len() {
            return false;
        }
        self.at += 1;
        self.answers[self.at - 1]
    }
}
