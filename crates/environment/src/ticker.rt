ghost use Rattle.std.specs.Prelude.{ℕ, Bool, Option};
ghost use Rattle.environment.specs.Links.{AnswersNext};

/// A clock that says when a tick is due.
pub trait Ticker {
    /// The answer to each later call, the next one being number 0; `None` if unknown.
    ghost coming: { Self → Option (ℕ → Bool) };

    /// Returns whether a tick is due now. If the clock cannot be read, none is.
    fn due(&mut self) -> bool
        ensures { AnswersNext (coming self.old) (coming self.new) result };
}
