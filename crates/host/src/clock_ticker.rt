ghost use Rattle.std.specs.Prelude.{None};
ghost use Rattle.environment.specs.Links.{AnswersNext};
ghost use Rattle.host.specs.Ticks.{Asked};
ghost use Rattle.std.specs.Duration.{as_nanos};

use environment::Ticker;
use std::rt::Clock;
use std::time::{Duration, Instant};

/// A ticker over the monotonic clock: due where `every` has passed since it was made or last due,
/// however often it is asked. It is never due twice for the same time: ticks that nobody asked for are
/// not made up for. Where the clock cannot be read, no tick is due.
#[derive(Drop)]
pub struct ClockTicker<R: Clock> {
    clock: R,
    every: Duration,
    last: Option<Instant>,
}

impl<R: Clock> ClockTicker<R> {
    /// Makes a ticker, and reads the clock. If it cannot be read, the time counts from the first
    /// reading on.
    pub fn new(clock: R, every: Duration) -> Self {
        let last = Instant::now(&clock).ok();
        ClockTicker { clock, every, last }
    }
}

impl<R: Clock> Ticker for ClockTicker<R> {
    ghost coming = { λ t. None };

    fn due(&mut self) -> bool
        ensures next { AnswersNext None None result }
        ensures asked { Asked (as_nanos self.old.every) self.old.last result self.new.last }
    {
        let Ok(now) = Instant::now(&self.clock) else {
            return false;
        };
        let Some(last) = self.last else {
            self.last = Some(now);
            return false;
        };
        if now.duration_since(last) < self.every {
            return false;
        }
        self.last = Some(now);
        true
    }
}
