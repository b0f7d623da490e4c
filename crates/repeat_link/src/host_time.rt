use crate::time_source::TimeSource;
use std::rt::Clock;
use std::time::Instant;

/// The monotonic clock of the host, from its first reading on. Where it cannot be read, the time stands
/// still.
#[derive(Drop)]
pub struct HostTime<R: Clock> {
    clock: R,
    start: Option<Instant>,
    last: u64,
}

impl<R: Clock> HostTime<R> {
    /// Makes a clock. Reads nothing yet.
    pub fn new(clock: R) -> Self {
        HostTime {
            clock,
            start: None,
            last: 0,
        }
    }
}

impl<R: Clock> TimeSource for HostTime<R> {
    fn now(&mut self) -> u64 {
        if let Ok(now) = Instant::now(&self.clock) {
            match self.start {
                None => self.start = Some(now),
                Some(start) => {
                    let passed = now.duration_since(start).as_micros();
                    self.last = u64::try_from(passed).unwrap_or(u64::MAX);
                }
            }
        }
        self.last
    }
}
