ghost use Rattle.std.specs.Prelude.{◌≡◌, ◌<◌, ◌≤◌, ◌+◌, not, IsTrue, IsFalse};
ghost use Rattle.repeat_link.specs.Received.{came, is_old, Takes};

/// The numbers that came: the greatest, and in bit k whether the number k + 1 below it came. So it tells of
/// 64 numbers below the greatest; those further below are past (as the window of RFC 4303, section 3.4.3).
/// The number 0 stands for nothing, and counts as come.
#[derive(Clone, Copy, Debug, PartialEq, Eq)]
pub struct Received {
    pub greatest: u64,
    pub bits: u64,
}

impl Received {
    /// Nothing came.
    pub fn new() -> Received
        ensures { result ≡ record { greatest = 0; bits = 0 } }
    {
        Received {
            greatest: 0,
            bits: 0,
        }
    }

    /// Returns whether the number is told to have come. Of a number that is past it is not.
    pub fn has(self, number: u64) -> bool
        ensures { result ≡ came self number }
    {
        let Received { greatest, bits } = self;
        if number >= greatest {
            return number == greatest;
        }
        let below = greatest - 1 - number;
        below < 64 && (bits >> below) & 1 == 1
    }

    /// Returns whether the number came or is past.
    pub fn is_old(self, number: u64) -> bool
        ensures { result ≡ is_old self number }
    {
        self.has(number) || self.greatest.saturating_sub(number) > 64
    }

    /// Takes a number above the greatest.
    fn raised(self, number: u64) -> Received
        requires { self.greatest < number }
        ensures { Takes self number result }
    {
        let step = number - self.greatest - 1;
        let bits = if step < 64 {
            ((self.bits << step) << 1) | (1 << step)
        } else {
            0
        };
        Received {
            greatest: number,
            bits,
        }
    }

    /// Takes a number below the greatest that is not past.
    fn marked(self, number: u64) -> Received
        requires below { number < self.greatest }
        requires within { self.greatest ≤ number + 64 }
        ensures { Takes self number result }
    {
        Received {
            greatest: self.greatest,
            bits: self.bits | (1 << (self.greatest - 1 - number)),
        }
    }

    /// Takes the number, unless it came or is past. Returns whether it was taken.
    pub fn take(&mut self, number: u64) -> bool
        ensures new { result ≡ not (is_old self.old number) }
        ensures taken { IsTrue result → Takes self.old number self.new }
        ensures same { IsFalse result → self.new ≡ self.old }
    {
        if self.is_old(number) {
            return false;
        }
        *self = if number > self.greatest {
            self.raised(number)
        } else {
            self.marked(number)
        };
        true
    }
}
