ghost use Rattle.std.specs.Prelude.{◌≡◌};
ghost use Rattle.repeat_link.specs.RoundTrips.{smoothed, first_wait};

/// The shortest wait for an acknowledgement, in microseconds.
pub const LEAST_WAIT: u64 = 5_000;

/// The smoothed round trip to a receiver, in microseconds, once one was measured (RFC 6298, section 2).
#[derive(Clone, Copy, Debug, PartialEq, Eq)]
pub struct RoundTrip {
    pub smoothed: Option<u64>,
}

impl RoundTrip {
    /// Nothing was measured.
    pub fn new() -> RoundTrip
        ensures { result ≡ record { smoothed = None } }
    {
        RoundTrip { smoothed: None }
    }

    /// Takes a measured round trip in: the first one as it is, each later one by an eighth.
    pub fn take(&mut self, sample: u64)
        ensures { self.new.smoothed ≡ Some (smoothed self.old.smoothed sample) }
    {
        self.smoothed = Some(match self.smoothed {
            None => sample,
            Some(old) => old - old / 8 + sample / 8,
        });
    }

    /// Returns how long to wait for the first acknowledgement of a frame: twice the smoothed round trip, at
    /// least 5 ms and at most `most`; `most` while none was measured.
    pub fn first_wait(self, most: u64) -> u64
        ensures { result ≡ first_wait self.smoothed most }
    {
        match self.smoothed {
            None => most,
            Some(trip) => trip.saturating_mul(2).max(LEAST_WAIT).min(most),
        }
    }
}
