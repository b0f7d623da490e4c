ghost use Rattle.std.specs.Prelude.{◌≡◌, ◌↔◌, ◌<◌, IsTrue};

use std::time::Duration;

/// What a connection is doing.
#[derive(Clone, Copy, Debug, PartialEq, Eq)]
pub(crate) enum Phase {
    /// Nothing came since the last answer.
    Idle,
    /// A part of a request came.
    Sends,
    /// A request waits for its answer.
    Waits,
    /// An answer is taken.
    Takes,
}

/// How long a connection may stay in a phase.
#[derive(Clone, Copy, Debug, PartialEq, Eq)]
pub struct Patience {
    /// With nothing to do.
    pub idle: Duration,
    /// For a request to be sent, from its first byte on.
    pub send: Duration,
    /// For an answer to be taken.
    pub take: Duration,
}

impl Patience {
    /// 60 seconds without a request, 5 to send one, and 5 to take an answer.
    pub fn usual() -> Patience {
        Patience {
            idle: Duration::from_secs(60),
            send: Duration::from_secs(5),
            take: Duration::from_secs(5),
        }
    }

    /// Whether a connection has been in the phase for too long. One that waits for its answer is not.
    pub(crate) fn is_over(&self, phase: Phase, time: Duration) -> bool {
        match phase {
            Phase::Idle => time > self.idle,
            Phase::Sends => time > self.send,
            Phase::Takes => time > self.take,
            Phase::Waits => false,
        }
    }
}
