ghost use Rattle.std.specs.Prelude.{◌≡◌, ◌-◌, [], Some, true, length, filter, map, not, nat_lt, OnOk, OnErr, IfSome, slice_get};
ghost use Rattle.std.specs.List.{list_any};
ghost use Rattle.repeat_link.specs.Received.{came};
ghost use Rattle.repeat_link.specs.Queues.{fits_in, latest, round_trip_in, oldest, is_ready, is_due, next_sending, marked};

use crate::received::Received;
use ens_base::Bytes;
use std::alloc::{AllocError, Global};
use std::marker::Model;

/// The most frames that wait.
pub const MOST_FRAMES: usize = 1_024;

/// The most bytes of frames that wait.
pub const MOST_BYTES: usize = 1 << 20;

/// How far above the oldest frame that waits a frame may be to be sent. The receiver tells of as many
/// numbers, so it can tell of each one that is sent.
pub const WINDOW: u64 = 64;

/// The last time that a frame was sent: when, how long its acknowledgement is waited for, and whether it was
/// sent before.
#[derive(Clone, Copy, Debug, PartialEq, Eq)]
pub struct Sending {
    pub at: u64,
    pub wait: u64,
    pub again: bool,
}

/// How long an acknowledgement is waited for: at first, and at most.
#[derive(Clone, Copy, Debug, PartialEq, Eq)]
pub struct Timeouts {
    pub first: u64,
    pub most: u64,
}

/// A frame that waits to be acknowledged: its number, since when it waits, and when it was last sent.
#[derive(Drop)]
pub struct Queued {
    pub number: u64,
    pub since: u64,
    pub sent: Option<Sending>,
    pub frame: Bytes,
}

impl Queued {
    /// Returns whether the frame was not sent yet, or its acknowledgement is late.
    fn is_ready(&self, now: u64) -> bool
        ensures { result ≡ is_ready now self.now.sent }
    {
        match self.sent {
            None => true,
            Some(sent) => sent.wait <= now.saturating_sub(sent.at),
        }
    }

    /// Returns whether the frame is to be sent now, where `first` is the oldest number that waits.
    pub fn is_due(&self, first: u64, now: u64) -> bool
        ensures { result ≡ is_due first now self.now }
    {
        self.number.saturating_sub(first) < WINDOW && self.is_ready(now)
    }

    /// How the frame is sent now. Each time its acknowledgement is waited for twice as long, up to the longest.
    fn next_sending(&self, now: u64, timeouts: &Timeouts) -> Sending
        ensures { result ≡ next_sending now timeouts.now self.now.sent }
    {
        match self.sent {
            None => Sending {
                at: now,
                wait: timeouts.first,
                again: false,
            },
            Some(sent) => Sending {
                at: now,
                wait: sent.wait.saturating_mul(2).min(timeouts.most),
                again: true,
            },
        }
    }

    /// Notes that the frame was sent now, if it was due.
    fn mark(&mut self, first: u64, now: u64, timeouts: &Timeouts)
        ensures { self.new ≡ marked first now timeouts.now self.old }
    {
        if self.is_due(first, now) {
            self.sent = Some(self.next_sending(now, timeouts));
        }
    }
}

/// Returns whether so many frames may wait, with so many bytes.
fn fits(queued: &[Queued]) -> bool
    ensures { result ≡ fits_in MOST_FRAMES MOST_BYTES queued.now }
{
    if queued.len() > MOST_FRAMES {
        return false;
    }
    let mut room = MOST_BYTES;
    for one in queued {
        match room.checked_sub(one.frame.as_slice().len()) {
            Some(left) => room = left,
            None => return false,
        }
    }
    true
}

/// Drops the oldest frames until what waits is within its bounds.
fn trim(queued: &mut Vec<Queued>)
    ensures { queued.new.items ≡ latest queued.old.items }
{
    while !fits(queued) {
        queued.remove(0);
    }
}

/// Notes of each frame that is due that it was sent now.
fn mark_due(queued: &mut [Queued], first: u64, now: u64, timeouts: &Timeouts)
    ensures { queued.new ≡ map (marked first now timeouts.now) queued.old }
{
    for index in 0..queued.len() {
        queued[index].mark(first, now, timeouts);
    }
}

/// The frames that wait to be acknowledged by one receiver, the oldest first: at most 1,024 of them, with at
/// most 2^20 bytes. Contracts see them, and the
/// number that the next one gets.
#[derive(Drop)]
pub struct SendQueue {
    next: u64,
    queued: Vec<Queued>,
}

impl Model for SendQueue {
    ghost use Rattle.std.specs.Prelude.{◌≡◌, true};
    ghost use Rattle.repeat_link.specs.Queues.{Queue, fits_in};

    ghost Value = { Queue };

    ghost view = { λ q. record { next = q.next; queued = q.queued.items } };

    ghost invariant = { λ q. fits_in 1024 1048576 q.queued.items ≡ true };
}

impl SendQueue {
    ghost use Rattle.repeat_link.specs.Runs.{Push, Acknowledge, Expire, Mark, Clear, after};

    /// Makes a queue in which nothing waits. The first frame gets the number 1.
    pub fn new(alloc: Global) -> SendQueue
        ensures { result ≡ record { next = 1; queued = [] } }
    {
        SendQueue {
            next: 1,
            queued: Vec::new(alloc),
        }
    }

    /// Appends a frame under the next number. Where more wait than may, the oldest go; a frame that is too
    /// long for the bounds goes itself. After 2^64 - 2 frames there is no number left, and the frame is lost.
    /// Fails only when out of memory; then the queue is as it was.
    pub fn push(&mut self, alloc: Global, now: u64, frame: &[u8]) -> Result<(), AllocError>
        ensures ok { OnOk result (self.new ≡ after self.old (Push now frame.now)) }
        ensures err { OnErr result (self.new ≡ self.old) }
    {
        let Some(next) = self.next.checked_add(1) else {
            return Ok(());
        };
        let frame = Bytes::from_slice(alloc, frame)?;
        self.queued.push(Queued {
            number: self.next,
            since: now,
            sent: None,
            frame,
        })?;
        self.next = next;
        trim(&mut self.queued);
        Ok(())
    }

    /// Returns the round trip of the first frame that waits, is told to have come, and was sent once (RFC
    /// 6298, section 3, leaves out those that were sent again).
    pub fn round_trip(&self, now: u64, received: Received) -> Option<u64>
        ensures { result ≡ round_trip_in received now self.now.queued }
    {
        for one in &self.queued {
            if let Some(sent) = one.sent
                && !sent.again
                && received.has(one.number)
            {
                return Some(now.saturating_sub(sent.at));
            }
        }
        None
    }

    /// Drops the frames that are told to have come.
    pub fn acknowledge(&mut self, received: Received)
        ensures { self.new ≡ after self.old (Acknowledge received) }
    {
        self.queued.retain(|one| !received.has(one.number));
    }

    /// Drops the frames that have waited as long as `life`.
    pub fn expire(&mut self, now: u64, life: u64)
        ensures { self.new ≡ after self.old (Expire now life) }
    {
        self.queued
            .retain(|one| now.saturating_sub(one.since) < life);
    }

    /// Drops all frames.
    pub fn clear(&mut self)
        ensures { self.new ≡ after self.old Clear }
    {
        self.queued.clear();
    }

    /// Returns the frames that wait, the oldest first.
    pub fn queued(&self) -> &[Queued]
        ensures queued { result.now ≡ self.now.queued }
        ensures bounds { fits_in MOST_FRAMES MOST_BYTES self.now.queued ≡ true }
    {
        &self.queued
    }

    /// Returns the number of the oldest frame that waits, or 0 if none does.
    pub fn oldest(&self) -> u64
        ensures { result ≡ oldest self.now.queued }
    {
        match self.queued.first() {
            Some(one) => one.number,
            None => 0,
        }
    }

    /// Returns whether a frame is to be sent now.
    pub fn has_due(&self, now: u64) -> bool
        ensures { result ≡ list_any (is_due (oldest self.now.queued) now) self.now.queued }
    {
        let first = self.oldest();
        self.queued.iter().any(|one| one.is_due(first, now))
    }

    /// Notes that what was to be sent was sent now.
    pub fn mark(&mut self, now: u64, timeouts: &Timeouts)
        ensures { self.new ≡ after self.old (Mark now timeouts.now) }
    {
        let first = self.oldest();
        mark_due(&mut self.queued, first, now, timeouts);
    }
}
