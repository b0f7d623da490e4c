ghost use Rattle.std.specs.Prelude.{◌≡◌, ◌≤◌, ℕ, List, Option, None, Some, IfOk, OnOk, slice_get, slice_set};
ghost use Rattle.environment.specs.Links.{LinkCounts, Sends};
ghost use Rattle.environment.specs.Told.{StaysTold};
ghost use Rattle.repeat_link.specs.Channels.{Talk, posted};
ghost use Rattle.repeat_link.specs.Parts.{part_count};

use crate::channel::Channel;
use crate::header::{HEADER_LENGTH, Header};
use crate::parts::{MOST_PARTS, part_count};
use crate::received::Received;
use crate::time_source::TimeSource;
use environment::{Link, LinkError};
use std::alloc::{AllocError, Global};

/// How many numbers there are, from 0 on.
pub const CHANNELS: usize = 64;

/// How many datagrams a look takes at most, until one of them completes a frame.
const LOOKS: usize = 64;

/// How often a look sends what is due to all, in microseconds.
const SWEEP: u64 = 1_000;

/// A link over another one that sends again what was not acknowledged, and gives each frame once.
///
/// `send` lets the frame wait, and sends what is due to its receiver. A look first sends what is due to all,
/// at most once a millisecond; so frames go again only while somebody sends or looks. Then it takes datagrams
/// until one completes a frame. Where 64 of them complete none, it gives the empty frame, which is no frame:
/// more may wait.
///
/// A frame for a number from 64 on is lost, and so is one of more than 89,600 bytes; `lost` counts them. When
/// out of memory, a frame that came is not acknowledged, so it comes again.
#[derive(Drop)]
pub struct RepeatLink<L: Link, T: TimeSource> {
    inner: L,
    time: T,
    own: u32,
    run: u64,
    tick: u64,
    swept: u64,
    channels: Vec<Channel>,
    faults: u64,
    lost: u64,
}

impl<L: Link + Drop, T: TimeSource + Drop> RepeatLink<L, T> {
    /// Makes the link of the number `own`. `run` is above 0, and greater at each start of this process. A
    /// frame is sent again after at most `tick` microseconds, until 8 of these have passed. Fails only when
    /// out of memory.
    pub fn new(
        alloc: Global,
        inner: L,
        time: T,
        own: u32,
        run: u64,
        tick: u64,
    ) -> Result<Self, AllocError>
        ensures { IfOk result (λ l. l.faults ≡ 0) }
    {
        let mut channels = Vec::with_capacity(alloc, CHANNELS)?;
        for _ in 0..CHANNELS {
            channels.push(Channel::new(alloc))?;
        }
        Ok(RepeatLink {
            inner,
            time,
            own,
            run,
            tick,
            swept: 0,
            channels,
            faults: 0,
            lost: 0,
        })
    }
}

impl<L: Link, T: TimeSource> RepeatLink<L, T> {
    /// Returns how many frames were lost for their receiver or their length, or the greatest u64 if there
    /// were more.
    pub fn lost(&self) -> u64
        ensures { result ≡ self.now.lost }
    {
        self.lost
    }

    /// The header of what goes to a number and acknowledges nothing.
    fn header(&self, to: u32) -> Header {
        Header {
            from: self.own,
            to,
            run: self.run,
            known_run: 0,
            number: 0,
            received: Received::new(),
            part: 0,
            parts: 0,
        }
    }

    /// Sends what is due to a number.
    fn send_due(&mut self, alloc: Global, now: u64, to: u32) -> Result<(), LinkError>
        ensures { self.new.faults ≡ self.old.faults }
    {
        let header = self.header(to);
        match self.channels.get_mut(to as usize) {
            Some(channel) => channel.send_due(&mut self.inner, alloc, now, self.tick, &header),
            None => Ok(()),
        }
    }

    /// Sends what is due to all numbers, if a millisecond has passed since it last did.
    fn sweep(&mut self, alloc: Global, now: u64) -> Result<(), LinkError>
        ensures { self.new.faults ≡ self.old.faults }
    {
        if now.saturating_sub(self.swept) < SWEEP {
            return Ok(());
        }
        for to in 0..CHANNELS as u32 {
            self.send_due(alloc, now, to)?;
        }
        self.swept = now;
        Ok(())
    }

    /// Lets a frame wait, and sends what is due to its receiver.
    fn post(&mut self, alloc: Global, to: u32, frame: &[u8]) -> Result<(), LinkError>
        ensures faults { self.new.faults ≡ self.old.faults }
        ensures posted { OnOk result (part_count frame.now ≤ 64 → (t : Talk)
            → slice_get self.old.channels.items to ≡ Some t → (now : ℕ)
            × (self.new.channels.items ≡ slice_set self.old.channels.items to (posted now self.old.tick frame.now t))) }
    {
        let now = self.time.now();
        let header = self.header(to);
        match self.channels.get_mut(to as usize) {
            Some(channel) if part_count(frame) <= MOST_PARTS => {
                channel.post(&mut self.inner, alloc, now, self.tick, &header, frame)
            }
            _ => {
                self.lost = self.lost.saturating_add(1);
                Ok(())
            }
        }
    }

    /// Takes a datagram in. Returns the frame that it completes. One for another number is ignored, and so is
    /// one from a number from 64 on.
    fn take(
        &mut self,
        alloc: Global,
        now: u64,
        datagram: &[u8],
    ) -> Result<Option<Vec<u8>>, AllocError>
        ensures { self.new.faults ≡ self.old.faults }
    {
        let Some(header) = Header::read(datagram) else {
            return Ok(None);
        };
        if header.to != self.own {
            return Ok(None);
        }
        match self.channels.get_mut(header.from as usize) {
            Some(channel) => channel.take(
                alloc,
                now,
                self.run,
                &header,
                &datagram[HEADER_LENGTH..],
            ),
            None => Ok(None),
        }
    }

    /// Looks for a frame, and counts no fault.
    fn look(&mut self, alloc: Global) -> Result<Option<Vec<u8>>, LinkError>
        ensures { self.new.faults ≡ self.old.faults }
    {
        let now = self.time.now();
        self.sweep(alloc, now)?;
        for _ in 0..LOOKS {
            let Some(datagram) = self.inner.receive(alloc)? else {
                return Ok(None);
            };
            if let Some(frame) = self.take(alloc, now, &datagram)? {
                return Ok(Some(frame));
            }
        }
        Ok(Some(Vec::new(alloc)))
    }

    /// Counts a fault if the call failed. Returns what the call answered.
    fn counted<X>(&mut self, answer: Result<X, LinkError>) -> Result<X, LinkError>
        ensures answer { result ≡ answer }
        ensures counts { LinkCounts self.old.faults self.new.faults result }
        ensures channels { self.new.channels ≡ self.old.channels }
    {
        if let Err(LinkError::Failed) = &answer {
            self.faults = self.faults.saturating_add(1);
        }
        answer
    }
}

impl<L: Link, T: TimeSource> Link for RepeatLink<L, T> {
    ghost sent = { λ l. None };

    ghost given = { λ l. None };

    ghost waits = { λ l. None };

    ghost fault_count = { λ l. l.faults };

    fn faults(&self) -> u64 {
        self.faults
    }

    /// Sends a frame: it waits in the channel of its receiver, unless it is too long, and what is due there
    /// is sent.
    fn send(&mut self, alloc: Global, to: u32, frame: &[u8]) -> Result<(), LinkError>
        ensures sent { Sends None None to frame.now result }
        ensures given { StaysTold {A = List (Option (List ℕ))} None None }
        ensures counts { LinkCounts self.old.faults self.new.faults result }
        ensures posted { OnOk result (part_count frame.now ≤ 64 → (t : Talk)
            → slice_get self.old.channels.items to ≡ Some t → (now : ℕ)
            × (self.new.channels.items ≡ slice_set self.old.channels.items to (posted now self.old.tick frame.now t))) }
    {
        let sent = self.post(alloc, to, frame);
        self.counted(sent)
    }

    fn receive(&mut self, alloc: Global) -> Result<Option<Vec<u8>>, LinkError> {
        let received = self.look(alloc);
        self.counted(received)
    }
}
