ghost use Rattle.std.specs.Prelude.{◌≡◌, ℕ, List, [], None, true, false, not, nat_lt, take, IfOk, IfSome, OnOk, OnErr};
ghost use Rattle.environment.specs.Told.{bytes_of};

use crate::datagrams::{due_datagrams, send_all};
use crate::header::Header;
use crate::parts::MOST_PARTS;
use crate::reassembly::Reassembly;
use crate::received::Received;
use crate::round_trip::RoundTrip;
use crate::send_queue::{SendQueue, Timeouts};
use ens_base::Bytes;
use environment::{Link, LinkError};
use std::alloc::{AllocError, Global};
use std::marker::Model;

/// For how many ticks a frame is sent again.
const LIFE: u64 = 8;

/// How long an acknowledgement may wait for a frame to go with, in microseconds.
const OWED: u64 = 1_000;

/// What a process keeps of another one. Runs are numbers that rise from one start of a process to the next.
/// Whatever comes from an earlier run than one that was heard of is ignored. A new run has nothing of what
/// was sent to the one before, and nothing of what waited for that one is sent to it.
#[derive(Drop)]
pub struct Channel {
    queue: SendQueue,
    trip: RoundTrip,
    run: u64,
    received: Received,
    reassembly: Reassembly,
    owed: Option<u64>,
}

impl Model for Channel {
    ghost use Rattle.repeat_link.specs.Channels.{Talk};

    ghost Value = { Talk };

    ghost view = { λ c. record { queue = c.queue; trip = c.trip; run = c.run; received = c.received; partial = c.reassembly; owed = c.owed } };
}

impl Channel {
    ghost use Rattle.repeat_link.specs.Queues.{pushed};
    ghost use Rattle.repeat_link.specs.Received.{is_old};
    ghost use Rattle.repeat_link.specs.Sendings.{datagrams_now, SentTo};
    ghost use Rattle.repeat_link.specs.Channels.{
      met,
      acknowledged,
      heard,
      has_frame,
      noted,
      is_given,
      none_received,
      no_parts,
      headed,
      is_owed,
      expired,
      posted,
      swept,
      assembled,
      completed,
      delivered,
      Holds,
      IsPart,
      IsGenuine,
    };

    /// Nothing was sent or heard.
    pub fn new(alloc: Global) -> Channel
        ensures { result ≡ record { queue = record { next = 1; queued = [] }; trip = record { smoothed = None }; run = 0; received = none_received; partial = no_parts; owed = None } }
    {
        Channel {
            queue: SendQueue::new(alloc),
            trip: RoundTrip::new(),
            run: 0,
            received: Received::new(),
            reassembly: Reassembly::new(alloc),
            owed: None,
        }
    }

    /// Lets a frame wait. Fails only when out of memory; then nothing changed.
    fn push(&mut self, alloc: Global, now: u64, frame: &[u8]) -> Result<(), AllocError>
        ensures ok { OnOk result (self.new ≡ record self.old { queue = pushed now frame.now self.old.queue }) }
        ensures err { OnErr result (self.new ≡ self.old) }
    {
        self.queue.push(alloc, now, frame)
    }

    /// Turns to a greater run.
    fn meet(&mut self, run: u64)
        ensures { self.new ≡ met run self.old }
    {
        if run <= self.run {
            return;
        }
        if self.run != 0 {
            self.queue.clear();
        }
        self.run = run;
        self.received = Received::new();
        self.reassembly.clear();
    }

    /// Drops what is told to have come, and takes in how long that took.
    fn acknowledge(&mut self, now: u64, received: Received)
        ensures { self.new ≡ acknowledged now received self.old }
    {
        if let Some(sample) = self.queue.round_trip(now, received) {
            self.trip.take(sample);
        }
        self.queue.acknowledge(received);
    }

    /// Takes in what a header of the other process tells, where `own` is the run of this one. Returns
    /// whether the header is of the run that is now kept.
    fn hear(&mut self, now: u64, own: u64, header: &Header) -> bool
        ensures heard { self.new ≡ heard now own header.now self.old }
        ensures result { result ≡ not (nat_lt header.now.run self.old.run) }
    {
        if header.run < self.run {
            return false;
        }
        self.meet(header.run);
        if header.known_run == own {
            self.acknowledge(now, header.received);
        }
        true
    }

    /// Puts a part to those that came, and returns the frame once it is whole.
    fn assemble(
        &mut self,
        alloc: Global,
        header: &Header,
        part: &[u8],
    ) -> Result<Option<Vec<u8>>, AllocError>
        ensures gives { IfOk result (λ o. bytes_of o ≡ assembled header.now part.now self.old.partial) }
        ensures others { self.new ≡ record self.old { partial = self.new.partial } }
        ensures sent { (frames : ℕ → ℕ → List ℕ) → header.now.run ≡ self.old.run → Holds frames self.old
            → IsPart frames header.now part.now → Holds frames self.new
            × IfOk result (λ o. IfSome o (λ f. f.items ≡ frames header.now.run header.now.number)) }
    {
        if header.parts == 1 {
            return Ok(Some(Vec::from_slice(alloc, part)?));
        }
        let (place, count) = (usize::from(header.part), usize::from(header.parts));
        if place >= count || count > MOST_PARTS {
            return Ok(None);
        }
        self.reassembly
            .put(alloc, header.number, place, count, part)?;
        self.reassembly.whole(alloc)
    }

    /// Takes in what a header tells. Returns whether it is of the run that is now kept and has a frame. An
    /// acknowledgement is then owed.
    fn note(&mut self, now: u64, own: u64, header: &Header) -> bool
        ensures noted { self.new ≡ noted now own header.now self.old }
        ensures result { result ≡ has_frame header.now self.old }
    {
        if !self.hear(now, own, header) || header.number == 0 {
            return false;
        }
        self.owed = Some(self.owed.unwrap_or(now));
        true
    }

    /// Notes that the frame of this number came, all of it.
    fn settle(&mut self, number: u64)
        ensures old { is_old self.new.received number ≡ true }
        ensures kept { (m : ℕ) → is_old self.old.received m ≡ true → is_old self.new.received m ≡ true }
        ensures others { self.new ≡ record self.old { received = self.new.received; partial = no_parts } }
    {
        self.received.take(number);
        self.reassembly.clear();
    }

    /// Takes a part in. Returns the frame that it completes, if that is for this run and did not come before.
    fn complete(
        &mut self,
        alloc: Global,
        own: u64,
        header: &Header,
        part: &[u8],
    ) -> Result<Option<Vec<u8>>, AllocError>
        ensures gives { IfOk result (λ o. bytes_of o ≡ completed own header.now part.now self.old) }
        ensures once { IfOk result (λ o. IfSome o (λ f. (is_old self.old.received header.now.number ≡ false) × (is_old self.new.received header.now.number ≡ true))) }
        ensures kept { (m : ℕ) → is_old self.old.received m ≡ true → is_old self.new.received m ≡ true }
        ensures others { self.new ≡ record self.old { received = self.new.received; partial = self.new.partial } }
        ensures sent { (frames : ℕ → ℕ → List ℕ) → header.now.run ≡ self.old.run → Holds frames self.old
            → IsPart frames header.now part.now → Holds frames self.new
            × IfOk result (λ o. IfSome o (λ f. f.items ≡ frames header.now.run header.now.number)) }
    {
        let is_for_this = header.known_run == own || header.known_run == 0;
        if !is_for_this || self.received.is_old(header.number) {
            return Ok(None);
        }
        match self.assemble(alloc, header, part)? {
            Some(frame) => {
                self.settle(header.number);
                Ok(Some(frame))
            }
            None => Ok(None),
        }
    }

    /// Takes a datagram of the other process in. Returns the frame that it completes, if that did not come
    /// before. Fails only when out of memory; then the frame did not come.
    pub fn take(
        &mut self,
        alloc: Global,
        now: u64,
        own: u64,
        header: &Header,
        part: &[u8],
    ) -> Result<Option<Vec<u8>>, AllocError>
        ensures gives { IfOk result (λ o. bytes_of o ≡ delivered own header.now part.now self.old) }
        ensures once { IfOk result (λ o. IfSome o (λ f. (is_given self.old header.now.run header.now.number ≡ false) × (is_given self.new header.now.run header.now.number ≡ true))) }
        ensures kept { (run number : ℕ) → is_given self.old run number ≡ true → is_given self.new run number ≡ true }
        ensures heard { let told = heard now own header.now self.old in (self.new.queue ≡ told.queue) × (self.new.trip ≡ told.trip) × (self.new.run ≡ told.run) }
        ensures sent { (frames : ℕ → ℕ → List ℕ) → Holds frames self.old → IsGenuine frames header.now part.now
            → Holds frames self.new × IfOk result
            (λ o. IfSome o (λ f. f.items ≡ frames header.now.run header.now.number)) }
    {
        if self.note(now, own, header) {
            self.complete(alloc, own, header, part)
        } else {
            Ok(None)
        }
    }

    /// Completes a header: with the run of the other process, and which of its numbers came.
    fn headed(&self, header: &Header) -> Header
        ensures { result ≡ headed header.now self.now }
    {
        Header {
            known_run: self.run,
            received: self.received,
            ..*header
        }
    }

    /// Returns whether an acknowledgement has waited long enough to go alone.
    fn owes(&self, now: u64) -> bool
        ensures { result ≡ is_owed now self.now.owed }
    {
        match self.owed {
            Some(since) => now.saturating_sub(since) >= OWED,
            None => false,
        }
    }

    /// Drops the frames that have waited for 8 ticks.
    fn expire(&mut self, now: u64, tick: u64)
        ensures { self.new ≡ expired now tick self.old }
    {
        self.queue.expire(now, tick.saturating_mul(LIFE));
    }

    /// Returns the datagrams to send now, under this header.
    fn outgoing(&self, alloc: Global, now: u64, header: &Header) -> Result<Vec<Bytes>, AllocError>
        ensures { IfOk result (λ v. v.items ≡ datagrams_now now header.now self.now) }
    {
        let header = self.headed(header);
        if self.queue.has_due(now) {
            return due_datagrams(
                alloc,
                &header,
                self.queue.queued(),
                self.queue.oldest(),
                now,
            );
        }
        let mut out = Vec::new(alloc);
        if !self.owes(now) {
            return Ok(out);
        }
        out.push(Bytes::new(header.datagram(alloc, &[])?))?;
        Ok(out)
    }

    /// Notes that what was due was sent now, frames or an acknowledgement.
    fn mark(&mut self, now: u64, tick: u64)
        ensures { self.new ≡ swept now tick self.old }
    {
        if self.queue.has_due(now) {
            let timeouts = Timeouts {
                first: self.trip.first_wait(tick),
                most: tick,
            };
            self.queue.mark(now, &timeouts);
            self.owed = None;
            return;
        }
        if self.owes(now) {
            self.owed = None;
        }
    }

    /// Sends what is due over the link: frames that were not sent yet, those whose acknowledgement is late,
    /// and an acknowledgement alone if it is owed and no frame goes. Frames that waited for 8 ticks are
    /// dropped first. After an error all other frames wait as they did, and the first datagrams were sent.
    pub fn send_due<L: Link>(
        &mut self,
        link: &mut L,
        alloc: Global,
        now: u64,
        tick: u64,
        header: &Header,
    ) -> Result<(), LinkError>
        ensures ok { OnOk result (self.new ≡ swept now tick (expired now tick self.old)) }
        ensures err { OnErr result (self.new ≡ expired now tick self.old) }
        ensures sent { OnOk result (SentTo (L.sent link.old) (L.sent link.new) header.now.to (datagrams_now now header.now (expired now tick self.old))) }
        ensures front { OnErr result ((count : ℕ) × SentTo (L.sent link.old) (L.sent link.new) header.now.to (take count (datagrams_now now header.now (expired now tick self.old)))) }
    {
        self.expire(now, tick);
        let datagrams = self.outgoing(alloc, now, header)?;
        send_all(link, alloc, header.to, &datagrams)?;
        self.mark(now, tick);
        Ok(())
    }

    /// Lets a frame wait, and sends what is due over the link. After an error the frame may wait all the
    /// same.
    pub fn post<L: Link>(
        &mut self,
        link: &mut L,
        alloc: Global,
        now: u64,
        tick: u64,
        header: &Header,
        frame: &[u8],
    ) -> Result<(), LinkError>
        ensures ok { OnOk result (self.new ≡ posted now tick frame.now self.old) }
        ensures sent { OnOk result (SentTo (L.sent link.old) (L.sent link.new) header.now.to
            (datagrams_now now header.now
            (expired now tick (record self.old { queue = pushed now frame.now self.old.queue })))) }
    {
        self.push(alloc, now, frame)?;
        self.send_due(link, alloc, now, tick, header)
    }
}
