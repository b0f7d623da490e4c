ghost use Rattle.std.specs.Prelude.{◌≡◌, ◌↔◌, ◌≤◌, ◌∷◌, ◌++◌, [], Option, None, Some, if◌then◌else◌, IsTrue, IfOk, IfErr, OnErr, OnOk};
ghost use Rattle.ens_base.specs.Causes.{Rose};
ghost use Rattle.environment.specs.Links.{LinkCounts, Sends, Looks};
ghost use Rattle.environment.specs.MemQueue.{frame_at, found_in, QueueFails, queue_called, queue_failed, QueueSent, QueueGave};
ghost use Rattle.environment.specs.Told.{bytes_of, StaysTold, IsTold};

use crate::errors::LinkError;
use crate::link::Link;
use ens_base::Bytes;
use std::alloc::Global;
use std::marker::Model;

/// A link in memory whose looks give the frames sent over it, in the order of sending, whatever
/// number each was sent to. It keeps every frame, and the result of each look. Exactly the calls
/// whose numbers are listed fail; the first call is number 1. When out of memory, a call changes
/// nothing but the count of calls; so does a look that can no longer be counted.
#[derive(Drop)]
pub struct MemQueue {
    sent: Vec<(u32, Bytes)>,
    given: Vec<Option<Bytes>>,
    next: usize,
    failing: Vec<u64>,
    calls: u64,
    faults: u64,
    ghost next_is: { next ≡ found_in given.items },
}

impl Model for MemQueue {
    ghost use Rattle.environment.specs.MemQueue.{Queue};

    ghost Value = { Queue };

    ghost view = { λ q. record { sent = q.sent.items; given = q.given.items; failing = q.failing.items; calls = q.calls; faults = q.faults } };
}

impl MemQueue {
    /// Makes a link over which no frame was sent, and which fails at the calls listed in `failing`.
    pub fn new(alloc: Global, failing: Vec<u64>) -> Self
        ensures { result ≡ record { sent = []; given = []; failing = failing.items; calls = 0; faults = 0 } }
    {
        MemQueue {
            sent: Vec::new(alloc),
            given: Vec::new(alloc),
            next: 0,
            failing,
            calls: 0,
            faults: 0,
        }
    }

    /// Counts a call, and a fault if the call is listed. Returns whether it is.
    fn fails(&mut self) -> bool
        ensures listed { IsTrue result ↔ QueueFails self.old }
        ensures queue { self.new ≡ (if result then queue_failed self.old else queue_called self.old) }
        ensures rose { IsTrue result → (self.old.faults ≤ self.new.faults) × Rose self.old.faults self.new.faults }
    {
        self.calls = self.calls.saturating_add(1);
        let listed = self.failing.contains(&self.calls);
        if listed {
            self.faults = self.faults.saturating_add(1);
        }
        listed
    }

    /// Returns a copy of the first frame that was not given yet.
    fn find(&self, alloc: Global) -> Result<Option<Vec<u8>>, LinkError>
        ensures found { IfOk result (λ o. bytes_of o ≡ frame_at (found_in self.now.given) self.now.sent) }
        ensures memory { IfErr result (λ e. e ≡ LinkError.Memory) }
    {
        match self.sent.get(self.next) {
            Some((_, frame)) => Ok(Some(Vec::from_slice(alloc, frame.as_slice())?)),
            None => Ok(None),
        }
    }

    /// Records the result of a look. When out of memory, records nothing.
    #[tactic(auto, using(crate::proofs::Queued::nothing_more, crate::proofs::Queued::one_frame_more))]
    fn note(&mut self, alloc: Global, found: &Option<Vec<u8>>) -> Result<(), LinkError>
        ensures noted { OnOk result (self.new ≡ record self.old { given = self.old.given ++ bytes_of found.now ∷ [] }) }
        ensures err { OnErr result (self.new ≡ self.old) }
        ensures memory { IfErr result (λ e. e ≡ LinkError.Memory) }
    {
        match found {
            None => self.given.push(None)?,
            Some(frame) => {
                let Some(next) = self.next.checked_add(1) else {
                    return Err(LinkError::Memory);
                };
                let frame = Bytes::from_slice(alloc, frame.as_slice())?;
                self.given.push(Some(frame))?;
                self.next = next;
            }
        }
        Ok(())
    }

    /// Records a frame as sent. When out of memory, records nothing.
    fn keep(&mut self, alloc: Global, to: u32, frame: &[u8]) -> Result<(), LinkError>
        ensures kept { OnOk result (self.new ≡ record self.old { sent = self.old.sent ++ (to, frame.now) ∷ [] }) }
        ensures err { OnErr result (self.new ≡ self.old) }
        ensures memory { IfErr result (λ e. e ≡ LinkError.Memory) }
    {
        let frame = Bytes::from_slice(alloc, frame)?;
        self.sent.push((to, frame))?;
        Ok(())
    }
}

impl Link for MemQueue {
    ghost sent = { λ q. Some q.sent };

    ghost given = { λ q. Some q.given };

    ghost waits = { λ q. Some (frame_at (found_in q.given) q.sent) };

    ghost fault_count = { λ q. q.faults };

    fn faults(&self) -> u64 {
        self.faults
    }

    fn send(&mut self, alloc: Global, to: u32, frame: &[u8]) -> Result<(), LinkError>
        ensures sent { Sends (Some self.old.sent) (Some self.new.sent) to frame.now result }
        ensures given { StaysTold (Some self.old.given) (Some self.new.given) }
        ensures counts { LinkCounts self.old.faults self.new.faults result }
        ensures exactly { QueueSent self.old to frame.now result self.new }
    {
        if self.fails() {
            return Err(LinkError::Failed);
        }
        self.keep(alloc, to, frame)
    }

    fn receive(&mut self, alloc: Global) -> Result<Option<Vec<u8>>, LinkError>
        ensures given { Looks (Some self.old.given) (Some self.new.given) result }
        ensures waited { IfOk result (λ o. IsTold (Some (frame_at (found_in self.old.given) self.old.sent)) (bytes_of o)) }
        ensures waits_on { OnErr result (StaysTold (Some (frame_at (found_in self.old.given) self.old.sent)) (Some (frame_at (found_in self.new.given) self.new.sent))) }
        ensures sent { StaysTold (Some self.old.sent) (Some self.new.sent) }
        ensures counts { LinkCounts self.old.faults self.new.faults result }
        ensures exactly { QueueGave self.old result self.new }
    {
        if self.fails() {
            return Err(LinkError::Failed);
        }
        let found = self.find(alloc)?;
        self.note(alloc, &found)?;
        Ok(found)
    }
}
