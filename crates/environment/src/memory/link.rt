ghost use Rattle.std.specs.Prelude.{◌≡◌, ◌↔◌, ◌≤◌, ◌∷◌, ◌++◌, [], Option, None, Some, if◌then◌else◌, IsTrue, IfOk, IfErr, OnErr, OnOk};
ghost use Rattle.ens_base.specs.Causes.{Rose};
ghost use Rattle.environment.specs.Links.{LinkCounts, Sends, Looks};
ghost use Rattle.environment.specs.MemLink.{look_at, first_looks, FailsNext, link_called, link_failed, SendDid, ReceiveDid};
ghost use Rattle.environment.specs.Told.{bytes_of, StaysTold, IsTold};

use crate::errors::LinkError;
use crate::link::Link;
use ens_base::Bytes;
use std::alloc::Global;
use std::marker::Model;

/// A link in memory. The result of each look is given in advance; after the last of them nothing
/// waits. Sent frames are kept. Exactly the calls whose numbers are listed fail; the first call is
/// number 1. When out of memory, a call changes nothing but the count of calls; so does a look that
/// can no longer be counted.
#[derive(Drop)]
pub struct MemLink {
    looks: Vec<Option<Bytes>>,
    looked: usize,
    sent: Vec<(u32, Bytes)>,
    failing: Vec<u64>,
    calls: u64,
    faults: u64,
}

impl Model for MemLink {
    ghost use Rattle.environment.specs.MemLink.{Scripted};

    ghost Value = { Scripted };

    ghost view = { λ l. record { looks = l.looks.items; looked = l.looked; sent = l.sent.items; failing = l.failing.items; calls = l.calls; faults = l.faults } };
}

impl MemLink {
    /// Makes a link whose looks give `looks` in order, and which fails at the calls listed in
    /// `failing`.
    pub fn new(alloc: Global, looks: Vec<Option<Bytes>>, failing: Vec<u64>) -> Self
        ensures { result ≡ record { looks = looks.items; looked = 0; sent = []; failing = failing.items; calls = 0; faults = 0 } }
    {
        MemLink {
            looks,
            looked: 0,
            sent: Vec::new(alloc),
            failing,
            calls: 0,
            faults: 0,
        }
    }

    /// Returns the frames sent, each with the number it was sent to, the oldest first.
    pub fn sent(&self) -> &[(u32, Bytes)]
        ensures { result.now ≡ self.now.sent }
    {
        self.sent.as_slice()
    }

    /// Counts a call, and a fault if the call is listed. Returns whether it is.
    fn fails(&mut self) -> bool
        ensures listed { IsTrue result ↔ FailsNext self.old }
        ensures link { self.new ≡ (if result then link_failed self.old else link_called self.old) }
        ensures rose { IsTrue result → (self.old.faults ≤ self.new.faults) × Rose self.old.faults self.new.faults }
    {
        self.calls = self.calls.saturating_add(1);
        let listed = self.failing.contains(&self.calls);
        if listed {
            self.faults = self.faults.saturating_add(1);
        }
        listed
    }

    /// Returns a copy of what the next look finds.
    fn find(&self, alloc: Global) -> Result<Option<Vec<u8>>, LinkError>
        ensures found { IfOk result (λ o. bytes_of o ≡ look_at self.now.looked self.now.looks) }
        ensures memory { IfErr result (λ e. e ≡ LinkError.Memory) }
    {
        if self.looked >= self.looks.len() {
            return Ok(None);
        }
        match &self.looks[self.looked] {
            Some(frame) => Ok(Some(Vec::from_slice(alloc, frame.as_slice())?)),
            None => Ok(None),
        }
    }

    /// Records a frame as sent. When out of memory, records nothing.
    fn keep(&mut self, alloc: Global, to: u32, frame: &[u8]) -> Result<(), LinkError>
        ensures kept { OnOk result (self.new ≡ record self.old { sent = self.old.sent ++ (to, frame.now) ∷ [] }) }
        ensures err { OnErr result (self.new ≡ self.old) }
        ensures memory { IfErr result (λ e. e ≡ LinkError.Memory) }
    {
        let frame = Bytes::from_slice(alloc, frame)?;
        self.sent.push((to, frame))?;
        Ok(())
    }
}

impl Link for MemLink {
    ghost sent = { λ l. Some l.sent };

    ghost given = { λ l. Some (first_looks l.looked l.looks) };

    ghost waits = { λ l. Some (look_at l.looked l.looks) };

    ghost fault_count = { λ l. l.faults };

    fn faults(&self) -> u64 {
        self.faults
    }

    fn send(&mut self, alloc: Global, to: u32, frame: &[u8]) -> Result<(), LinkError>
        ensures sent { Sends (Some self.old.sent) (Some self.new.sent) to frame.now result }
        ensures given { StaysTold (Some (first_looks self.old.looked self.old.looks)) (Some (first_looks self.new.looked self.new.looks)) }
        ensures counts { LinkCounts self.old.faults self.new.faults result }
        ensures exactly { SendDid self.old to frame.now result self.new }
    {
        if self.fails() {
            return Err(LinkError::Failed);
        }
        self.keep(alloc, to, frame)
    }

    #[tactic(auto, using(crate::proofs::Looking::one_look_more))]
    fn receive(&mut self, alloc: Global) -> Result<Option<Vec<u8>>, LinkError>
        ensures given { Looks (Some (first_looks self.old.looked self.old.looks)) (Some (first_looks self.new.looked self.new.looks)) result }
        ensures waited { IfOk result (λ o. IsTold (Some (look_at self.old.looked self.old.looks)) (bytes_of o)) }
        ensures waits_on { OnErr result (StaysTold (Some (look_at self.old.looked self.old.looks)) (Some (look_at self.new.looked self.new.looks))) }
        ensures sent { StaysTold (Some self.old.sent) (Some self.new.sent) }
        ensures counts { LinkCounts self.old.faults self.new.faults result }
        ensures exactly { ReceiveDid self.old result self.new }
    {
        if self.fails() {
            return Err(LinkError::Failed);
        }
        let Some(looked) = self.looked.checked_add(1) else {
            return Err(LinkError::Memory);
        };
        let found = self.find(alloc)?;
        self.looked = looked;
        Ok(found)
    }
}
