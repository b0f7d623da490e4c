ghost use Rattle.std.specs.Prelude.{◌≡◌, ◌≤◌, Some, None, IfOk, OnErr};
ghost use Rattle.std.specs.Option.{option_map};
ghost use Rattle.environment.specs.Links.{LinkCounts, Sends, Looks};
ghost use Rattle.environment.specs.Told.{bytes_of, StaysTold, IsTold};
ghost use Rattle.frame_codes.specs.Seals.{opened};
ghost use Rattle.coded_link.specs.Coded.{frame_in, frames_sent, frame_given, frames_given, refusals, CountsRefusal};

use environment::{Link, LinkError};
use frame_codes::FrameKeys;
use std::alloc::Global;

/// A link over another one. A frame that is sent goes sealed under the first key. What comes is opened;
/// bytes that are not sealed under a key are given as the empty frame, which is no frame, and counted. So
/// they are not a look that found nothing: whoever sends many of them does not make a peer believe that
/// the network is quiet.
#[derive(Drop)]
pub struct CodedLink<L: Link> {
    inner: L,
    keys: FrameKeys,
    refused: u64,
}

impl<L: Link> CodedLink<L> {
    /// Makes a link that seals and opens with these keys.
    pub fn new(inner: L, keys: FrameKeys) -> Self
        ensures { result ≡ record { inner = inner; keys = keys; refused = 0 } }
    {
        CodedLink {
            inner,
            keys,
            refused: 0,
        }
    }

    /// Returns how many datagrams did not open, or the greatest u64 if there were more.
    pub fn refused(&self) -> u64
        ensures { result ≡ self.now.refused }
    {
        self.refused
    }

    /// Opens the bytes, in place. Bytes that do not open are counted, and nothing of them is left.
    fn open(&mut self, bytes: &mut Vec<u8>)
        ensures frame { bytes.new.items ≡ frame_in self.old.keys bytes.old.items }
        ensures count { self.new.refused ≡ refusals (opened self.old.keys bytes.old.items) self.old.refused }
        ensures others { self.new ≡ record self.old { refused = self.new.refused } }
    {
        let length = self.keys.open(bytes).map(<[u8]>::len);
        bytes.truncate(length.unwrap_or(0));
        if length.is_none() {
            self.refused = self.refused.saturating_add(1);
        }
    }
}

impl<L: Link> Link for CodedLink<L> {
    ghost sent = { λ l. frames_sent l.keys (L.sent l.inner) };

    ghost given = { λ l. frames_given l.keys (L.given l.inner) };

    ghost waits = { λ l. option_map (frame_given l.keys) (L.waits l.inner) };

    ghost fault_count = { λ l. L.fault_count l.inner };

    fn faults(&self) -> u64 {
        self.inner.faults()
    }

    fn send(&mut self, alloc: Global, to: u32, frame: &[u8]) -> Result<(), LinkError>
        ensures sent { Sends (frames_sent self.old.keys (L.sent self.old.inner)) (frames_sent self.new.keys (L.sent self.new.inner)) to frame.now result }
        ensures given { StaysTold (frames_given self.old.keys (L.given self.old.inner)) (frames_given self.new.keys (L.given self.new.inner)) }
        ensures counts { LinkCounts (L.fault_count self.old.inner) (L.fault_count self.new.inner) result }
        ensures same { (self.new.keys ≡ self.old.keys) × (self.new.refused ≡ self.old.refused) }
    {
        let sealed = self.keys.seal(alloc, frame)?;
        self.inner.send(alloc, to, &sealed)
    }

    fn receive(&mut self, alloc: Global) -> Result<Option<Vec<u8>>, LinkError>
        ensures given { Looks (frames_given self.old.keys (L.given self.old.inner)) (frames_given self.new.keys (L.given self.new.inner)) result }
        ensures waited { IfOk result (λ o. IsTold (option_map (frame_given self.old.keys) (L.waits self.old.inner)) (bytes_of o)) }
        ensures waits_on { OnErr result (StaysTold (option_map (frame_given self.old.keys) (L.waits self.old.inner)) (option_map (frame_given self.new.keys) (L.waits self.new.inner))) }
        ensures sent { StaysTold (frames_sent self.old.keys (L.sent self.old.inner)) (frames_sent self.new.keys (L.sent self.new.inner)) }
        ensures counts { LinkCounts (L.fault_count self.old.inner) (L.fault_count self.new.inner) result }
        ensures refused { IfOk result (λ o. CountsRefusal self.old.keys (L.waits self.old.inner) self.old.refused self.new.refused) }
        ensures unrefused { OnErr result (self.new.refused ≡ self.old.refused) }
        ensures keys { self.new.keys ≡ self.old.keys }
    {
        let mut received = self.inner.receive(alloc)?;
        if let Some(bytes) = &mut received {
            self.open(bytes);
        }
        Ok(received)
    }
}
