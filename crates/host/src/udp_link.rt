ghost use Rattle.std.specs.Prelude.{◌≡◌, ◌≤◌, ◌+◌, ◌^◌, None, IfOk, OnErr};
ghost use Rattle.environment.specs.Links.{LinkCounts};
ghost use Rattle.host.specs.Faults.{CountsExactly};

use crate::mailbox::Mailbox;
use crate::ports::port_of;
use environment::{Link, LinkError};
use std::alloc::Global;
use std::net::Net;

/// A link over UDP (RFC 768) on 127.0.0.1. The number N has the port `base + N`, and a frame is the
/// payload of one datagram. The link receives what is sent to the numbers `first` to `last`: one for a
/// peer of its own, and several for peers that share a process.
///
/// The sockets are bound at the first call. Until a call succeeds in that, each one tries again, and
/// fails if one of the ports is taken.
///
/// A look goes over the sockets in the order of their numbers. If it finds a frame it returns it at
/// once, whatever its length: 0 bytes to the 65,507 that a datagram holds. The first look that finds
/// none after one that found a frame returns at once; each further one waits for a frame, for at most a
/// millisecond in all, without using the processor. A frame that is longer than a datagram is not sent:
/// the call fails. Whether somebody listens at the port of the receiver is not told.
#[derive(Drop)]
pub struct UdpLink<R: Net> {
    net: R,
    base: u16,
    first: u32,
    last: u32,
    mailbox: Option<Mailbox>,
    faults: u64,
}

impl<R: Net> UdpLink<R> {
    /// Makes a link of the numbers `first` to `last`. Binds nothing yet.
    pub fn new(net: R, base: u16, first: u32, last: u32) -> Self
        ensures { result.faults ≡ 0 }
    {
        UdpLink {
            net,
            base,
            first,
            last,
            mailbox: None,
            faults: 0,
        }
    }

    /// Returns the port of a number. Fails exactly if there is no such port.
    fn port(&self, number: u32) -> Result<u16, LinkError>
        ensures ok { IfOk result (λ port. port ≡ self.now.base + number) }
        ensures err { OnErr result (2 ^ 16 ≤ self.now.base + number) }
    {
        match port_of(self.base, number) {
            Some(port) => Ok(port),
            None => Err(LinkError::Failed),
        }
    }

    /// Binds a socket for each number of the link. If one cannot be bound, none is.
    fn open(&self, alloc: Global) -> Result<Mailbox, LinkError> {
        let mut mailbox = Mailbox::new(alloc)?;
        for number in self.first..=self.last {
            mailbox.open(&self.net, self.port(number)?)?;
        }
        Ok(mailbox)
    }

    /// Binds the sockets, if they are not bound yet.
    fn bind(&mut self, alloc: Global) -> Result<(), LinkError>
        ensures { self.new.faults ≡ self.old.faults }
    {
        if self.mailbox.is_none() {
            self.mailbox = Some(self.open(alloc)?);
        }
        Ok(())
    }

    /// Sends a frame, and counts no fault.
    fn post(&mut self, alloc: Global, to: u32, frame: &[u8]) -> Result<(), LinkError>
        ensures { self.new.faults ≡ self.old.faults }
    {
        self.bind(alloc)?;
        let port = self.port(to)?;
        match &self.mailbox {
            Some(mailbox) if mailbox.post(port, frame).is_ok() => Ok(()),
            _ => Err(LinkError::Failed),
        }
    }

    /// Looks for a frame, and counts no fault.
    fn look(&mut self, alloc: Global) -> Result<Option<Vec<u8>>, LinkError>
        ensures { self.new.faults ≡ self.old.faults }
    {
        self.bind(alloc)?;
        match &mut self.mailbox {
            Some(mailbox) => mailbox.receive(alloc),
            None => Err(LinkError::Failed),
        }
    }

    /// Counts a fault if the call failed. Returns what the call answered.
    fn counted<T>(&mut self, answer: Result<T, LinkError>) -> Result<T, LinkError>
        ensures answer { result ≡ answer }
        ensures counts { LinkCounts self.old.faults self.new.faults result }
        ensures exactly { CountsExactly self.old.faults self.new.faults result }
    {
        if let Err(LinkError::Failed) = &answer {
            self.faults = self.faults.saturating_add(1);
        }
        answer
    }
}

impl<R: Net> Link for UdpLink<R> {
    ghost sent = { λ l. None };

    ghost given = { λ l. None };

    ghost waits = { λ l. None };

    ghost fault_count = { λ l. l.faults };

    fn faults(&self) -> u64 {
        self.faults
    }

    fn send(&mut self, alloc: Global, to: u32, frame: &[u8]) -> Result<(), LinkError> {
        let sent = self.post(alloc, to, frame);
        self.counted(sent)
    }

    fn receive(&mut self, alloc: Global) -> Result<Option<Vec<u8>>, LinkError> {
        let received = self.look(alloc);
        self.counted(received)
    }
}
