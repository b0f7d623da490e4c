use crate::patience::{Patience, Phase};
use http_exchange::{Exchange, Request};
use http1::Header;
use libc::net::{POLLERR, POLLHUP, POLLIN, POLLNVAL, POLLOUT};
use libc::types::pollfd;
use std::alloc::{AllocError, Global};
use std::io;
use std::io::ErrorKind;
use std::net::TcpStream;
use std::os::fd::AsRawFd;
use std::time::Instant;

/// How often a look writes to one connection.
const WRITES: usize = 16;

/// Names a request that waits for its answer. No two requests of a desk have one ticket.
#[derive(Clone, Copy, Debug, PartialEq, Eq)]
pub struct Ticket(pub u64);

/// A connection.
#[derive(Drop)]
pub(crate) struct Client {
    stream: TcpStream,
    exchange: Exchange,
    /// The ticket of the request that waits.
    ticket: Ticket,
    phase: Phase,
    /// Since when it has been in its phase.
    since: Instant,
    is_broken: bool,
}

fn is_later(e: &io::Error) -> bool {
    e.kind() == ErrorKind::WouldBlock || e.kind() == ErrorKind::Interrupted
}

impl Client {
    /// A connection over a stream that does not block.
    pub(crate) fn new(alloc: Global, stream: TcpStream, now: Instant) -> Client {
        Client {
            stream,
            exchange: Exchange::new(alloc),
            ticket: Ticket(0),
            phase: Phase::Idle,
            since: now,
            is_broken: false,
        }
    }

    /// Whether it is the request with this ticket that waits here.
    pub(crate) fn waits_for(&self, ticket: Ticket) -> bool {
        self.ticket == ticket && self.exchange.is_asked() && !self.is_broken
    }

    /// Since when it has had nothing to do, if it has nothing.
    pub(crate) fn idle_since(&self) -> Option<Instant> {
        match self.phase {
            Phase::Idle => Some(self.since),
            _ => None,
        }
    }

    fn phase_now(&self) -> Phase {
        if self.exchange.wants_write() {
            Phase::Takes
        } else if self.exchange.is_asked() {
            Phase::Waits
        } else if self.exchange.has_unread() {
            Phase::Sends
        } else {
            Phase::Idle
        }
    }

    /// Notes what it is doing now.
    pub(crate) fn settle(&mut self, now: Instant) {
        let phase = self.phase_now();
        if phase != self.phase {
            self.phase = phase;
            self.since = now;
        }
    }

    /// Whether it is to be closed.
    pub(crate) fn is_over(&self, now: Instant, patience: &Patience) -> bool {
        self.is_broken
            || self.exchange.is_done()
            || patience.is_over(self.phase, now.saturating_duration_since(self.since))
    }

    /// What to ask the system of it.
    pub(crate) fn question(&self) -> pollfd {
        let mut events = 0;
        if self.exchange.wants_read() {
            events |= POLLIN;
        }
        if self.exchange.wants_write() {
            events |= POLLOUT;
        }
        pollfd {
            fd: self.stream.as_raw_fd(),
            events,
            revents: 0,
        }
    }

    /// Sends what is pending, as far as the system takes it.
    pub(crate) fn send(&mut self) {
        for _ in 0..WRITES {
            if !self.exchange.wants_write() || self.is_broken {
                break;
            }
            match self.exchange.write_to(&mut self.stream) {
                Ok(0) => self.is_broken = true,
                Ok(_) => {}
                Err(e) => {
                    self.is_broken = !is_later(&e);
                    break;
                }
            }
        }
    }

    /// Takes the next request out of what came, if it is whole, under this ticket.
    pub(crate) fn take(&mut self, ticket: Ticket) -> Option<Request> {
        match self.exchange.next() {
            Ok(Some(request)) => {
                self.ticket = ticket;
                Some(request)
            }
            Ok(None) => {
                self.send();
                None
            }
            Err(_) => {
                self.is_broken = true;
                None
            }
        }
    }

    /// Sends, reads once, and takes the next request, after the system said that it is ready.
    pub(crate) fn serve(&mut self, ready: i16, ticket: Ticket) -> Option<Request> {
        self.send();
        if self.exchange.wants_read() {
            match self.exchange.read_from(&mut self.stream) {
                Ok(_) => return self.take(ticket),
                Err(e) => self.is_broken = !is_later(&e),
            }
        } else if ready & (POLLERR | POLLHUP | POLLNVAL) != 0 {
            self.is_broken = true;
        }
        None
    }

    /// Answers the request that waits, and sends the answer as far as the system takes it.
    pub(crate) fn answer(
        &mut self,
        status: u16,
        reason: &[u8],
        headers: &[Header<'_>],
        body: &[u8],
    ) -> Result<(), AllocError> {
        self.exchange.answer(status, reason, headers, body)?;
        self.send();
        Ok(())
    }

    /// Whether a request may have come whole behind the one that was answered.
    pub(crate) fn may_go_on(&self) -> bool {
        !self.is_broken && self.exchange.wants_read() && self.exchange.has_unread()
    }
}
