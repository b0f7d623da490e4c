use crate::client::{Client, Ticket};
use crate::patience::Patience;
use http_exchange::Request;
use http1::Header;
use libc::net::{POLLIN, poll};
use libc::types::pollfd;
use std::alloc::{AllocError, Global};
use std::collections::VecDeque;
use std::io;
use std::net::{Net, SocketAddr, TcpListener, TcpStream};
use std::os::fd::AsRawFd;
use std::time::Instant;

/// How many connections there are at most.
pub const MAX_CLIENTS: usize = 512;

/// How many connections a look accepts.
const ACCEPTS: usize = 64;

/// A listening socket, its connections, and the requests that came.
#[derive(Drop)]
pub struct Desk {
    alloc: Global,
    listener: TcpListener,
    clients: Vec<Client>,
    /// What a look asks the system: of the listener, and of each connection in their order.
    questions: Vec<pollfd>,
    came: VecDeque<(Ticket, Request)>,
    /// The ticket that was given last.
    last: Ticket,
    patience: Patience,
}

/// The ticket after this one.
fn after(ticket: Ticket) -> Ticket {
    let Ticket(number) = ticket;
    Ticket(number.saturating_add(1))
}

impl Desk {
    /// Listens at the address.
    ///
    /// # Errors
    /// What the system returned.
    pub fn open<R: Net<Listener = TcpListener, Stream = TcpStream>>(
        net: &R,
        alloc: Global,
        address: SocketAddr,
        patience: Patience,
    ) -> io::Result<Desk> {
        let listener = TcpListener::bind(net, address)?;
        listener.set_nonblocking(true)?;
        Ok(Desk {
            alloc,
            listener,
            clients: Vec::new(alloc),
            questions: Vec::new(alloc),
            came: VecDeque::new(alloc),
            last: Ticket(0),
            patience,
        })
    }

    /// Where it listens.
    ///
    /// # Errors
    /// What the system returned.
    pub fn address(&self) -> io::Result<SocketAddr> {
        self.listener.local_addr()
    }

    /// How many connections there are.
    pub fn connections(&self) -> usize {
        self.clients.len()
    }

    /// The place of the connection that has been idle for the longest time.
    fn longest_idle(&self) -> Option<usize> {
        let mut found: Option<(usize, Instant)> = None;
        for (place, client) in self.clients.iter().enumerate() {
            if let Some(since) = client.idle_since() {
                found = match found {
                    Some((first, earliest)) if earliest <= since => Some((first, earliest)),
                    _ => Some((place, since)),
                };
            }
        }
        found.map(|(place, _)| place)
    }

    /// Makes room for one more connection. Returns whether there is room.
    fn make_room(&mut self) -> bool {
        if self.clients.len() < MAX_CLIENTS {
            return true;
        }
        match self.longest_idle() {
            Some(place) if place < self.clients.len() => {
                self.clients.swap_remove(place);
                true
            }
            _ => false,
        }
    }

    /// Takes a new connection. One that cannot be set up is closed.
    fn welcome(&mut self, stream: TcpStream, now: Instant) -> Result<(), AllocError> {
        if stream.set_nonblocking(true).is_err() || stream.set_nodelay(true).is_err() {
            return Ok(());
        }
        if self.make_room() {
            self.clients.push(Client::new(self.alloc, stream, now))?;
        }
        Ok(())
    }

    fn accept(&mut self, now: Instant) -> Result<(), AllocError> {
        for _ in 0..ACCEPTS {
            let Ok((stream, _)) = self.listener.accept() else {
                break;
            };
            self.welcome(stream, now)?;
        }
        Ok(())
    }

    fn ask(&mut self) -> Result<(), AllocError> {
        self.questions.clear();
        self.questions.push(pollfd {
            fd: self.listener.as_raw_fd(),
            events: POLLIN,
            revents: 0,
        })?;
        for client in &self.clients {
            self.questions.push(client.question())?;
        }
        Ok(())
    }

    /// Serves each connection that is ready.
    fn serve(&mut self) -> Result<(), AllocError> {
        for (client, question) in self.clients.iter_mut().zip(self.questions.iter().skip(1)) {
            if question.revents == 0 {
                continue;
            }
            let ticket = after(self.last);
            if let Some(request) = client.serve(question.revents, ticket) {
                self.last = ticket;
                self.came.push_back((ticket, request))?;
            }
        }
        Ok(())
    }

    /// Waits for so many milliseconds at most until a connection is ready, serves those that are, closes
    /// those whose time is over, and accepts new ones. The work is bounded: a read and 16 writes for each
    /// connection, and 64 new connections.
    ///
    /// # Errors
    /// Out of memory.
    pub fn look(&mut self, now: Instant, milliseconds: i32) -> Result<(), AllocError> {
        self.ask()?;
        let ready = poll(&mut self.questions, milliseconds);
        if ready > 0 {
            self.serve()?;
        }
        for client in &mut self.clients {
            client.settle(now);
        }
        let patience = self.patience;
        self.clients
            .retain(|client| !client.is_over(now, &patience));
        if ready > 0 {
            self.accept(now)?;
        }
        Ok(())
    }

    /// Whether the request with this ticket still waits at its connection.
    pub fn is_waiting(&self, ticket: Ticket) -> bool {
        self.clients.iter().any(|client| client.waits_for(ticket))
    }

    /// The next request that came, and whose connection is there.
    pub fn take(&mut self) -> Option<(Ticket, Request)> {
        for _ in 0..self.came.len() {
            let (ticket, request) = self.came.pop_front()?;
            if self.is_waiting(ticket) {
                return Some((ticket, request));
            }
        }
        None
    }

    /// Answers the request with this ticket, if its connection is still there, and takes the next one that
    /// came behind it.
    ///
    /// # Errors
    /// Out of memory. The connection is closed by the next look.
    pub fn answer(
        &mut self,
        ticket: Ticket,
        status: u16,
        reason: &[u8],
        headers: &[Header<'_>],
        body: &[u8],
    ) -> Result<(), AllocError> {
        let next = after(self.last);
        for client in &mut self.clients {
            if client.waits_for(ticket) {
                client.answer(status, reason, headers, body)?;
                if client.may_go_on()
                    && let Some(request) = client.take(next)
                {
                    self.last = next;
                    self.came.push_back((next, request))?;
                }
                break;
            }
        }
        Ok(())
    }
}
