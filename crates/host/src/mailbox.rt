use crate::room::Room;
use environment::LinkError;
use libc::net::{POLLIN, POLLOUT, SO_RCVBUF, SOL_SOCKET, poll, setsockopt};
use libc::types::pollfd;
use std::alloc::Global;
use std::io;
use std::io::ErrorKind;
use std::net::{Ipv4Addr, Net, UdpSocket};
use std::os::fd::AsRawFd;

/// How long a look waits for a datagram, in milliseconds.
const LOOK_WAIT: i32 = 1;

/// How long a send waits for room in the buffer of the socket, in milliseconds.
const SEND_WAIT: i32 = 1000;

/// How many bytes of datagrams are to wait at a socket. The system grants at most what the administrator
/// allows (on Linux `net.core.rmem_max`). Its default, 212,992 bytes there, holds a few dozen long
/// datagrams: a flood fills it while a peer waits for its disk, and the frames that come then are lost.
const WAITING_BYTES: i32 = 4 << 20;

/// Sockets on 127.0.0.1, and the room for what they receive.
#[derive(Drop)]
pub struct Mailbox {
    sockets: Vec<UdpSocket>,
    /// What a look asks the system of each socket, in their order.
    asked: Vec<pollfd>,
    room: Room,
    /// Whether the last look found nothing.
    is_idle: bool,
}

/// Asks the system to let more datagrams wait at the socket. Where it refuses, its default stays.
fn widen(socket: &UdpSocket) {
    let mut value = [0; 16];
    value[..4].copy_from_slice(&WAITING_BYTES.to_ne_bytes());
    // Safety: the option takes an `int`, which is the first four bytes of the value. The system copies
    // them, and keeps no pointer.
    unsafe { setsockopt(socket.as_raw_fd(), SOL_SOCKET, SO_RCVBUF, &value, 4) };
}

/// Binds a socket to the port. No call on it waits.
fn bound<R: Net>(net: &R, port: u16) -> io::Result<UdpSocket> {
    let socket = UdpSocket::bind(net, (Ipv4Addr::LOCALHOST, port))?;
    socket.set_nonblocking(true)?;
    widen(&socket);
    Ok(socket)
}

/// What to ask of a socket: whether it is ready for one of these events.
fn question(socket: &UdpSocket, events: i16) -> pollfd {
    pollfd {
        fd: socket.as_raw_fd(),
        events,
        revents: 0,
    }
}

/// Waits until one of the sockets is ready for what is asked of it, for so many milliseconds at most.
/// Returns whether one is. A signal ends the wait.
fn is_ready(asked: &mut [pollfd], milliseconds: i32) -> bool {
    poll(asked, milliseconds) > 0
}

/// Sends a datagram from the socket to a port of this host.
fn post_from(socket: &UdpSocket, port: u16, frame: &[u8]) -> io::Result<()> {
    let to = (Ipv4Addr::LOCALHOST, port);
    let sent = match socket.send_to(frame, to) {
        Err(e) if e.kind() == ErrorKind::WouldBlock => {
            is_ready(&mut [question(socket, POLLOUT)], SEND_WAIT);
            socket.send_to(frame, to)?
        }
        sent => sent?,
    };
    if sent < frame.len() {
        return Err(io::Error::from(ErrorKind::WriteZero));
    }
    Ok(())
}

impl Mailbox {
    /// Makes room, and binds no socket yet.
    pub fn new(alloc: Global) -> Result<Mailbox, LinkError> {
        Ok(Mailbox {
            sockets: Vec::new(alloc),
            asked: Vec::new(alloc),
            room: Room::new(alloc)?,
            is_idle: true,
        })
    }

    /// Binds one more socket, to this port. On an error there is none more.
    pub fn open<R: Net>(&mut self, net: &R, port: u16) -> Result<(), LinkError> {
        let Ok(socket) = bound(net, port) else {
            return Err(LinkError::Failed);
        };
        self.asked.push(question(&socket, POLLIN))?;
        self.sockets.push(socket)?;
        Ok(())
    }

    /// Sends a datagram to a port of this host, from the first socket.
    pub fn post(&self, port: u16, frame: &[u8]) -> io::Result<()> {
        match self.sockets.first() {
            Some(socket) => post_from(socket, port, frame),
            None => Err(io::Error::from(ErrorKind::NotConnected)),
        }
    }

    /// Fills the room, unless it holds a datagram already, from the first socket at which one waits.
    fn fill(&mut self) -> io::Result<()> {
        for socket in &self.sockets {
            if !self.room.is_empty() {
                break;
            }
            self.room.fill(socket)?;
        }
        Ok(())
    }

    /// Fills the room: at once if it holds a datagram or one waits at a socket, else once one comes or
    /// the time of a look is over. A look that follows one that found a datagram does not wait, so that
    /// whoever looks learns at once that there are no more.
    fn look(&mut self) -> io::Result<()> {
        self.fill()?;
        if self.is_idle && self.room.is_empty() && is_ready(&mut self.asked, LOOK_WAIT) {
            self.fill()?;
        }
        self.is_idle = self.room.is_empty();
        Ok(())
    }

    /// Looks for a datagram. Returns `None` if none came. When out of memory, the datagram still waits.
    pub fn receive(&mut self, alloc: Global) -> Result<Option<Vec<u8>>, LinkError> {
        match self.look() {
            Ok(()) => Ok(self.room.hand_out(alloc)?),
            Err(_) => Err(LinkError::Failed),
        }
    }
}
