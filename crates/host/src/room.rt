ghost use Rattle.std.specs.Prelude.{◌≡◌, ◌↔◌, None, IsTrue, IfOk, OnOk, OnErr};
ghost use Rattle.environment.specs.Told.{bytes_of};

use std::alloc::{AllocError, Global};
use std::io;
use std::io::ErrorKind;
use std::marker::Model;
use std::net::UdpSocket;

/// The length of the room in bytes. The longest datagram of UDP over IPv4 has 65,507.
const LENGTH: usize = 65_536;

/// Room for a datagram of any length, and the datagram that it holds, if it holds one. Contracts see
/// that datagram.
#[derive(Drop)]
pub struct Room {
    bytes: Vec<u8>,
    held: Option<usize>,
}

impl Model for Room {
    ghost use Rattle.std.specs.Prelude.{ℕ, List, Option};
    ghost use Rattle.host.specs.Rooms.{prefix, IsWithin};

    ghost Value = { Option (List ℕ) };

    ghost view = { λ r. prefix r.held r.bytes.items };

    ghost invariant = { λ r. IsWithin r.held r.bytes.items };
}

impl Room {
    /// Makes room that holds nothing.
    pub fn new(alloc: Global) -> Result<Room, AllocError>
        ensures { IfOk result (λ r. r ≡ None) }
    {
        Ok(Room {
            bytes: vec![in alloc; 0; LENGTH]?,
            held: None,
        })
    }

    /// Returns whether the room holds no datagram.
    pub fn is_empty(&self) -> bool
        ensures { IsTrue result ↔ (self.now ≡ None) }
    {
        self.held.is_none()
    }

    /// Takes the datagram that waits at the socket, if one does. On an error the room holds nothing.
    pub fn fill(&mut self, socket: &UdpSocket) -> io::Result<()>
        ensures { OnErr result (self.new ≡ None) }
    {
        self.held = None;
        match socket.recv_from(&mut self.bytes) {
            Ok((count, _from)) => self.held = Some(count),
            Err(e) => match e.kind() {
                ErrorKind::WouldBlock | ErrorKind::Interrupted => {}
                _ => return Err(e),
            },
        }
        Ok(())
    }

    /// Hands out a copy of the datagram, if the room holds one, and then holds nothing. When out of
    /// memory, the room still holds it.
    pub fn hand_out(&mut self, alloc: Global) -> Result<Option<Vec<u8>>, AllocError>
        ensures ok { IfOk result (λ o. bytes_of o ≡ self.old) }
        ensures empty { OnOk result (self.new ≡ None) }
        ensures held { OnErr result (self.new ≡ self.old) }
    {
        let Some(count) = self.held else {
            return Ok(None);
        };
        let datagram = Vec::from_slice(alloc, &self.bytes[..count])?;
        self.held = None;
        Ok(Some(datagram))
    }
}
