ghost use Rattle.std.specs.Prelude.{◌≡◌};

use ens_base::{PeerId, PeerSet};
use network::Network;
use std::alloc::Global;
use std::test::Fail;
use wire_frames::{Frame, Message};

/// A probe from one peer to another.
fn probe(from: u32, to: u32) -> Frame
    ensures { result ≡ record { from = from; to = to; message = Message.Probe } }
{
    Frame {
        from,
        to,
        message: Message::Probe,
    }
}

/// A network with four messages waiting: from 1 to 2, from 2 to 1, from 1 to 2, and from 3 to 1.
fn four(alloc: Global) -> Result<Network, Fail> {
    let mut network = Network::new(alloc)?;
    network.send(probe(1, 2))?;
    network.send(probe(2, 1))?;
    network.send(probe(1, 2))?;
    network.send(probe(3, 1))?;
    Ok(network)
}

#[test]
fn messages_are_taken_in_the_order_of_sending(rt: HostRuntime) -> Result<(), Fail> {
    let mut network = four(rt.alloc())?;
    let mut peers = PeerSet::empty();
    peers.insert(PeerId(1));
    peers.insert(PeerId(3));
    assert!(rt; network.oldest_among(&peers) == Some(3));
    assert!(rt; network.oldest_between(PeerId(1), PeerId(2)) == Some(0));
    network.settle(0);
    assert!(rt; network.oldest_between(PeerId(1), PeerId(2)) == Some(2));
    network.lose(PeerId(2), PeerId(1));
    assert!(rt;
        network.oldest_between(PeerId(2), PeerId(1)).is_none() && network.sent().len() == 4
    );
    Ok(())
}
