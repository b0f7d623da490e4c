ghost use Rattle.std.specs.Prelude.{IfErr};
ghost use Rattle.ens_base.specs.View.{IsPeer};
ghost use Rattle.world_spec.specs.Held.{account};
ghost use Rattle.network.specs.Mail.{goes, oldest, most_messages};
ghost use Rattle.world_spec.specs.Runs.{delivered, delivered_if, ticked, calmed};
ghost use Rattle.world_model.specs.Turns.{StopsAmong, StopsTurn, after_oldest, after_tick};
ghost use Rattle.world_model.specs.Worlds.{run_of, Begins, Reaches};

use crate::error::WorldError;
use crate::world::World;
use ens_base::{PeerId, PeerSet};
use hash_book::Hasher16;
use network::Network;
use peer_core::Event;
use std::alloc::Global;
use std::thread::Threads;

impl World {
    /// Ticks `peer` `ticks` times.
    pub(crate) fn tick<H: Hasher16, R: Threads + Sync>(
        &mut self,
        rt: &R,
        alloc: Global,
        hasher: &mut H,
        peer: PeerId,
        ticks: u32,
    ) -> Result<(), WorldError>
        requires { IsPeer peer }
        ensures reaches { Reaches (account H.kept H.clashes H.fulls hasher.old) (ticked peer ticks (run_of self.old)) result (run_of self.new) (account H.kept H.clashes H.fulls hasher.new) }
        ensures stops { IfErr result (StopsAmong ticks (after_tick peer) (run_of self.old) (account H.kept H.clashes H.fulls hasher.old) (account H.kept H.clashes H.fulls hasher.new)) }
        ensures begins { Begins self.old self.new }
    {
        for _tick in 0..ticks {
            self.step_peer(rt, alloc, hasher, peer, Event::Tick)?;
        }
        Ok(())
    }

    /// Delivers the message `number`, counted from 0, whether or not it still waits. Does nothing
    /// if there is no such message. One that was sent before trees got version two counts as delivered,
    /// but is given to nobody. No line is counted. The hasher took the strings that the step
    /// hashes, in order.
    ///
    /// # Errors
    ///
    /// As `apply`.
    pub fn deliver<H: Hasher16, R: Threads + Sync>(
        &mut self,
        rt: &R,
        alloc: Global,
        hasher: &mut H,
        number: usize,
    ) -> Result<(), WorldError>
        ensures reaches { Reaches (account H.kept H.clashes H.fulls hasher.old) (delivered number (run_of self.old)) result (run_of self.new) (account H.kept H.clashes H.fulls hasher.new) }
        ensures stops { IfErr result (StopsTurn (account H.kept H.clashes H.fulls hasher.old) (delivered number (run_of self.old)) (account H.kept H.clashes H.fulls hasher.new)) }
        ensures begins { Begins self.old self.new }
    {
        let Some(frame) = self.network.sent().get(number) else {
            return Ok(());
        };
        if number < self.first_alive {
            self.network.settle(number);
            return Ok(());
        }
        let (from, to) = (PeerId(frame.from), PeerId(frame.to));
        let message = frame.message.copy(alloc)?;
        self.network.settle(number);
        self.step_peer(rt, alloc, hasher, to, Event::Deliver(from, message))
    }

    /// Delivers the oldest message waiting from `sender` to `receiver`. Does nothing if none waits.
    pub(crate) fn pass<H: Hasher16, R: Threads + Sync>(
        &mut self,
        rt: &R,
        alloc: Global,
        hasher: &mut H,
        sender: PeerId,
        receiver: PeerId,
    ) -> Result<(), WorldError>
        requires { IsPeer sender × IsPeer receiver }
        ensures reaches { Reaches (account H.kept H.clashes H.fulls hasher.old)
            (delivered_if (oldest (goes sender receiver) (run_of self.old).mail) (run_of self.old)) result
            (run_of self.new) (account H.kept H.clashes H.fulls hasher.new) }
        ensures stops { IfErr result (StopsTurn (account H.kept H.clashes H.fulls hasher.old)
            (delivered_if (oldest (goes sender receiver) (run_of self.old).mail) (run_of self.old))
            (account H.kept H.clashes H.fulls hasher.new)) }
        ensures begins { Begins self.old self.new }
    {
        match self.network.oldest_between(sender, receiver) {
            None => Ok(()),
            Some(number) => self.deliver(rt, alloc, hasher, number),
        }
    }

    /// Delivers the messages waiting among `peers`, oldest first, including those sent meanwhile,
    /// until none waits or 500,000 were delivered.
    pub(crate) fn calm<H: Hasher16, R: Threads + Sync>(
        &mut self,
        rt: &R,
        alloc: Global,
        hasher: &mut H,
        peers: &PeerSet,
    ) -> Result<(), WorldError>
        ensures reaches { Reaches (account H.kept H.clashes H.fulls hasher.old)
            (calmed peers.now most_messages (run_of self.old)) result (run_of self.new)
            (account H.kept H.clashes H.fulls hasher.new) }
        ensures stops { IfErr result (StopsAmong most_messages (after_oldest peers.now) (run_of self.old) (account H.kept H.clashes H.fulls hasher.old) (account H.kept H.clashes H.fulls hasher.new)) }
        ensures begins { Begins self.old self.new }
    {
        for _turn in 0..Network::MOST {
            match self.network.oldest_among(peers) {
                None => return Ok(()),
                Some(number) => self.deliver(rt, alloc, hasher, number)?,
            }
        }
        Ok(())
    }
}
