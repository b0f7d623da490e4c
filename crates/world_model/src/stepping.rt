ghost use Rattle.std.specs.Prelude.{IfErr};
ghost use Rattle.ens_base.specs.View.{IsPeer};
ghost use Rattle.world_spec.specs.Held.{account};
ghost use Rattle.world_spec.specs.PeerSpec.{MayCome, AllMayGo};
ghost use Rattle.step_plans.specs.Outboxes.{out_of};
ghost use Rattle.world_spec.specs.Runs.{stepped};
ghost use Rattle.world_model.specs.Turns.{StopsTurn};
ghost use Rattle.world_model.specs.Worlds.{run_of, Adds, Begins, Reaches, reported};

use crate::error::WorldError;
use crate::posting::post_all;
use crate::reporting::lines_of;
use crate::world::World;
use ens_base::PeerId;
use hash_book::Hasher16;
use peer_core::Event;
use std::alloc::Global;
use std::thread::Threads;
use step_plans::Outbox;

/// Drops an event for which there is no peer.
fn ignore(_event: Event) {}

impl World {
    /// Sends the messages of a step, and adds its lines and notes to those of the world.
    #[inline(never)]
    fn report(&mut self, alloc: Global, peer: PeerId, out: Outbox) -> Result<(), WorldError>
        requires peer { IsPeer peer }
        requires out { AllMayGo peer (out_of out) }
        ensures reaches { Adds (reported peer (out_of out) out.notes.items (run_of self.old)) result (run_of self.new) }
        ensures begins { Begins self.old self.new }
    {
        let Outbox {
            sends,
            answers,
            notes,
            changes,
        } = out;
        let mut lines = lines_of(alloc, self.events.saturating_add(1), peer, answers, changes)?;
        post_all(&mut self.network, peer, sends)?;
        self.printed.append(&mut lines)?;
        self.scribe.note_all(alloc, notes)?;
        Ok(())
    }

    /// Steps `peer` on `event`. Does nothing if there is no such peer.
    pub(crate) fn step_peer<H: Hasher16, R: Threads + Sync>(
        &mut self,
        rt: &R,
        alloc: Global,
        hasher: &mut H,
        peer: PeerId,
        event: Event,
    ) -> Result<(), WorldError>
        requires peer { IsPeer peer }
        requires event { MayCome peer event }
        ensures reaches { Reaches (account H.kept H.clashes H.fulls hasher.old) (stepped peer event (run_of self.old)) result (run_of self.new) (account H.kept H.clashes H.fulls hasher.new) }
        ensures stops { IfErr result (StopsTurn (account H.kept H.clashes H.fulls hasher.old) (stepped peer event (run_of self.old)) (account H.kept H.clashes H.fulls hasher.new)) }
        ensures begins { Begins self.old self.new }
    {
        let place = (peer.0 - 1) as usize;
        if place >= self.peers.len() {
            ignore(event);
            return Ok(());
        }
        let out = self.peers[place].step(rt, alloc, hasher, event)?;
        self.report(alloc, peer, out)
    }
}
