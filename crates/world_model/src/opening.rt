ghost use Rattle.std.specs.Prelude.{◌≡◌, ◌≤◌, length, map, replicate, IfOk, IfErr, OnOk};
ghost use Rattle.ens_base.specs.View.{IsPeer};
ghost use Rattle.world_spec.specs.Held.{account, empty_stores, HasHashed};
ghost use Rattle.world_spec.specs.Nodes.{opening_node, opening_strings, Down};
ghost use Rattle.world_spec.specs.Runs.{opening_mode, opening_run, repeated, sealing_first, tree_first, unhashed};
ghost use Rattle.world_spec.specs.Steps.{StartsAs};
ghost use Rattle.world_model.specs.Peers.{AreNumbered, node_of};
ghost use Rattle.world_model.specs.Refusals.{IsCutOff};
ghost use Rattle.world_model.specs.Worlds.{run_of};

use crate::applying::all_peers;
use crate::error::WorldError;
use crate::peer::WorldPeer;
use crate::world::World;
use ens_base::{PeerId, PeerSet, View};
use hash_book::Hasher16;
use history_scribe::Scribe;
use network::Network;
use peer_core::Mode;
use schedule_text::{Form, Schedule};
use std::alloc::Global;
use std::thread::Threads;
use tree_node::TreeVersion;

/// Returns the peers whose starts have sealing on before any line: all or none.
fn sealing_at_opening(form: Form) -> PeerSet
    ensures { result ≡ sealing_first form }
{
    if form.is_sealed() {
        all_peers()
    } else {
        PeerSet::empty()
    }
}

/// Returns the version of trees before any line.
fn tree_at_opening(form: Form) -> TreeVersion
    ensures { result ≡ tree_first form }
{
    if form.is_deep() {
        TreeVersion::Two
    } else {
        TreeVersion::One
    }
}

/// Starts the peer `me` on empty stores, with sealing on and in the version of trees of the form.
fn started_peer<H: Hasher16, R: Threads + Sync>(
    rt: &R,
    alloc: Global,
    me: PeerId,
    form: Form,
    view: View,
    hasher: &mut H,
) -> Result<WorldPeer, WorldError>
    requires { IsPeer me }
    ensures me { IfOk result (λ p. p.me ≡ me) }
    ensures node { IfOk result (λ p. StartsAs (account H.kept H.clashes H.fulls hasher.old) (account H.kept H.clashes H.fulls hasher.new) (opening_mode form) view (Down empty_stores) (node_of p)) }
    ensures error { IfErr result (IsCutOff (opening_strings (opening_mode form) view) (account H.kept H.clashes H.fulls hasher.old) (account H.kept H.clashes H.fulls hasher.new)) }
{
    let mode = Mode {
        sealing: form.is_sealed(),
        tree: tree_at_opening(form),
    };
    let mut peer = WorldPeer::empty(alloc, me);
    peer.start(rt, alloc, mode, view, hasher)?;
    Ok(peer)
}

/// Starts the peers 1 to `count` on empty stores, with sealing on and in the version of trees of the form.
fn started_peers<H: Hasher16, R: Threads + Sync>(
    rt: &R,
    alloc: Global,
    count: u32,
    form: Form,
    view: View,
    hasher: &mut H,
) -> Result<Vec<WorldPeer>, WorldError>
    requires { count ≤ 31 }
    ensures nodes { IfOk result (λ v. map node_of v.items ≡ replicate count (opening_node (opening_mode form) view)) }
    ensures numbered { IfOk result (λ v. AreNumbered v.items) }
    ensures count { IfOk result (λ v. length v.items ≡ count) }
    ensures hashed { OnOk result (HasHashed (repeated count (opening_strings (opening_mode form) view)) (account H.kept H.clashes H.fulls hasher.old) (account H.kept H.clashes H.fulls hasher.new)) }
    ensures error { IfErr result (IsCutOff (repeated count (opening_strings (opening_mode form) view)) (account H.kept H.clashes H.fulls hasher.old) (account H.kept H.clashes H.fulls hasher.new)) }
{
    let mut peers = Vec::new(alloc);
    for below in 0..count {
        let peer = started_peer(rt, alloc, PeerId(below + 1), form, view, hasher)?;
        peers.push(peer)?;
    }
    Ok(peers)
}

impl World {
    /// Opens a world: starts `schedule.peers` peers on empty stores, in an ensemble that opens in
    /// the view of the schedule, with sealing on and in the version of trees of its form. Applies no
    /// event. The hasher took the strings that the starts hash, in order.
    ///
    /// # Errors
    ///
    /// `Memory` when out of memory, `Clash` or `BookFull` if the hasher rejected one of these strings
    /// and counted that in this call, after it took those before, and no other error.
    pub fn open<H: Hasher16, R: Threads + Sync>(
        rt: &R,
        alloc: Global,
        schedule: &Schedule,
        hasher: &mut H,
    ) -> Result<World, WorldError>
        requires { schedule.now.peers ≤ 31 }
        ensures ok { IfOk result (λ w. run_of w ≡ unhashed (opening_run schedule.now.form schedule.now.peers schedule.now.view)) }
        ensures hashed { OnOk result (HasHashed (opening_run schedule.now.form schedule.now.peers
            schedule.now.view).hashed (account H.kept H.clashes H.fulls hasher.old)
            (account H.kept H.clashes H.fulls hasher.new)) }
        ensures error { IfErr result (IsCutOff (opening_run schedule.now.form schedule.now.peers
            schedule.now.view).hashed (account H.kept H.clashes H.fulls hasher.old)
            (account H.kept H.clashes H.fulls hasher.new)) }
    {
        Ok(World {
            opening: schedule.view,
            form: schedule.form,
            sealing: sealing_at_opening(schedule.form),
            tree: tree_at_opening(schedule.form),
            first_alive: 0,
            peers: started_peers(
                rt,
                alloc,
                schedule.peers,
                schedule.form,
                schedule.view,
                hasher,
            )?,
            network: Network::new(alloc)?,
            printed: Vec::new(alloc),
            scribe: Scribe::new(alloc),
            events: 0,
            called: Vec::new(alloc),
        })
    }
}
