ghost use Rattle.std.specs.Prelude.{◌≡◌, [], IfOk, IfErr};
ghost use Rattle.ens_base.specs.View.{IsPeer};
ghost use Rattle.peer_server.specs.DiskPeers.{all_there};
ghost use Rattle.peer_server.specs.Faults.{status_of};
ghost use Rattle.fact_store.specs.Held.{held_kept};
ghost use Rattle.fact_store.specs.Files.{file_kept};
ghost use Rattle.peer_server.specs.Starting.{Began, LogsOpened, LogsRefused, Opened, Refused as IsRefused, Unopened};
ghost use Rattle.peer_server.specs.Turning.{IsReady};

use crate::disks::{Storage, Three, close};
use crate::error::{ServeError, keep_error, peer_error, store_error};
use crate::server::Server;
use disk_stores::{DiskBackend, DiskNodes};
use ens_base::{PeerWords, Refused};
use fact_store::{DelayedFact, FactFile};
use hash_book::PlainHasher;
use peer_core::{Mode, Peer, Stores};
use slot_disk::Disk;
use std::alloc::Global;
use std::thread::Threads;
use synctree::Tree;
use tree_node::TreeVersion;

/// Opens the stores of nodes and of objects, beside the file of facts.
fn open_logs<D: Disk>(
    alloc: Global,
    facts: FactFile<D>,
    nodes: D,
    objects: D,
) -> Result<Storage<D>, Refused<Three<D>, ServeError>>
    ensures file { IfOk result (λ s. s.facts ≡ facts) }
    ensures held { IfOk result (λ s. held_kept s.stores.facts ≡ file_kept facts) }
    ensures opened { IfOk result (λ s. LogsOpened D.seen D.fault_count nodes objects (s.stores, record {})) }
    ensures kept { IfErr result (λ r. r.held.facts ≡ facts.slots.disk) }
    ensures refused { IfErr result (λ r. LogsRefused D.seen D.fault_count (status_of r.error) nodes objects r.held.nodes r.held.objects) }
{
    let nodes = match DiskNodes::open(alloc, nodes) {
        Ok(nodes) => nodes,
        Err(refused) => {
            return Err(Refused {
                error: store_error(refused.error),
                held: Three {
                    facts: facts.into_disk(),
                    nodes: refused.held,
                    objects,
                },
            });
        }
    };
    match DiskBackend::open(alloc, objects) {
        Ok(backend) => {
            let mut facts = facts;
            let held = DelayedFact::of(&mut facts);
            let stores = Stores {
                backend,
                tree: Tree::unopened(nodes, TreeVersion::Two),
                facts: held,
            };
            Ok(Storage { stores, facts })
        }
        Err(refused) => Err(Refused {
            error: store_error(refused.error),
            held: Three {
                facts: facts.into_disk(),
                nodes: nodes.into_disk(),
                objects: refused.held,
            },
        }),
    }
}

/// Opens stores on the disks, that of the facts first, which is locked by whoever serves.
fn open<D: Disk>(
    alloc: Global,
    disks: Three<D>,
) -> Result<Storage<D>, Refused<Three<D>, ServeError>>
    ensures opened { IfOk result (λ s. Opened D.seen D.may_leave D.moment D.left_since D.fault_count (all_there disks) (s.stores, record {}) s.facts) }
    ensures unopened { IfErr result (λ r. Unopened D.seen D.may_leave D.moment D.left_since D.fault_count (status_of r.error) (all_there disks) (all_there r.held)) }
{
    let Three {
        facts,
        nodes,
        objects,
    } = disks;
    match FactFile::open(alloc, facts) {
        Ok(facts) => open_logs(alloc, facts, nodes, objects),
        Err(refused) => Err(Refused {
            error: keep_error(refused.error),
            held: Three {
                facts: refused.held,
                nodes,
                objects,
            },
        }),
    }
}

/// Starts a peer on the disks.
///
/// # Errors
///
/// `Store` only if a fault of a disk was counted, or the file of facts holds a record that is no fact;
/// `Memory` when out of memory. The disks are returned.
pub(crate) fn start<D: Disk, R: Threads + Sync>(
    rt: &R,
    alloc: Global,
    words: &PeerWords,
    disks: Three<D>,
) -> Result<Server<D>, Refused<Three<D>, ServeError>>
    requires { IsPeer words.now.me }
    ensures began { IfOk result (λ s. Began D.seen D.may_leave D.moment D.left_since D.fault_count words.now (all_there disks) s.peer.machine.state (s.peer.machine.stores, record {}) s.facts) }
    ensures ready { IfOk result (λ s. IsReady words.now s) }
    ensures unsent { IfOk result (λ s. s.unsent.items ≡ []) }
    ensures refused { IfErr result (λ r. IsRefused D.seen D.may_leave D.moment D.left_since D.fault_count words.now (status_of r.error) (all_there disks) (all_there r.held)) }
{
    let opened = open(alloc, disks)?;
    let Storage { stores, facts } = opened;
    let mode = Mode {
        sealing: true,
        tree: TreeVersion::Two,
    };
    match Peer::start(
        rt,
        alloc,
        words.me,
        words.view,
        mode,
        stores,
        &mut PlainHasher,
    ) {
        Ok(peer) => Ok(Server {
            peer,
            facts,
            unsent: Vec::new(alloc),
        }),
        Err(refused) => Err(Refused {
            error: peer_error(refused.error),
            held: close(Storage {
                stores: refused.held,
                facts,
            }),
        }),
    }
}
