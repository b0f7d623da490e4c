ghost use Rattle.std.specs.Prelude.{◌≡◌, IfOk};
ghost use Rattle.synctree.specs.Sixteen.{form_of};
ghost use Rattle.synctree.specs.Outsides.{outside_does, outside_refuses};
ghost use Rattle.synctree.specs.Plans.{Did};
ghost use Rattle.tree_repair.specs.Levels.{scan_from as scan_from_plan, scan_plan};
ghost use Rattle.tree_repair.specs.Scans.{Scans};
ghost use Rattle.tree_repair.specs.Slots.{AreSlots};

use crate::gate::Gate;
use crate::last::last_level;
use crate::level::read_level;
use crate::slot::Slot;
use crate::step::next_level;
use ens_base::Seq;
use environment::NodeStore;
use hash_book::Hasher16;
use std::alloc::Global;
use std::thread::Threads;
use synctree::{ROOT, Tree, TreeError};
use tree_node::{Scan, TreeVersion};

/// Scans the nodes of a level with `height` levels below it, as nodes of this version, and all below
/// them.
fn scan_from<N: NodeStore, H: Hasher16, R: Threads + Sync, G: Gate + Sync>(
    rt: &R,
    alloc: Global,
    tree: &mut Tree<N>,
    hasher: &mut H,
    gate: &G,
    version: TreeVersion,
    height: u8,
    slots: &[Slot],
) -> Result<Scan, TreeError>
    requires { AreSlots version height slots.now }
    ensures did { Did (outside_does N.may_answer N.top_record N.fault_count H.kept H.clashes H.fulls) (outside_refuses N.may_refuse N.top_record N.fault_count H.kept H.clashes H.fulls)
        (scan_from_plan (form_of version) height slots.now) (tree.old.store, hasher.old) result (tree.new.store, hasher.new) }
    ensures version_is { tree.new.version ≡ tree.old.version }
    ensures top { tree.new.top ≡ tree.old.top }
{
    let level = read_level(rt, alloc, tree, hasher, gate, slots)?;
    if height == 0 {
        return last_level(alloc, version, slots, &level);
    }
    let next = next_level(alloc, version, slots, &level, height - 1)?;
    scan_from(
        rt,
        alloc,
        tree,
        hasher,
        gate,
        version,
        height - 1,
        next.as_slice(),
    )
}

/// Returns the entries of all segments that verify, in the order of their keys, and the positions
/// nearest the root that do not, in the order of the tree. A damaged tree is no error. If a map
/// stands under the top record, the entries are those of the map whose paths go through no damaged
/// position, unless a string that was hashed has the digest of a different node of the map.
///
/// The nodes of a level are hashed by threads, in pieces that the gate sees begin, and then admitted
/// to the hasher from left to right. What is found is the same for every gate.
pub fn scan<N: NodeStore, H: Hasher16, R: Threads + Sync, G: Gate + Sync>(
    rt: &R,
    alloc: Global,
    tree: &mut Tree<N>,
    hasher: &mut H,
    gate: &G,
) -> Result<Scan, TreeError>
    ensures did { Did (outside_does N.may_answer N.top_record N.fault_count H.kept H.clashes H.fulls) (outside_refuses N.may_refuse N.top_record N.fault_count H.kept H.clashes H.fulls)
        (scan_plan (form_of tree.old.version) tree.old.top) (tree.old.store, hasher.old) result (tree.new.store, hasher.new) }
    ensures finds { IfOk result (λ found. Scans
        (outside_does N.may_answer N.top_record N.fault_count H.kept H.clashes H.fulls) (form_of tree.old.version)
        tree.old.top (tree.old.store, hasher.old) found (tree.new.store, hasher.new)) }
    ensures version_is { tree.new.version ≡ tree.old.version }
    ensures top { tree.new.top ≡ tree.old.top }
{
    let first = [Slot {
        at: ROOT,
        digest: tree.top(),
    }];
    let version = tree.version();
    let height = version.levels();
    scan_from(
        rt,
        alloc,
        tree,
        hasher,
        gate,
        version,
        height,
        first.as_slice(),
    )
}
