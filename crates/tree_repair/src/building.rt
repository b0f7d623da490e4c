ghost use Rattle.std.specs.Prelude.{◌≡◌, ◌≤◌, ◌-◌, ◌++◌, ◌∷◌, [], map, IfOk, OnOk};
ghost use Rattle.tree_node.specs.Entries.{AreAbove};
ghost use Rattle.tree_node.specs.TreeVersions.{levels};
ghost use Rattle.synctree.specs.Entries.{IsMap};
ghost use Rattle.synctree.specs.Maps.{Stands};
ghost use Rattle.synctree.specs.Sixteen.{form_of};
ghost use Rattle.tree_repair.specs.Admitting.{AdmitsAll};
ghost use Rattle.tree_repair.specs.Hashers.{digest_if};
ghost use Rattle.tree_repair.specs.Builds.{somes, nodes_down, stored, build_nodes, build_of};
ghost use Rattle.tree_repair.specs.RepairLevels.{indexes_of, names_of};

use crate::built::Built;
use crate::gate::Gate;
use crate::hashing::digests;
use crate::inner::inner_texts;
use crate::repair_level::{Names, Texts};
use crate::segments::segment_texts;
use ens_base::{Bytes, Digest, Entry, Seq};
use hash_book::{HashError, Hasher16};
use std::alloc::Global;
use std::thread::Threads;
use synctree::{ROOT, StoredNode};
use tree_node::TreeVersion;

/// Admits a text, if there is one, and appends it to the nodes.
fn keep<H: Hasher16>(
    alloc: Global,
    hasher: &mut H,
    text: Option<Bytes>,
    name: Option<Digest>,
    nodes: &mut Vec<StoredNode>,
) -> Result<(), HashError>
    requires { name ≡ digest_if text }
    ensures nodes { OnOk result (nodes.new.items ≡ nodes.old.items ++ map stored (somes (text ∷ []))) }
    ensures admits { AdmitsAll H.kept H.clashes H.fulls (somes (text ∷ [])) hasher.old result hasher.new }
{
    let bytes = match text {
        Some(bytes) => bytes,
        None => return Ok(()),
    };
    let digest = match name {
        Some(digest) => digest,
        None => return Ok(()),
    };
    hasher.admit(alloc, bytes.as_slice(), &digest)?;
    nodes.push(StoredNode { digest, bytes })?;
    Ok(())
}

/// Admits each text that is there, from left to right, and appends it to the nodes.
fn keep_all<H: Hasher16>(
    alloc: Global,
    hasher: &mut H,
    mut texts: Vec<Option<Bytes>>,
    names: &[Option<Digest>],
    nodes: &mut Vec<StoredNode>,
) -> Result<(), HashError>
    requires { names.now ≡ map digest_if texts.items }
    ensures nodes { OnOk result (nodes.new.items ≡ nodes.old.items ++ map stored (somes texts.items)) }
    ensures admits { AdmitsAll H.kept H.clashes H.fulls (somes texts.items) hasher.old result hasher.new }
{
    for i in 0..texts.len() {
        keep(alloc, hasher, texts[i].take(), names[i], nodes)?;
    }
    Ok(())
}

/// Hashes the nodes of a level by threads, admits them and appends them to the nodes. Returns their
/// digests.
fn keep_level<H: Hasher16, R: Threads + Sync, G: Gate + Sync>(
    rt: &R,
    alloc: Global,
    hasher: &mut H,
    gate: &G,
    level: Texts,
    nodes: &mut Vec<StoredNode>,
) -> Result<Names, HashError>
    ensures indexes { IfOk result (λ v. v.indexes.items ≡ level.indexes.items) }
    ensures names { IfOk result (λ v. v.names.items ≡ map digest_if level.texts.items) }
    ensures nodes { OnOk result (nodes.new.items ≡ nodes.old.items ++ map stored (somes level.texts.items)) }
    ensures admits { AdmitsAll H.kept H.clashes H.fulls (somes level.texts.items) hasher.old result hasher.new }
{
    let Texts { indexes, texts } = level;
    let names = digests(rt, alloc, texts.as_slice(), gate)?;
    keep_all(alloc, hasher, texts, names.as_slice(), nodes)?;
    Ok(Names { indexes, names })
}

/// Builds the nodes of a level and of all levels below it, the lowest level first, in the tree of this
/// version. Returns the digests of the level.
fn build_level<H: Hasher16, R: Threads + Sync, G: Gate + Sync>(
    rt: &R,
    alloc: Global,
    version: TreeVersion,
    hasher: &mut H,
    gate: &G,
    level: u8,
    entries: &[Entry],
    nodes: &mut Vec<StoredNode>,
) -> Result<Names, HashError>
    requires level { level ≤ levels version }
    requires ascending { AreAbove [] entries.now }
    ensures indexes { IfOk result (λ v. v.indexes.items ≡ indexes_of (form_of version) level entries.now) }
    ensures names { IfOk result (λ v. v.names.items ≡ names_of (form_of version) level entries.now) }
    ensures nodes { OnOk result (nodes.new.items ≡ nodes.old.items ++ map stored (nodes_down (form_of version) (levels version - level) level entries.now)) }
    ensures admits { AdmitsAll H.kept H.clashes H.fulls (nodes_down (form_of version) (levels version - level) level entries.now) hasher.old result hasher.new }
{
    let last = version.levels();
    if level == last {
        let segments = segment_texts(rt, alloc, version, entries)?;
        return keep_level(rt, alloc, hasher, gate, segments, nodes);
    }
    let below = build_level(rt, alloc, version, hasher, gate, level + 1, entries, nodes)?;
    let inner = inner_texts(alloc, version, level, &below)?;
    keep_level(rt, alloc, hasher, gate, inner, nodes)
}

/// Returns the plain build of a map in this version of the tree. The map is given as its entries in
/// ascending order of keys. The nodes of a level are hashed by threads, in pieces that the gate sees
/// begin; the keys too, without the gate. The hasher admits each node, in the order of the build. Fails
/// only if the hasher rejects a node, or when out of memory, which a segment of 2^32 entries or more
/// counts as.
pub fn build<H: Hasher16, R: Threads + Sync, G: Gate + Sync>(
    rt: &R,
    alloc: Global,
    version: TreeVersion,
    hasher: &mut H,
    gate: &G,
    entries: &[Entry],
) -> Result<Built, HashError>
    requires { AreAbove [] entries.now }
    ensures built { IfOk result (λ b. b ≡ build_of (form_of version) entries.now) }
    ensures stands { IfOk result (λ b. IsMap entries.now → Stands (form_of version) b.top entries.now) }
    ensures admits { AdmitsAll H.kept H.clashes H.fulls (build_nodes (form_of version) entries.now) hasher.old result hasher.new }
{
    let mut nodes = Vec::new(alloc);
    let root = build_level(
        rt, alloc, version, hasher, gate, ROOT.level, entries, &mut nodes,
    )?;
    Ok(Built {
        nodes: Seq::new(nodes),
        top: root.names[0].unwrap(),
    })
}
