ghost use Rattle.std.specs.Prelude.{◌≡◌, ◌≤◌, ◌<◌, map, IfOk, IfErr, length};
ghost use Rattle.std.specs.Thread.{IsSync};
ghost use Rattle.synctree.specs.declared.error.TreeError.TheVariants.{Memory};
ghost use Rattle.tree_repair.specs.Hashers.{digest_if};

use crate::gate::Gate;
use ens_base::{Bytes, Digest, Seq};
use hash_book::digest_of;
use std::alloc::{AllocError, Global};
use std::thread::{Threads, join_mut};
use synctree::TreeError;

/// Returns the MD5 of the node, if there is one.
fn digest_of_node(node: &Option<Bytes>) -> Option<Digest>
    ensures { result ≡ digest_if node.now }
{
    match node {
        Some(bytes) => Some(digest_of(bytes.as_slice())),
        None => None,
    }
}

/// Writes the MD5 of each node that is there into its place, by one thread.
fn hash_whole(nodes: &[Option<Bytes>], found: &mut [Option<Digest>])
    requires { length found.old ≡ length nodes.now }
    ensures { found.new ≡ map digest_if nodes.now }
{
    for i in 0..nodes.len() {
        found[i] = digest_of_node(&nodes[i]);
    }
}

/// Writes the MD5 of each node that is there into its place, by threads. The halves of part `p` are
/// the parts `2 * p` and `2 * p + 1`, each a piece of its number less 2. The parts from 8 on are not
/// halved.
#[cycle(halves)]
fn hash_part<R: Threads + Sync, G: Gate + Sync>(
    rt: &R,
    gate: &G,
    part: u32,
    nodes: &[Option<Bytes>],
    found: &mut [Option<Digest>],
)
    requires part { 1 ≤ part × part < 16 }
    requires places { length found.old ≡ length nodes.now }
    ensures { found.new ≡ map digest_if nodes.now }
{
    if part >= 8 {
        hash_whole(nodes, found);
        return;
    }
    let middle = nodes.len() / 2;
    let (left, right) = nodes.split_at(middle);
    let (low, high) = found.split_at_mut(middle);
    hash_halves(rt, gate, part, left, right, low, high);
}

/// Writes the MD5 of each node that is there into its place, each half by a thread of its own.
#[cycle(halves)]
fn hash_halves<R: Threads + Sync, G: Gate + Sync>(
    rt: &R,
    gate: &G,
    part: u32,
    left: &[Option<Bytes>],
    right: &[Option<Bytes>],
    low: &mut [Option<Digest>],
    high: &mut [Option<Digest>],
)
    requires part { 1 ≤ part × part < 8 }
    requires low { length low.old ≡ length left.now }
    requires high { length high.old ≡ length right.now }
    ensures low { low.new ≡ map digest_if left.now }
    ensures high { high.new ≡ map digest_if right.now }
{
    let mut first = ||
        requires { IsSync R.row × IsSync G.row × (1 ≤ part) × (part < 8) × (length low.now ≡ length left.now) }
        ensures { low.exit.now ≡ map digest_if left.entry.now }
    {
        gate.enter(2 * part - 2);
        hash_part(rt, gate, 2 * part, left, low)
    };
    let mut second = ||
        requires { IsSync R.row × IsSync G.row × (1 ≤ part) × (part < 8) × (length high.now ≡ length right.now) }
        ensures { high.exit.now ≡ map digest_if right.entry.now }
    {
        gate.enter(2 * part - 1);
        hash_part(rt, gate, 2 * part + 1, right, high)
    };
    join_mut(rt, &mut first, &mut second);
}

/// Counts the nodes that are there.
fn count(nodes: &[Option<Bytes>]) -> usize
    ensures { result ≤ length nodes.now }
{
    let mut count = 0;
    for node in nodes {
        if node.is_some() {
            count += 1;
        }
    }
    count
}

/// Returns the MD5 of each node that is there, by threads in halves to a depth of 3; with fewer nodes
/// than the gate says, by one thread, and no piece begins.
pub fn digests<R: Threads + Sync, G: Gate + Sync>(
    rt: &R,
    alloc: Global,
    nodes: &[Option<Bytes>],
    gate: &G,
) -> Result<Vec<Option<Digest>>, AllocError>
    ensures { IfOk result (λ v. v.items ≡ map digest_if nodes.now) }
{
    let mut found = vec![in alloc; None; nodes.len()]?;
    if count(nodes) < gate.fewest_in_halves() {
        hash_whole(nodes, found.as_mut_slice());
    } else {
        hash_part(rt, gate, 1, nodes, found.as_mut_slice());
    }
    Ok(found)
}

/// Returns the MD5 of each node of a level that was read, as [`digests`] does. Fails only when out of
/// memory.
pub(crate) fn digests_of_level<R: Threads + Sync, G: Gate + Sync>(
    rt: &R,
    alloc: Global,
    reads: &[Option<Bytes>],
    gate: &G,
) -> Result<Seq<Option<Digest>>, TreeError>
    ensures ok { IfOk result (λ found. found ≡ map digest_if reads.now) }
    ensures memory { IfErr result (λ e. e ≡ Memory) }
{
    Ok(Seq::new(digests(rt, alloc, reads, gate)?))
}
