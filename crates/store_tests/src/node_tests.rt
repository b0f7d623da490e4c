use crate::trees::{MemTree, entry, fresh, insert, opened};
use ens_base::{Digest, Entry};
use environment::{MemNodes, NodeStore};
use hash_book::PlainHasher;
use std::alloc::Global;
use std::test::Fail;
use synctree::{ROOT, Tree};
use tree_node::TreeVersion;
use tree_repair::{Built, NoGate, ascends, build, scan};

/// The MD5 of the eight bytes of a root without children, `01 00 00000000 0000`, taken with another
/// program.
const EMPTY: Digest = Digest([
    0x33, 0xcd, 0xec, 0xcc, 0xce, 0xbe, 0x80, 0x32, 0x9f, 0x1f, 0xdb, 0xee, 0x7f, 0x58, 0x74, 0xcb,
]);

/// The top of the tree of one entry with the key `abc`, version 1.1.1 and a digest of 16 times 7. The
/// MD5 of `abc` begins with 900: the digest of its segment stands in child 0 of a node that is child 0
/// of child 9 of the root. Taken with another program.
const ABC: Digest = Digest([
    0x7b, 0xc2, 0x80, 0x35, 0x57, 0x99, 0x3e, 0x60, 0xe0, 0x94, 0x34, 0xca, 0x77, 0xa1, 0x9c, 0x9a,
]);

/// The first bytes of the nodes of that tree, the segment first.
const HEADS: [&[u8]; 4] = [
    &[2, 3, 0, 0, 9, 0],
    &[1, 2, 0, 0, 0, 0x90, 0, 1],
    &[1, 1, 0, 0, 0, 9, 0, 1],
    &[1, 0, 0, 0, 0, 0, 2, 0],
];

fn abc(alloc: Global) -> Result<Entry, Fail> {
    entry(alloc, b"abc", 1)
}

/// The tree of `abc`.
fn tree_of_abc(alloc: Global) -> Result<MemTree, Fail> {
    let mut tree = fresh(alloc, TreeVersion::One)?;
    insert(alloc, &mut tree, &abc(alloc)?)?;
    Ok(tree)
}

fn no_nodes(alloc: Global) -> MemNodes {
    MemNodes::new(alloc, Vec::new(alloc))
}

/// The top of a tree over no nodes, of that tree emptied, of the tree of `abc` opened again under its
/// own digest as seal, and of that tree emptied.
fn tops(alloc: Global) -> Result<[Option<Digest>; 4], Fail> {
    let mut tree = Tree::unopened(no_nodes(alloc), TreeVersion::One);
    tree.reopen(None, TreeVersion::One)?;
    let unopened = tree.top();
    tree.empty(alloc, TreeVersion::One, &mut PlainHasher)?;
    let empty = tree.top();
    insert(alloc, &mut tree, &abc(alloc)?)?;
    let (_mark, nodes) = tree.split();
    let mut again = Tree::unopened(nodes, TreeVersion::One);
    again.reopen(Some(ABC), TreeVersion::One)?;
    let reopened = again.top();
    again.empty(alloc, TreeVersion::One, &mut PlainHasher)?;
    Ok([unopened, empty, reopened, again.top()])
}

#[test]
fn the_top_is_the_digest_of_the_root(rt: HostRuntime) -> Result<(), Fail> {
    let tops = tops(rt.alloc())?;
    assert!(rt; tops == [None, Some(EMPTY), Some(ABC), Some(EMPTY)]);
    Ok(())
}

/// Whether the nodes begin with these bytes.
fn has_heads(built: &Built, heads: &[&[u8]]) -> bool {
    let nodes = built.nodes.as_slice();
    for (node, head) in nodes.iter().zip(heads) {
        if !node.bytes.as_slice().starts_with(head) {
            return false;
        }
    }
    nodes.len() == heads.len()
}

#[test]
fn a_build_has_the_nodes_of_its_entries(rt: HostRuntime) -> Result<(), Fail> {
    let alloc = rt.alloc();
    let built = build(&rt, alloc, TreeVersion::One, &mut PlainHasher, &NoGate, &[])?;
    assert!(rt; built.top == EMPTY && has_heads(&built, &[&[1, 0, 0, 0, 0, 0, 0, 0]]));
    let entries = [abc(alloc)?];
    assert!(rt; ascends(&entries));
    let built = build(
        &rt,
        alloc,
        TreeVersion::One,
        &mut PlainHasher,
        &NoGate,
        &entries,
    )?;
    assert!(rt; built.top == ABC && has_heads(&built, &HEADS));
    Ok(())
}

/// The tree of `abc`, whose root was overwritten.
fn spoiled(alloc: Global) -> Result<MemTree, Fail> {
    let (_mark, mut nodes) = tree_of_abc(alloc)?.split();
    nodes.write(alloc, &ABC, b"other bytes")?;
    Ok(opened(nodes)?)
}

#[test]
fn a_root_with_other_bytes_is_damaged(rt: HostRuntime) -> Result<(), Fail> {
    let alloc = rt.alloc();
    let mut tree = spoiled(alloc)?;
    let found = scan(&rt, alloc, &mut tree, &mut PlainHasher, &NoGate)?;
    assert!(rt;
        found.damaged.as_slice() == [ROOT].as_slice() && found.entries.as_slice().is_empty()
    );
    Ok(())
}
