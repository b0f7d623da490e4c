ghost use Rattle.std.specs.Prelude.{◌≡◌, IfOk};
ghost use Rattle.tree_node.specs.declared.version.TreeVersion.TheVariants.{Two};

use ens_base::{Digest, Entry, Epoch, Key, Value, Version};
use environment::{Backend, MemBackend, MemNodes, NodeStore};
use hash_book::{PlainHasher, digest_of};
use std::alloc::Global;
use std::test::Fail;
use std::thread::Threads;
use stored_formats::Object;
use synctree::{Tree, TreeError};
use tree_backup::{BackupError, backup, check, restore};
use tree_node::TreeVersion;
use tree_repair::NoGate;

/// The backup of the empty tree.
const EMPTY: [u8; 24] = [
    0x52, 0x42, 1, 2, 0x7d, 0x2d, 0x5f, 0xca, 0x80, 0x36, 0x42, 0x73, 0xfb, 7, 0xd5, 0x82, 0x0a,
    0x76, 0xfe, 0xf4, 0, 0, 0, 0,
];

/// The backup of one entry with its object.
const ONE: [u8; 109] = [
    0x52, 0x42, 1, 2, 0xf9, 0x5f, 0xe0, 0xc2, 0x29, 0xc1, 0x3d, 0x38, 0x49, 0x1e, 0xe1, 0xa5, 0x8e,
    0x1c, 0x67, 0xa7, 0, 0, 0, 1, 1, 0x6b, 0, 0, 0, 0, 0, 0, 0, 1, 0, 0, 0, 1, 0, 0, 0, 0, 0, 0, 0,
    1, 0xc7, 0xc5, 0x7e, 0x26, 0x9d, 0x37, 0x46, 0x1d, 0xf7, 0x43, 0x76, 0x41, 0x6f, 0x36, 0x48,
    0x8b, 1, 0, 0, 0, 0, 0, 0, 0, 1, 0, 0, 0, 1, 0, 0, 0, 0, 0, 0, 0, 1, 0, 0, 0, 0, 0, 0, 0, 1, 0,
    0, 0, 1, 0, 0, 0, 0, 0, 0, 0, 1, 1, 0x6b, 1, 0, 1, 0x76,
];

/// The digest of the segment of that entry in version two.
const SEGMENT: Digest = Digest([
    0xe0, 0xdd, 5, 0x84, 0x13, 0xeb, 0xe7, 0xd8, 0xca, 0xfb, 0xaf, 0x8c, 0x5a, 0x16, 0x6e, 0xd7,
]);

/// The version 1.1.1.
const VERSION: Version = Version {
    epoch: Epoch {
        count: 1,
        proposer: 1,
    },
    seq: 1,
};

/// A tree in memory, and a backend.
#[derive(Drop)]
struct Peer {
    tree: Tree<MemNodes>,
    backend: MemBackend,
}

/// The empty tree, and an empty backend.
fn fresh(alloc: Global) -> Result<Peer, TreeError>
    ensures { IfOk result (λ p. p.tree.version ≡ Two) }
{
    let nodes = MemNodes::new(alloc, Vec::new(alloc));
    let backend = MemBackend::new(alloc, Vec::new(alloc));
    match Tree::fresh(alloc, nodes, TreeVersion::Two, &mut PlainHasher) {
        Ok(tree) => Ok(Peer { tree, backend }),
        Err(refused) => Err(refused.error),
    }
}

/// Puts the object of version 1.1.1, stamp 1.1.1, key `k` and value `v`.
fn put(alloc: Global, peer: &mut Peer) -> Result<(), Fail> {
    let object = Object {
        version: VERSION,
        stamp: VERSION,
        key: Key::new(alloc, b"k")?,
        value: Some(Value::new(alloc, b"v")?),
    };
    let bytes = object.encode(alloc)?;
    let entry = Entry {
        key: Key::new(alloc, b"k")?,
        version: VERSION,
        digest: digest_of(&bytes),
    };
    peer.tree.insert(alloc, &mut PlainHasher, &entry)?;
    peer.backend.put(alloc, &object.key, &bytes)?;
    Ok(())
}

fn saved<R: Threads + Sync>(
    rt: &R,
    alloc: Global,
    peer: &mut Peer,
) -> Result<Vec<u8>, BackupError> {
    backup(
        rt,
        alloc,
        &mut peer.tree,
        &mut peer.backend,
        &mut PlainHasher,
        &NoGate,
    )
}

/// The number of the cause for which the bytes do not pass, or 0.
fn cause<R: Threads + Sync>(rt: &R, alloc: Global, bytes: &[u8]) -> u8 {
    match check(rt, alloc, bytes, &mut PlainHasher, &NoGate) {
        Ok(_content) => 0,
        Err(error) => error.cause(),
    }
}

/// Writes other bytes under the digest of the segment of the entry.
fn spoil(alloc: Global, peer: Peer) -> Result<Peer, Fail> {
    let Peer { tree, backend } = peer;
    let (mark, mut nodes) = tree.split();
    nodes.write(alloc, &SEGMENT, &[0])?;
    Ok(Peer {
        tree: Tree::join(mark, nodes),
        backend,
    })
}

/// The backup of what was restored from the bytes into fresh stores.
fn restored<R: Threads + Sync>(rt: &R, alloc: Global, bytes: &[u8]) -> Result<Vec<u8>, Fail> {
    let mut peer = fresh(alloc)?;
    let content = check(rt, alloc, bytes, &mut PlainHasher, &NoGate)?;
    restore(
        rt,
        alloc,
        &content,
        &mut peer.tree,
        &mut peer.backend,
        &mut PlainHasher,
        &NoGate,
    )?;
    Ok(saved(rt, alloc, &mut peer)?)
}

#[test]
fn a_backup_has_these_bytes_and_every_other_is_refused(rt: HostRuntime) -> Result<(), Fail> {
    let alloc = rt.alloc();
    let mut peer = fresh(alloc)?;
    assert!(rt;
        saved(&rt, alloc, &mut peer)?.as_slice() == EMPTY.as_slice()
            && cause(&rt, alloc, &EMPTY) == 0
    );
    put(alloc, &mut peer)?;
    assert!(rt;
        saved(&rt, alloc, &mut peer)?.as_slice() == ONE.as_slice() && cause(&rt, alloc, &ONE) == 0
    );
    assert!(rt; restored(&rt, alloc, &ONE)?.as_slice() == ONE.as_slice());
    for size in 0..ONE.len() {
        assert!(rt; cause(&rt, alloc, &ONE[..size]) == 1);
    }
    let mut other = Vec::from_slice(alloc, &ONE)?;
    other.push(0)?;
    assert!(rt; cause(&rt, alloc, &other) == 2);
    let mut other = ONE;
    other[108] = 0x77;
    assert!(rt; cause(&rt, alloc, &other) == 7);
    let mut peer = spoil(alloc, peer)?;
    assert!(rt;
        matches!(saved(&rt, alloc, &mut peer), Err(BackupError::Damaged(at)) if at.level == 5)
    );
    Ok(())
}
