use crate::trees::{entry, fresh};
use ens_base::Entry;
use hash_book::PlainHasher;
use std::alloc::Global;
use std::sync::atomic::{AtomicU64, Ordering};
use std::test::Fail;
use tree_node::TreeVersion;
use tree_repair::{Gate, NoGate, ascends, build, install, scan};

/// How often piece 0 looks whether piece 1 has begun.
const MOST_TURNS: u64 = 100_000_000;

/// Holds piece 0 of a level until piece 1 has begun, and counts how often that did not come.
#[derive(Drop)]
struct TwoHalves {
    firsts: AtomicU64,
    seconds: AtomicU64,
    late: AtomicU64,
}

impl TwoHalves {
    fn new() -> TwoHalves {
        TwoHalves {
            firsts: AtomicU64::new(0),
            seconds: AtomicU64::new(0),
            late: AtomicU64::new(0),
        }
    }

    /// How often piece 0 began, piece 1 began, and piece 1 did not begin while piece 0 was held.
    fn counts(&self) -> [u64; 3] {
        [
            self.firsts.load(Ordering::SeqCst),
            self.seconds.load(Ordering::SeqCst),
            self.late.load(Ordering::SeqCst),
        ]
    }
}

impl Gate for TwoHalves {
    fn fewest_in_halves(&self) -> usize {
        16
    }

    fn enter(&self, piece: u32) {
        if piece == 1 {
            self.seconds.fetch_add(1, Ordering::SeqCst);
        }
        if piece != 0 {
            return;
        }
        let level = self.firsts.fetch_add(1, Ordering::SeqCst);
        for _ in 0..MOST_TURNS {
            if self.seconds.load(Ordering::SeqCst) > level {
                return;
            }
        }
        self.late.fetch_add(1, Ordering::SeqCst);
    }
}

/// 20,000 entries in the order of their keys, enough that in version one no segment is empty.
fn many(alloc: Global) -> Result<Vec<Entry>, Fail> {
    let mut entries = Vec::new(alloc);
    for key in 0..20_000u32 {
        entries.push(entry(alloc, &[(key / 256) as u8, (key % 256) as u8], 1)?)?;
    }
    Ok(entries)
}

/// Each level of at least 16 nodes is hashed in halves, which run at once, and the root is hashed whole.
/// In version one these are the 16 and the 256 inner nodes below the root and the segments; version two
/// has two more levels of inner nodes.
#[test]
fn gate_two_halves(rt: HostRuntime) -> Result<(), Fail> {
    let alloc = rt.alloc();
    let entries = many(alloc)?;
    let entries = entries.as_slice();
    for (version, halved) in [(TreeVersion::One, 3u64), (TreeVersion::Two, 5)] {
        assert!(rt; ascends(entries));
        let plain = build(&rt, alloc, version, &mut PlainHasher, &NoGate, entries)?;
        let gate = TwoHalves::new();
        let built = build(&rt, alloc, version, &mut PlainHasher, &gate, entries)?;
        assert!(rt; gate.counts() == [halved, halved, 0] && built.top == plain.top);
        let mut tree = fresh(alloc, version)?;
        install(alloc, &mut tree, &built)?;
        let gate = TwoHalves::new();
        let found = scan(&rt, alloc, &mut tree, &mut PlainHasher, &gate)?;
        assert!(rt; gate.counts() == [halved, halved, 0] && found.damaged.as_slice().is_empty());
        assert!(rt; found.entries.as_slice() == entries);
    }
    Ok(())
}
