use ens_base::{Epoch, Key, Seq, Version};
use history_scribe::*;
use register_model::Note;
use std::alloc::Global;
use std::test::Fail;

/// A note without its key.
#[derive(Clone, Copy)]
enum Mark {
    Proposed {
        version: Version,
        parent: Option<Version>,
        call: Option<u64>,
    },
    Settled(Version),
    Read {
        id: u64,
        base: Option<Version>,
    },
}

/// The version `seq` of the epoch `epoch`.`epoch`.
fn version(epoch: u32, seq: u64) -> Version {
    let count = epoch as u64;
    Version {
        epoch: Epoch {
            count,
            proposer: epoch,
        },
        seq,
    }
}

/// A write by this call. A rewrite has no call.
fn write(of: Version, parent: Option<Version>, call: Option<u64>) -> Mark {
    Mark::Proposed {
        version: of,
        parent,
        call,
    }
}

/// The note of this mark on the key `k`.
fn note_of(alloc: Global, mark: Mark) -> Result<Note, Fail> {
    let key = Key::new(alloc, b"k")?;
    Ok(match mark {
        Mark::Proposed {
            version,
            parent,
            call,
        } => Note::Proposed {
            key,
            version,
            parent,
            call,
        },
        Mark::Settled(version) => Note::Settled { key, version },
        Mark::Read { id, base } => Note::Read { id, key, base },
    })
}

/// A scribe with these marks noted on the key `k`.
fn noted(alloc: Global, marks: &[Mark]) -> Result<Scribe, Fail> {
    let mut scribe = Scribe::new(alloc);
    for mark in marks {
        scribe.note(alloc, note_of(alloc, *mark)?)?;
    }
    Ok(scribe)
}

/// The calls in the history of a key, after these marks on the key `k`.
fn calls(alloc: Global, marks: &[Mark], key: &[u8]) -> Result<Seq<u64>, Fail> {
    let key = Key::new(alloc, key)?;
    Ok(noted(alloc, marks)?.history(alloc, &key)?.calls)
}

#[test]
fn a_read_follows_its_write_and_a_rewrite_is_no_call(rt: HostRuntime) -> Result<(), Fail> {
    let (one, again, two) = (version(1, 1), version(2, 1), version(2, 2));
    let marks = [
        write(one, None, Some(1)),
        Mark::Settled(one),
        Mark::Read {
            id: 2,
            base: Some(one),
        },
        write(again, Some(one), None),
        Mark::Settled(again),
        write(two, Some(again), Some(3)),
        Mark::Settled(two),
    ];
    assert!(rt; calls(rt.alloc(), &marks, b"k")?.as_slice() == [1, 2, 3].as_slice());
    Ok(())
}

#[test]
fn a_write_counts_if_a_settled_version_descends_from_it(rt: HostRuntime) -> Result<(), Fail> {
    let (one, two, later) = (version(1, 1), version(1, 2), version(2, 1));
    let marks = [
        write(one, None, Some(1)),
        write(two, Some(one), Some(2)),
        Mark::Read { id: 3, base: None },
        write(later, Some(one), Some(4)),
        Mark::Settled(later),
    ];
    assert!(rt; calls(rt.alloc(), &marks, b"k")?.as_slice() == [3, 1, 4].as_slice());
    let named = vec![in rt.alloc(); Key::new(rt.alloc(), b"a")?]?;
    let histories = noted(rt.alloc(), &marks)?.histories(rt.alloc(), &named)?;
    assert!(rt; histories.len() == 1);
    Ok(())
}
