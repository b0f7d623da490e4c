use call_table::{CallTable, Waiting, better};
use ens_base::{Command, Digest, Entry, Epoch, Key, Version};
use std::alloc::Global;
use std::test::Fail;

/// A table with the calls 1 and 3 of the key `k`, and the call 2 of the key `j`.
fn three(alloc: Global) -> Result<CallTable, Fail> {
    let mut table = CallTable::new(alloc);
    for (id, key) in [(1, b"k"), (2, b"j"), (3, b"k")] {
        let waiting = Waiting {
            from: 40,
            id,
            key: Key::new(alloc, key)?,
            command: Command::Get,
            age: 0,
        };
        table.join(alloc, waiting)?;
    }
    Ok(table)
}

#[test]
fn the_calls_of_a_key_run_in_their_order_and_time_out_together(
    rt: HostRuntime,
) -> Result<(), Fail> {
    let alloc = rt.alloc();
    let mut table = three(alloc)?;
    let key = Key::new(alloc, b"k")?;
    assert!(rt; table.waiting_on(&key) == 2 && !table.has_late_put());
    assert!(rt; table.end_running(alloc, &key)?.map(|w| w.id) == Some(1));
    assert!(rt; table.running(alloc, &key)?.map(|w| w.id) == Some(3));
    for _ in 0..8 {
        table.grow_older();
    }
    let due = table.drop_due(alloc)?;
    assert!(rt; due.len() == 2 && due[0].id == 2 && due[0].running.is_some());
    assert!(rt; !table.unanswered() && table.into_calls(alloc)?.is_empty());
    Ok(())
}

/// The entry of the key `k` at this number, with this digest.
fn entry(alloc: Global, seq: u64, digest: u8) -> Result<Entry, Fail> {
    let epoch = Epoch {
        count: 1,
        proposer: 1,
    };
    Ok(Entry {
        key: Key::new(alloc, b"k")?,
        version: Version { epoch, seq },
        digest: Digest([digest; 16]),
    })
}

#[test]
fn the_best_entry_has_the_greatest_version(rt: HostRuntime) -> Result<(), Fail> {
    let alloc = rt.alloc();
    let first = better(None, Some(entry(alloc, 2, 1)?), None);
    let best = better(first, Some(entry(alloc, 1, 9)?), None);
    assert!(rt; matches!(&best, Some(found) if found.entry.digest == Digest([1; 16])));
    Ok(())
}
