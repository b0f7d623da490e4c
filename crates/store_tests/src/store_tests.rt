use disk_stores::{DiskBackend, DiskNodes};
use ens_base::{Digest, Key};
use environment::{Backend, NodeStore, StoreError};
use slot_disk::{Failing, MemDisk, Room};
use std::alloc::Global;
use std::test::Fail;

/// Room for the tests below.
const ROOM: Room = Room {
    bytes: 200,
    written: 400,
    calls: 40,
};

const NODE: Digest = Digest([7; 16]);

/// Whether a call found these bytes.
fn found(answer: Result<Option<Vec<u8>>, StoreError>, bytes: &[u8]) -> bool {
    match answer {
        Ok(Some(held)) => held.as_slice() == bytes,
        Ok(None) => false,
        Err(_) => false,
    }
}

/// Opens nodes on this disk.
fn nodes(alloc: Global, disk: MemDisk) -> Result<DiskNodes<MemDisk>, Fail> {
    match DiskNodes::open(alloc, disk) {
        Ok(nodes) => Ok(nodes),
        Err(_refused) => Err("not opened".into()),
    }
}

#[test]
fn nodes_and_the_top_record_are_found_again(rt: HostRuntime) -> Result<(), Fail> {
    let alloc = rt.alloc();
    let mut first = nodes(alloc, MemDisk::new(alloc, ROOM, Failing::never(alloc))?)?;
    assert!(rt; first.write(alloc, &NODE, b"node").is_ok() && first.set_top(&NODE).is_ok());
    let mut second = nodes(alloc, first.into_disk())?;
    assert!(rt; second.top() == Ok(Some(NODE)) && found(second.read(alloc, &NODE), b"node"));
    Ok(())
}

#[test]
fn the_last_object_of_a_key_is_found_again(rt: HostRuntime) -> Result<(), Fail> {
    let alloc = rt.alloc();
    let key = Key::new(alloc, b"k")?;
    let mut disk = MemDisk::new(alloc, ROOM, Failing::never(alloc))?;
    for bytes in [b"one".as_slice(), b"three", b""] {
        let Ok(mut backend) = DiskBackend::open(alloc, disk) else {
            return Err("not opened".into());
        };
        assert!(rt; backend.put(alloc, &key, bytes).is_ok());
        assert!(rt; found(backend.get(alloc, &key), bytes));
        disk = backend.into_disk();
    }
    assert!(rt; disk.bytes().len() == 44);
    Ok(())
}
