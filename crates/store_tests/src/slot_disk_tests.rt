use slot_disk::{Disk, Failing, Image, MemDisk, Room, SlotError, SlotFile};
use std::alloc::Global;
use std::test::Fail;

/// Room for the tests below.
const ROOM: Room = Room {
    bytes: 2000,
    written: 4000,
    calls: 40,
};

fn disk(alloc: Global) -> Result<MemDisk, Fail> {
    Ok(MemDisk::new(alloc, ROOM, Failing::never(alloc))?)
}

/// Opens a slot file on this disk.
fn file(alloc: Global, disk: MemDisk) -> Result<SlotFile<MemDisk>, Fail> {
    match SlotFile::open(alloc, disk) {
        Ok(file) => Ok(file),
        Err(_refused) => Err("not opened".into()),
    }
}

#[test]
fn three_crash_images_of_unsynced_writes(rt: HostRuntime) -> Result<(), Fail> {
    let alloc = rt.alloc();
    let mut disk = MemDisk::holding(alloc, b"abcd", ROOM, Failing::never(alloc))?;
    assert!(rt; disk.write_at(2, b"WXYZ").is_ok());
    for (image, want) in [
        (Image::Old, b"abcd\0\0"),
        (Image::New, b"abWXYZ"),
        (Image::Half, b"abWX\0\0"),
    ] {
        let left = disk.crash(alloc, image)?;
        assert!(rt; left.as_slice() == want.as_slice());
    }
    assert!(rt; disk.sync().is_ok() && disk.cut(1).is_ok() && disk.size() == Ok(1));
    let mut buf = [9u8; 8];
    assert!(rt; disk.read(0, &mut buf) == Ok(1) && buf[0] == b'a');
    Ok(())
}

#[test]
fn the_slots_take_turns(rt: HostRuntime) -> Result<(), Fail> {
    let alloc = rt.alloc();
    let mut file = file(alloc, disk(alloc)?)?;
    assert!(rt; file.load().err() == Some(SlotError::NoRecord));
    assert!(rt; file.save(&[7; 481]) == Err(SlotError::TooLong));
    assert!(rt; file.save(b"abc").is_ok() && file.save(b"de").is_ok());
    assert!(rt; file.record() == Some(b"de".as_slice()) && file.faults() == 0);
    let disk = file.into_disk();
    let bytes = disk.bytes();
    assert!(rt; bytes.len() == 525 && bytes.starts_with(b"\x01\0\0\0\0\0\0\0\x01\0\x03abc"));
    assert!(rt; bytes.ends_with(b"\x01\0\0\0\0\0\0\0\x02\0\x02de"));
    Ok(())
}
