ghost use Rattle.std.specs.Prelude.{length, ◌≤◌};

use disk_stores::Log;
use ens_base::Bytes;
use environment::StoreError;
use slot_disk::{Failing, Image, MemDisk, Room};
use std::alloc::Global;
use std::test::Fail;

/// Room for the tests below.
const ROOM: Room = Room {
    bytes: 200,
    written: 400,
    calls: 40,
};

/// Opens a log on a disk with these bytes.
fn log(alloc: Global, bytes: &[u8]) -> Result<Log<MemDisk>, Fail> {
    let disk = MemDisk::holding(alloc, bytes, ROOM, Failing::never(alloc))?;
    match Log::open(alloc, disk) {
        Ok(log) => Ok(log),
        Err(_refused) => Err("not opened".into()),
    }
}

/// Whether the log has these bytes under this name.
fn finds(alloc: Global, log: &mut Log<MemDisk>, name: &[u8], content: &[u8]) -> bool {
    match log.find(alloc, name) {
        Ok(Some(held)) => held.as_slice() == content,
        Ok(None) => false,
        Err(_) => false,
    }
}

/// Stores bytes under a name.
fn put(alloc: Global, log: &mut Log<MemDisk>, name: &[u8], content: &[u8]) -> Result<(), Fail>
    requires { length name.now ≤ 255 }
{
    match log.put(Bytes::from_slice(alloc, name)?, content) {
        Ok(()) => Ok(()),
        Err(_) => Err("not put".into()),
    }
}

#[test]
fn a_log_that_ends_in_a_record_lacks_that_record_alone(rt: HostRuntime) -> Result<(), Fail> {
    let alloc = rt.alloc();
    let mut full = log(alloc, &[])?;
    put(alloc, &mut full, b"k", b"old")?;
    put(alloc, &mut full, b"k", b"newer")?;
    let disk = full.into_disk();
    let bytes = disk.bytes();
    assert!(rt; bytes.len() == 32 && bytes.starts_with(b"\x01\x01\0\0\0\0\0\0\0\x03kold\x01"));
    for len in 15..32 {
        let mut cut = log(alloc, &bytes[..len])?;
        assert!(rt; finds(alloc, &mut cut, b"k", b"old") && cut.size() == 15);
        assert!(rt; cut.into_disk().bytes().len() == 15);
    }
    Ok(())
}

#[test]
fn crash_images_of_two_appends(rt: HostRuntime) -> Result<(), Fail> {
    let alloc = rt.alloc();
    let mut first = log(alloc, &[])?;
    put(alloc, &mut first, b"a", b"one")?;
    let disk = first.into_disk();
    let mut second = log(alloc, disk.bytes())?;
    put(alloc, &mut second, b"b", b"two")?;
    put(alloc, &mut second, b"a", b"three")?;
    let disk = second.into_disk();
    let cases: [(Image, &[u8], bool); 3] = [
        (Image::Old, b"one", false),
        (Image::Half, b"one", false),
        (Image::New, b"three", true),
    ];
    for (image, newest, has_both) in cases {
        let left = disk.crash(alloc, image)?;
        let mut opened = log(alloc, &left)?;
        assert!(rt; finds(alloc, &mut opened, b"a", newest));
        assert!(rt; finds(alloc, &mut opened, b"b", b"two") == has_both);
    }
    Ok(())
}

/// Opens a log, and opens it once more if the disk failed.
fn opened(alloc: Global, disk: MemDisk) -> Result<Log<MemDisk>, Fail> {
    let held = match Log::open(alloc, disk) {
        Ok(log) => return Ok(log),
        Err(refused) => refused.held,
    };
    match Log::open(alloc, held) {
        Ok(log) => Ok(log),
        Err(_refused) => Err("not opened".into()),
    }
}

/// Stores bytes under a name, and once more if the disk failed; then the old bytes must be found.
fn stores(alloc: Global, log: &mut Log<MemDisk>, old: &[u8], new: &[u8]) -> Result<(), Fail> {
    match log.put(Bytes::from_slice(alloc, b"k")?, new) {
        Ok(()) => return Ok(()),
        Err(StoreError::Memory) => return Err("memory".into()),
        Err(StoreError::Failed) => {}
    }
    if !finds(alloc, log, b"k", old) {
        return Err("the old bytes are lost".into());
    }
    put(alloc, log, b"k", new)
}

#[test]
fn each_device_call_may_fail_once(rt: HostRuntime) -> Result<(), Fail> {
    let alloc = rt.alloc();
    let bytes = b"\x01\x01\0\0\0\0\0\0\0\x01k0\x01tail";
    for call in 1..13 {
        for has_effect in [false, true] {
            let mut failing = Failing::never(alloc);
            if has_effect {
                failing.done.push(call)?;
            } else {
                failing.undone.push(call)?;
            }
            let disk = MemDisk::holding(alloc, bytes, ROOM, failing)?;
            let mut log = opened(alloc, disk)?;
            stores(alloc, &mut log, b"0", b"one")?;
            stores(alloc, &mut log, b"one", b"2")?;
            assert!(rt; finds(alloc, &mut log, b"k", b"2") || finds(alloc, &mut log, b"k", b"2"));
            let mut again = opened(alloc, log.into_disk())?;
            assert!(rt;
                finds(alloc, &mut again, b"k", b"2") || finds(alloc, &mut again, b"k", b"2")
            );
        }
    }
    Ok(())
}
