use disk_stores::DiskBackend;
use ens_base::Key;
use environment::Backend;
use host::FileDisk;
use slot_disk::Disk;
use std::fs;
use std::test::Fail;

/// The file of the test, which removes it.
const NAME: &str = "kept-objects";

#[test]
fn a_file_is_written_closed_opened_and_read(rt: HostRuntime) -> Result<(), Fail> {
    let alloc = rt.alloc();
    let key = Key::new(alloc, b"k")?;
    let Ok(mut backend) = DiskBackend::open(alloc, FileDisk::new(&rt, NAME)) else {
        return Err("not opened".into());
    };
    let stored = backend.put(alloc, &key, b"old").is_ok()
        && backend.put(alloc, &key, b"new").is_ok();
    let mut disk = backend.into_disk();
    let synced = disk.sync().is_ok() && disk.cut(29).is_ok();
    let second = FileDisk::new(&rt, NAME).size();
    drop(disk);
    let opened = DiskBackend::open(alloc, FileDisk::new(&rt, NAME));
    fs::remove_file(&rt, NAME)?;
    assert!(rt; stored && synced && second.is_err());
    let Ok(mut again) = opened else {
        return Err("not opened again".into());
    };
    let got = again.get(alloc, &key);
    assert!(rt; matches!(&got, Ok(Some(bytes)) if bytes.as_slice() == b"old".as_slice()));
    assert!(rt; again.into_disk().size() == Ok(15));
    Ok(())
}
