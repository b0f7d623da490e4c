use ens_base::{Digest, Entry, Epoch, Key, Value, Version};
use std::alloc::Global;
use std::test::Fail;
use stored_formats::{Object, put_object, take_object};

/// The version 1.1.1.
const VERSION: Version = Version {
    epoch: Epoch {
        count: 1,
        proposer: 1,
    },
    seq: 1,
};

/// The object of version 1.1.1, stamp 1.1.1, key `k` and value `v`.
const SPELLING: [u8; 46] = [
    0, 0, 0, 0, 0, 0, 0, 1, 0, 0, 0, 1, 0, 0, 0, 0, 0, 0, 0, 1, 0, 0, 0, 0, 0, 0, 0, 1, 0, 0, 0, 1,
    0, 0, 0, 0, 0, 0, 0, 1, 1, 0x6b, 1, 0, 1, 0x76,
];

fn object(alloc: Global) -> Result<Object, Fail> {
    Ok(Object {
        version: VERSION,
        stamp: VERSION,
        key: Key::new(alloc, b"k")?,
        value: Some(Value::new(alloc, b"v")?),
    })
}

#[test]
fn the_object_of_46_bytes(rt: HostRuntime) -> Result<(), Fail> {
    let alloc = rt.alloc();
    let object = object(alloc)?;
    let bytes = object.encode(alloc)?;
    assert!(rt; bytes.as_slice() == SPELLING.as_slice());
    let mut out = Vec::new(alloc);
    put_object(&object, &mut out)?;
    let (taken, end) = take_object(alloc, &out, 0)?;
    assert!(rt; taken == object.copy(alloc)? && end == 46);
    let digest = Digest([7; 16]);
    let entry = Entry {
        key: Key::new(alloc, b"k")?,
        version: VERSION,
        digest,
    };
    assert!(rt; object.matches(&digest, &entry));
    Ok(())
}
