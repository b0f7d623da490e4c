use ens_base::{Digest, Epoch, Key, Value, Version};
use object_commands::{entry_of, is_named, matching, object_in};
use std::alloc::Global;
use std::test::Fail;
use stored_formats::Object;

fn object(alloc: Global) -> Result<Object, Fail> {
    let epoch = Epoch {
        count: 1,
        proposer: 1,
    };
    let version = Version { epoch, seq: 1 };
    Ok(Object {
        version,
        stamp: version,
        key: Key::new(alloc, b"k")?,
        value: Some(Value::new(alloc, b"v")?),
    })
}

#[test]
fn an_entry_names_its_object_alone(rt: HostRuntime) -> Result<(), Fail> {
    let alloc = rt.alloc();
    let held = object(alloc)?;
    let entry = entry_of(alloc, &held, Digest([7; 16]))?;
    assert!(rt; is_named(&entry, &held, &Digest([7; 16])));
    assert!(rt; object_in(alloc, &held.encode(alloc)?)?.is_some());
    assert!(rt; object_in(alloc, b"no object")?.is_none());
    assert!(rt; matching(&entry, Some((held, Digest([8; 16])))).is_none());
    Ok(())
}
