use ens_base::{Digest, Key};
use environment::{Backend, FailingCall, Leaves, MemBackend, MemNodes, NodeStore, StoreError};
use std::alloc::Global;
use std::test::Fail;

const TOP: Digest = Digest([1; 16]);

/// What the failed second call leaves, and the bytes that are found then.
const PUTS: [(Leaves, &[u8]); 2] = [(Leaves::Old, b"old"), (Leaves::New, b"new")];

/// Whether a call found these bytes.
fn found(answer: Result<Option<Vec<u8>>, StoreError>, bytes: &[u8]) -> bool {
    match answer {
        Ok(Some(held)) => held.as_slice() == bytes,
        Ok(None) => false,
        Err(_) => false,
    }
}

#[test]
fn a_failed_put_leaves_the_old_or_the_new_bytes(rt: HostRuntime) -> Result<(), Fail> {
    let alloc = rt.alloc();
    let key = Key::new(alloc, b"k")?;
    for (leaves, bytes) in PUTS {
        let failing = vec![in alloc; FailingCall { call: 2, leaves }]?;
        let mut backend = MemBackend::new(alloc, failing);
        assert!(rt; backend.put(alloc, &key, b"old").is_ok());
        assert!(rt; backend.put(alloc, &key, b"new").is_err() && backend.faults() == 1);
        assert!(rt; found(backend.get(alloc, &key), bytes));
    }
    let mut nodes = MemNodes::new(alloc, Vec::new(alloc));
    assert!(rt; nodes.write(alloc, &TOP, b"node").is_ok() && nodes.set_top(&TOP).is_ok());
    assert!(rt; found(nodes.read(alloc, &TOP), b"node") && nodes.top() == Ok(Some(TOP)));
    Ok(())
}
