use ens_base::{Digest, Entry, Epoch, Key, Seq, Version};
use std::alloc::Global;
use std::test::Fail;
use tree_node::{
    InnerNode, Position, Segment, TreeVersion, append_entries, decode_segment, put_position,
    take_position,
};

const ROOT: Position = Position { level: 0, index: 0 };

fn entry(alloc: Global, key: &[u8]) -> Result<Entry, Fail> {
    let epoch = Epoch {
        count: 1,
        proposer: 1,
    };
    Ok(Entry {
        key: Key::new(alloc, key)?,
        version: Version { epoch, seq: 1 },
        digest: Digest([7; 16]),
    })
}

#[test]
fn nodes_and_a_position_are_written_and_read(rt: HostRuntime) -> Result<(), Fail> {
    let alloc = rt.alloc();
    let inner = InnerNode {
        version: TreeVersion::One,
        position: ROOT,
        mask: 0,
        digests: Seq::new(Vec::new(alloc)),
    };
    assert!(rt; inner.encode(alloc)?.as_slice() == b"\x01\0\0\0\0\0\0\0".as_slice());
    let segment = Segment {
        version: TreeVersion::One,
        position: ROOT,
        entries: Seq::new(Vec::new(alloc)),
    };
    assert!(rt; segment.encode(alloc)?.as_slice() == b"\x02\0\0\0\0\0\0\0\0\0".as_slice());
    let mut bytes = b"\x02\0\0\0\0\0\0\0\0\x02".to_vec(alloc)?;
    append_entries(&[entry(alloc, b"a")?, entry(alloc, b"b")?], &mut bytes)?;
    let segment = decode_segment(alloc, &bytes, ROOT, TreeVersion::One)?;
    assert!(rt; bytes.len() == 86 && segment.entries.as_slice().len() == 2);
    let at = Position {
        level: 3,
        index: 4095,
    };
    let mut out = Vec::new(alloc);
    put_position(&at, &mut out)?;
    assert!(rt;
        out.as_slice() == b"\x03\0\0\x0f\xff".as_slice()
            && take_position(&out, 0, TreeVersion::One)? == (at, 5)
    );
    Ok(())
}
