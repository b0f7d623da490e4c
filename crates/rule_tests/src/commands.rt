use ens_base::{Command, Epoch, Reply, Value, Version};
use object_commands::{Verdict, on_any, on_stamp};
use std::test::Fail;

/// The version 1.1.2.
const STAMP: Version = Version {
    epoch: Epoch {
        count: 1,
        proposer: 1,
    },
    seq: 2,
};

#[test]
fn commands_decided_by_the_stamp_alone(rt: HostRuntime) -> Result<(), Fail> {
    let alloc = rt.alloc();
    let once = Command::PutOnce(Value::new(alloc, b"w")?);
    let failed = Some(Verdict::Answer(Reply::Failed));
    assert!(rt; on_stamp(alloc, &once, STAMP)? == failed);
    let update = Command::Update(STAMP, Value::new(alloc, b"w")?);
    assert!(rt; on_any(alloc, &update)?.is_none());
    assert!(rt; on_any(alloc, &Command::Delete)? == Some(Verdict::Write(None)));
    Ok(())
}
