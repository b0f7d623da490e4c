use ens_base::{Command, Epoch, Key, Value};
use std::test::Fail;
use wire_frames::{Frame, Message, encode_frame};

#[test]
fn the_beat_of_26_bytes(rt: HostRuntime) -> Result<(), Fail> {
    let epoch = Epoch {
        count: 1,
        proposer: 1,
    };
    let frame = Frame {
        from: 1,
        to: 2,
        message: Message::Beat(epoch),
    };
    let bytes = encode_frame(rt.alloc(), &frame)?;
    assert!(rt;
        bytes.as_slice()
            == b"RE\x02\x11\0\0\0\x01\0\0\0\x02\0\x0c\0\0\0\0\0\0\0\x01\0\0\0\x01".as_slice()
    );
    Ok(())
}

#[test]
fn a_call_that_writes_v_under_k(rt: HostRuntime) -> Result<(), Fail> {
    let alloc = rt.alloc();
    let command = Command::Over(Value::new(alloc, b"v")?);
    let frame = Frame {
        from: 32,
        to: 1,
        message: Message::CallFrame(7, Key::new(alloc, b"k")?, command),
    };
    let bytes = encode_frame(alloc, &frame)?;
    assert!(rt;
        bytes.as_slice()
            == b"RE\x02\x12\0\0\0\x20\0\0\0\x01\0\x0e\0\0\0\0\0\0\0\x07\x07\x01k\0\x01v".as_slice()
    );
    Ok(())
}
