use ens_base::*;
use std::test::Fail;

/// The version 1.9.7.
const VERSION: Version = Version {
    epoch: Epoch {
        count: 1,
        proposer: 9,
    },
    seq: 7,
};

#[test]
fn keys_values_views_and_sets_have_their_limits(rt: HostRuntime) -> Result<(), Fail> {
    let alloc = rt.alloc();
    assert!(rt; Key::new(alloc, &[0; 65]).err() == Some(LengthError::Length(65)));
    assert!(rt; Value::new(alloc, &[0; 1025]).err() == Some(LengthError::Length(1025)));
    assert!(rt; View::new(&[PeerId(2), PeerId(2)]).err() == Some(ViewError::Order));
    let old = View::new(&[PeerId(1), PeerId(31)])?;
    let two = Views::two(View::new(&[PeerId(4)])?, old);
    assert!(rt; two.first().members() == [4].as_slice() && two.second() == Some(old));
    let mut peers = PeerSet::empty();
    peers.insert(PeerId(31));
    assert!(rt; peers.has(PeerId(31)) && !peers.has(PeerId(63)));
    Ok(())
}

#[test]
fn versions_and_bytes_are_printed(rt: HostRuntime) -> Result<(), Fail> {
    let alloc = rt.alloc();
    let mut text = format!(in alloc; "{VERSION} {} ", VERSION.epoch)?;
    push_bytes(alloc, &mut text, b"\x00k\xff")?;
    push_value(alloc, &mut text, b"")?;
    push_value(alloc, &mut text, b"v")?;
    assert!(rt; text.as_str() == "1.9.7 1.9 006bff-76");
    let swap = Command::Swap(Value::new(alloc, b"a")?, Value::new(alloc, b"b")?);
    assert!(rt; swap.copy(alloc)? == swap && Status::Memory.number() == 10);
    Ok(())
}
