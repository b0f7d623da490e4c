use environment::{Link, LinkError};
use host::UdpLink;
use std::process;
use std::test::Fail;

/// Returns a base below six ports of the tests: another process mostly has another one.
fn base(process: u32) -> u16 {
    47_000 + 6 * (process % 33) as u16
}

#[test]
fn frames_of_every_length_come_as_they_were_sent(rt: HostRuntime) -> Result<(), Fail> {
    let alloc = rt.alloc();
    let base = base(process::id(rt.process()));
    let mut one = UdpLink::new(&rt, base, 1, 1);
    let mut two = UdpLink::new(&rt, base, 2, 2);
    assert!(rt; one.send(alloc, 2, b"nobody listens").is_ok());
    let nothing = two.receive(alloc);
    assert!(rt; matches!(&nothing, Ok(None)));
    for length in [0, 26, 4_110, 65_507] {
        let frame = vec![in alloc; 7u8; length]?;
        assert!(rt; one.send(alloc, 2, &frame).is_ok());
        let received = two.receive(alloc);
        assert!(rt; matches!(&received, Ok(Some(bytes)) if bytes.as_slice() == frame.as_slice()));
    }
    assert!(rt; two.send(alloc, 1, b"answer").is_ok());
    assert!(rt; two.send(alloc, 2, b"to itself").is_ok());
    let answer = one.receive(alloc);
    assert!(rt; matches!(&answer, Ok(Some(bytes)) if bytes.as_slice() == b"answer".as_slice()));
    let own = two.receive(alloc);
    assert!(rt; matches!(&own, Ok(Some(bytes)) if bytes.as_slice() == b"to itself".as_slice()));
    assert!(rt; one.faults() == 0 && two.faults() == 0);
    Ok(())
}

#[test]
fn what_fails_is_counted(rt: HostRuntime) -> Result<(), Fail> {
    let alloc = rt.alloc();
    let base = base(process::id(rt.process()));
    let mut first = UdpLink::new(&rt, base, 3, 3);
    let mut second = UdpLink::new(&rt, base, 3, 3);
    let nothing = first.receive(alloc);
    assert!(rt; matches!(&nothing, Ok(None)));
    let refused = second.receive(alloc);
    assert!(rt; matches!(&refused, Err(LinkError::Failed)));
    assert!(rt; second.send(alloc, 3, b"frame") == Err(LinkError::Failed));
    assert!(rt; second.faults() == 2);
    let no_port = first.send(alloc, 65_536, b"frame");
    let frame = vec![in alloc; 7u8; 65_508]?;
    let too_long = first.send(alloc, 3, &frame);
    assert!(rt; no_port == Err(LinkError::Failed) && too_long == Err(LinkError::Failed));
    assert!(rt; first.faults() == 2);
    drop(first);
    let bound = second.receive(alloc);
    assert!(rt; matches!(&bound, Ok(None)) && second.faults() == 2);
    Ok(())
}

#[test]
fn a_link_of_several_numbers_looks_at_each(rt: HostRuntime) -> Result<(), Fail> {
    let alloc = rt.alloc();
    let base = base(process::id(rt.process()));
    let mut link = UdpLink::new(&rt, base, 4, 6);
    for number in [6, 4, 5] {
        let frame = [number as u8];
        assert!(rt; link.send(alloc, number, &frame).is_ok());
    }
    for number in [4, 5, 6] {
        let received = link.receive(alloc);
        assert!(rt;
            matches!(&received, Ok(Some(bytes)) if bytes.as_slice() == [number].as_slice())
        );
    }
    let nothing = link.receive(alloc);
    assert!(rt; matches!(&nothing, Ok(None)) && link.faults() == 0);
    Ok(())
}
