use http_desk::{Desk, Patience};
use std::io::{Read, Write};
use std::net::{Ipv4Addr, SocketAddr, TcpStream};
use std::test::Fail;
use std::time::{Duration, Instant};

#[test]
fn a_request_is_answered_a_look_later(rt: HostRuntime) -> Result<(), Fail> {
    let alloc = rt.alloc();
    let address = SocketAddr::from((Ipv4Addr::LOCALHOST, 0));
    let mut desk = Desk::open(&rt, alloc, address, Patience::usual())?;
    let mut client = TcpStream::connect(&rt, desk.address()?)?;
    client.write_all(b"GET /a HTTP/1.1\r\nHost: x\r\n\r\nGET /b HTTP/1.1\r\nHost: x\r\n\r\n")?;
    let mut taken = 0u32;
    for _ in 0..100 {
        desk.look(Instant::now(&rt)?, 10)?;
        if let Some((ticket, request)) = desk.take() {
            assert!(rt; desk.is_waiting(ticket));
            desk.answer(ticket, 200, b"OK", &[], request.target())?;
            assert!(rt; !desk.is_waiting(ticket));
            taken = taken.saturating_add(1);
        }
    }
    assert!(rt; taken == 2);
    let mut text = [0u8; 256];
    let count = client.read(&mut text)?;
    let want =
        b"HTTP/1.1 200 OK\r\ncontent-length: 2\r\n\r\n/aHTTP/1.1 200 OK\r\ncontent-length: 2\r\n\r\n/b";
    assert_eq!(rt; text.get(..count).unwrap_or(&[]), want.as_slice());
    Ok(())
}

#[test]
fn who_is_idle_for_too_long_is_closed(rt: HostRuntime) -> Result<(), Fail> {
    let alloc = rt.alloc();
    let address = SocketAddr::from((Ipv4Addr::LOCALHOST, 0));
    let patience = Patience {
        idle: Duration::from_millis(50),
        send: Duration::from_millis(50),
        take: Duration::from_millis(50),
    };
    let mut desk = Desk::open(&rt, alloc, address, patience)?;
    let _idle = TcpStream::connect(&rt, desk.address()?)?;
    let mut slow = TcpStream::connect(&rt, desk.address()?)?;
    slow.write_all(b"GET /a")?;
    desk.look(Instant::now(&rt)?, 10)?;
    assert!(rt; desk.connections() == 2);
    for _ in 0..20 {
        desk.look(Instant::now(&rt)?, 10)?;
    }
    assert!(rt; desk.connections() == 0);
    Ok(())
}

#[test]
fn who_takes_no_answer_is_closed(rt: HostRuntime) -> Result<(), Fail> {
    let alloc = rt.alloc();
    let address = SocketAddr::from((Ipv4Addr::LOCALHOST, 0));
    let patience = Patience {
        idle: Duration::from_secs(60),
        send: Duration::from_secs(60),
        take: Duration::from_millis(50),
    };
    let mut desk = Desk::open(&rt, alloc, address, patience)?;
    let mut client = TcpStream::connect(&rt, desk.address()?)?;
    client.write_all(b"GET /a HTTP/1.1\r\nHost: x\r\n\r\n")?;
    // More than the buffers of two sockets hold.
    let body = vec![in alloc; b'x'; 32 << 20]?;
    for _ in 0..40 {
        desk.look(Instant::now(&rt)?, 10)?;
        if let Some((ticket, _request)) = desk.take() {
            desk.answer(ticket, 200, b"OK", &[], &body)?;
        }
    }
    assert!(rt; desk.connections() == 0);
    Ok(())
}
