use ens_base::Bytes;
use environment::{Link, LinkError, MemLink, MemQueue, MemTicker, Ticker};
use std::test::Fail;

/// Whether a look gave this frame, or nothing.
fn gave(look: Result<Option<Vec<u8>>, LinkError>, frame: Option<&[u8]>) -> bool {
    match look {
        Ok(given) => given.as_deref() == frame,
        Err(_) => false,
    }
}

#[test]
fn a_link_a_queue_and_a_ticker_in_memory(rt: HostRuntime) -> Result<(), Fail> {
    let alloc = rt.alloc();
    let looks = vec![in alloc; Some(Bytes::from_slice(alloc, b"frame")?)]?;
    let mut link = MemLink::new(alloc, looks, vec![in alloc; 1, 3]?);
    assert!(rt; link.receive(alloc).err() == Some(LinkError::Failed));
    assert!(rt; gave(link.receive(alloc), Some(b"frame")));
    assert!(rt; link.send(alloc, 33, b"lost").is_err() && link.send(alloc, 34, b"two").is_ok());
    assert!(rt; link.sent().len() == 1 && link.faults() == 2);
    let mut queue = MemQueue::new(alloc, Vec::new(alloc));
    assert!(rt; queue.send(alloc, 2, b"one").is_ok() && gave(queue.receive(alloc), Some(b"one")));
    let mut ticker = MemTicker::new(vec![in alloc; false, true]?);
    assert!(rt; !ticker.due() && ticker.due() && !ticker.due());
    Ok(())
}
