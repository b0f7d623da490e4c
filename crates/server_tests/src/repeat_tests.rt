ghost use Rattle.std.specs.Prelude.{None};

use environment::{Link, LinkError};
use host::UdpLink;
use repeat_link::{RepeatLink, TimeSource};
use std::alloc::Global;
use std::net::Net;
use std::process;
use std::test::Fail;

/// How long a tick is, in microseconds.
const TICK: u64 = 20_000;

/// Returns a base below three ports of the tests: another process mostly has another one.
fn base(process: u32) -> u16 {
    49_000 + 3 * (process % 33) as u16
}

/// A clock that goes half a millisecond further each time that it is read.
#[derive(Drop)]
struct Steps {
    now: u64,
}

impl TimeSource for Steps {
    fn now(&mut self) -> u64 {
        self.now = self.now.saturating_add(500);
        self.now
    }
}

/// A link that loses every fifth datagram that is sent, and gives every seventh that comes twice.
#[derive(Drop)]
struct LossyLink<L: Link> {
    inner: L,
    sent: u64,
    looks: u64,
    last: Option<Vec<u8>>,
}

impl<L: Link> Link for LossyLink<L> {
    ghost sent = { λ l. None };

    ghost given = { λ l. None };

    ghost waits = { λ l. None };

    ghost fault_count = { λ l. L.fault_count l.inner };

    fn faults(&self) -> u64 {
        self.inner.faults()
    }

    fn send(&mut self, alloc: Global, to: u32, frame: &[u8]) -> Result<(), LinkError> {
        self.sent = self.sent.wrapping_add(1);
        if self.sent % 5 == 0 {
            return Ok(());
        }
        self.inner.send(alloc, to, frame)
    }

    fn receive(&mut self, alloc: Global) -> Result<Option<Vec<u8>>, LinkError> {
        self.looks = self.looks.wrapping_add(1);
        if self.looks % 7 == 0 && self.last.is_some() {
            return Ok(self.last.take());
        }
        let came = self.inner.receive(alloc)?;
        if let Some(bytes) = &came {
            self.last = Vec::from_slice(alloc, bytes).ok();
        }
        Ok(came)
    }
}

/// The link of a number of two, over a network that loses and repeats.
fn link<R: Net + Drop>(
    alloc: Global,
    net: R,
    base: u16,
    own: u32,
    run: u64,
) -> Result<RepeatLink<LossyLink<UdpLink<R>>, Steps>, Fail> {
    let inner = LossyLink {
        inner: UdpLink::new(net, base, own, own),
        sent: u64::from(own),
        looks: 0,
        last: None,
    };
    Ok(RepeatLink::new(alloc, inner, Steps { now: 0 }, own, run, TICK)?)
}

/// The frame of this number: long ones go in four parts.
fn frame(alloc: Global, number: usize) -> Result<Vec<u8>, Fail> {
    let length = if number % 10 == 3 { 4_300 } else { 8 };
    let mut frame = vec![in alloc; 7u8; length]?;
    frame[..8].copy_from_slice(&(number as u64).to_be_bytes());
    Ok(frame)
}

/// Looks once. Notes the number of the frame that came, if it is one that was sent.
fn note<L: Link, T: TimeSource>(
    alloc: Global,
    link: &mut RepeatLink<L, T>,
    came: &mut [u8],
) -> Result<bool, Fail> {
    let Ok(found) = link.receive(alloc) else {
        return Err("a look failed".into());
    };
    let Some(bytes) = found else {
        return Ok(false);
    };
    for number in 0..came.len() {
        if bytes.as_slice() == frame(alloc, number)?.as_slice() {
            came[number] = came[number].saturating_add(1);
        }
    }
    Ok(true)
}

#[test]
fn each_frame_comes_once_over_a_network_that_loses(rt: HostRuntime) -> Result<(), Fail> {
    let alloc = rt.alloc();
    let base = base(process::id(rt.process()));
    let mut one = link(alloc, &rt, base, 1, 1)?;
    let mut two = link(alloc, &rt, base, 2, 1)?;
    let _ = two.receive(alloc);
    let mut came = [0; 100];
    let mut back = [0; 100];
    for number in 0..100 {
        let frame = frame(alloc, number)?;
        assert!(rt; one.send(alloc, 2, &frame).is_ok());
        assert!(rt; two.send(alloc, 1, &frame).is_ok());
        note(alloc, &mut two, &mut came)?;
        note(alloc, &mut one, &mut back)?;
    }
    for _ in 0..400 {
        note(alloc, &mut two, &mut came)?;
        note(alloc, &mut one, &mut back)?;
    }
    for number in 0..100 {
        assert!(rt; came[number] == 1 && back[number] == 1, "{number}");
    }
    assert!(rt; one.faults() == 0 && two.faults() == 0 && one.lost() == 0);
    Ok(())
}

#[test]
fn a_process_that_starts_again_is_heard(rt: HostRuntime) -> Result<(), Fail> {
    let alloc = rt.alloc();
    let base = base(process::id(rt.process()));
    let mut one = link(alloc, &rt, base, 1, 1)?;
    let mut came = [0; 20];
    for run in 1..3u64 {
        let mut two = link(alloc, &rt, base, 2, run)?;
        let _ = two.receive(alloc);
        for number in 0..20 {
            assert!(rt; one.send(alloc, 2, &frame(alloc, number)?).is_ok());
            assert!(rt; two.send(alloc, 1, b"answer").is_ok());
            note(alloc, &mut two, &mut came)?;
            let _ = one.receive(alloc);
        }
        for _ in 0..200 {
            note(alloc, &mut two, &mut came)?;
            let _ = one.receive(alloc);
        }
    }
    for number in 10..20 {
        assert!(rt; came[number] == 2, "{number}");
    }
    Ok(())
}
