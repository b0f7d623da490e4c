ghost use Rattle.std.specs.Prelude.{IfOk};
ghost use Rattle.peer_server.specs.DiskPeers.{AreThere};

use ens_base::{Bytes, PeerId, PeerWords, Status, View};
use environment::{MemLink, MemSink, MemTicker};
use peer_server::{Disks, serve};
use slot_disk::{Failing, MemDisk, Room};
use std::alloc::Global;
use std::test::Fail;
use std::thread::Threads;

/// The frame of a call of client 32 to peer 1: an overwrite of the key `k` by `v`.
const OVERWRITE: &str = "524502120000002000000001000e000000000000000107016b000176";

/// The frame of the same, as the second call of that client.
const OVERWRITE_AGAIN: &str = "524502120000002000000001000e000000000000000207016b000176";

/// The answer to the first, in epoch 1.1.
const WRITTEN: &str = "52450213000000010000002000\
     1d0000000000000001030000000000000001000000010000000000000001";

/// The frame of a get of that key.
const GET: &str = "524502120000002000000001000b000000000000000201016b";

/// The answer to it.
const FOUND: &str = "524502130000000100000020\
     00200000000000000002010000000000000001000000010000000000000001000176";

/// The frame of a Beat of epoch 1.1 from 33 to peer 1.
const BEAT: &str = "524502110000002100000001000c000000000000000100000001";

/// The frame of a get of that key by 31, which is no client.
const GET_BY_31: &str = "524502120000001f00000001000b000000000000000201016b";

/// The bytes of the digits.
fn bytes(alloc: Global, digits: &str) -> Result<Bytes, Fail> {
    match hex::decode(alloc, digits.as_bytes()) {
        Ok(bytes) => Ok(Bytes::new(bytes)),
        Err(_) => Err("no digits".into()),
    }
}

/// A disk with nothing on it, whose calls of these numbers fail.
fn disk(alloc: Global, failing: Failing) -> Result<MemDisk, Fail> {
    let room = Room {
        bytes: 20_000,
        written: 40_000,
        calls: 400,
    };
    Ok(MemDisk::holding(alloc, &[], room, failing)?)
}

/// Three disks with nothing on them.
fn empty_disks(alloc: Global) -> Result<Disks<MemDisk>, Fail>
    ensures { IfOk result AreThere }
{
    Ok(Disks {
        facts: Some(disk(alloc, Failing::never(alloc))?),
        nodes: Some(disk(alloc, Failing::never(alloc))?),
        objects: Some(disk(alloc, Failing::never(alloc))?),
    })
}

/// What a peer printed and sent, and its status.
#[derive(Drop)]
struct Ended {
    status: Status,
    text: MemSink,
    link: MemLink,
}

/// Serves as the only peer of its ensemble over these looks, one a turn. A tick is due in the first
/// turns, so many.
fn served<R: Threads + Sync>(
    rt: &R,
    alloc: Global,
    disks: &mut Disks<MemDisk>,
    looks: Vec<Option<Bytes>>,
    ticks: usize,
) -> Result<Ended, Fail>
    requires { AreThere disks.old }
    ensures { AreThere disks.new }
{
    let words = PeerWords {
        me: PeerId(1),
        peers: 1,
        port: 40000,
        turns: looks.len() as u64,
        view: View::new(&[PeerId(1)])?,
    };
    let mut dues = Vec::new(alloc);
    for turn in 0..looks.len() {
        dues.push(turn < ticks)?;
    }
    let mut link = MemLink::new(alloc, looks, Vec::new(alloc));
    let mut text = MemSink::new(alloc, 100, Vec::new(alloc))?;
    let mut ticker = MemTicker::new(dues);
    let status = serve(rt, alloc, &words, &mut link, disks, &mut ticker, &mut text);
    Ok(Ended { status, text, link })
}

/// Six looks that give nothing, and then this frame.
fn after_six(alloc: Global, frame: &str) -> Result<Vec<Option<Bytes>>, Fail> {
    let mut looks = Vec::new(alloc);
    for _ in 0..6 {
        looks.push(None)?;
    }
    looks.push(Some(bytes(alloc, frame)?))?;
    Ok(looks)
}

/// Whether the peer served one frame, and sent this one frame to client 32.
fn answered(alloc: Global, ended: &Ended, frame: &str) -> Result<bool, Fail> {
    let frame = bytes(alloc, frame)?;
    let served = ended.status == Status::Done
        && ended.text.bytes() == b"peer 1 frames 1 refused 0\n".as_slice();
    let sent = ended.link.sent();
    let Some((to, bytes)) = sent.first() else {
        return Ok(false);
    };
    Ok(served && sent.len() == 1 && *to == 32 && *bytes == frame)
}

#[test]
fn a_lone_peer_goes_on_with_what_its_disks_hold(rt: HostRuntime) -> Result<(), Fail> {
    let alloc = rt.alloc();
    let mut disks = empty_disks(alloc)?;
    let first = served(&rt, alloc, &mut disks, after_six(alloc, OVERWRITE)?, 6)?;
    assert!(rt; answered(alloc, &first, WRITTEN)?);
    let second = served(&rt, alloc, &mut disks, after_six(alloc, GET)?, 6)?;
    assert!(rt; answered(alloc, &second, FOUND)?);
    Ok(())
}

#[test]
fn a_frame_that_is_cut_short_is_ignored(rt: HostRuntime) -> Result<(), Fail> {
    let alloc = rt.alloc();
    let beat = bytes(alloc, BEAT)?;
    let mut looks = Vec::new(alloc);
    for count in 0..26 {
        let prefix = beat.as_slice().get(..count).unwrap_or(&[]);
        looks.push(Some(Bytes::from_slice(alloc, prefix)?))?;
    }
    let ended = served(&rt, alloc, &mut empty_disks(alloc)?, looks, 0)?;
    assert!(rt; ended.link.sent().is_empty());
    assert!(rt; ended.text.bytes() == b"peer 1 frames 0 refused 26\n".as_slice());
    Ok(())
}

#[test]
fn messages_come_from_peers_and_calls_from_clients(rt: HostRuntime) -> Result<(), Fail> {
    let alloc = rt.alloc();
    let mut looks = Vec::new(alloc);
    looks.push(Some(bytes(alloc, BEAT)?))?;
    looks.push(Some(bytes(alloc, GET_BY_31)?))?;
    let ended = served(&rt, alloc, &mut empty_disks(alloc)?, looks, 0)?;
    assert!(rt; ended.text.bytes() == b"peer 1 frames 0 refused 2\n".as_slice());
    Ok(())
}

#[test]
fn a_disk_whose_first_call_fails_is_a_store_fault(rt: HostRuntime) -> Result<(), Fail> {
    let alloc = rt.alloc();
    let mut disks = empty_disks(alloc)?;
    let mut undone = Vec::new(alloc);
    undone.push(1)?;
    let done = Vec::new(alloc);
    disks.facts = Some(disk(alloc, Failing { undone, done })?);
    let ended = served(&rt, alloc, &mut disks, after_six(alloc, OVERWRITE)?, 6)?;
    assert!(rt; ended.status == Status::StoreFault);
    assert!(rt; ended.text.bytes() == b"store fault\n".as_slice());
    assert!(rt; disks.facts.is_some() && disks.nodes.is_some() && disks.objects.is_some());
    Ok(())
}

#[test]
fn puts_that_come_one_after_another_share_a_save(rt: HostRuntime) -> Result<(), Fail> {
    let alloc = rt.alloc();
    let mut one = empty_disks(alloc)?;
    let ended = served(&rt, alloc, &mut one, after_six(alloc, OVERWRITE)?, 6)?;
    assert!(rt; ended.link.sent().len() == 1);
    let mut two = empty_disks(alloc)?;
    let mut looks = after_six(alloc, OVERWRITE)?;
    looks.push(Some(bytes(alloc, OVERWRITE_AGAIN)?))?;
    let ended = served(&rt, alloc, &mut two, looks, 6)?;
    assert!(rt; ended.link.sent().len() == 2);
    let (Some(one), Some(two)) = (one.facts, two.facts) else {
        return Err("no disk".into());
    };
    // The serial numbers of both slots.
    assert!(rt; one.bytes().get(1..9) == two.bytes().get(1..9));
    assert!(rt; one.bytes().get(513..521) == two.bytes().get(513..521));
    Ok(())
}
