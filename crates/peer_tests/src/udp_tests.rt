ghost use Rattle.cluster.specs.Ends.{IsCluster};

use cluster::cluster;
use ens_base::{ClusterWords, PeerId, Status, View};
use environment::{MemSink, MemSource};
use host::UdpLink;
use replay::replay;
use std::process;
use std::test::Fail;

const SCRIPT: &str = "tick 1 6\nturn 40\ncall 1 1 over 6b 76\nturn 40\n";

#[test]
fn what_sockets_did_replays_to_itself(rt: HostRuntime) -> Result<(), Fail> {
    let alloc = rt.alloc();
    let port = 48_000 + 4 * (process::id(rt.process()) % 33) as u16;
    let words = ClusterWords {
        peers: 3,
        port,
        view: View::new(&[PeerId(1), PeerId(2), PeerId(3)])?,
    };
    let mut link = UdpLink::new(&rt, port, 1, 3);
    let mut input = MemSource::new(SCRIPT.as_bytes().to_vec(alloc)?, Vec::new(alloc));
    let mut output = MemSink::new(alloc, 4_000, Vec::new(alloc))?;
    assert_eq!(rt;
        cluster(&rt, alloc, &words, &mut input, &mut output, &mut link),
        Status::Done
    );
    let record = output.bytes();
    let marker = b"\nanswers\n".as_slice();
    let Some(place) = record
        .windows(marker.len())
        .position(|piece| piece == marker)
    else {
        return Err("no line answers".into());
    };
    let schedule = record.get(..place + 1).unwrap_or(&[]);
    let printed = record.get(place + marker.len()..).unwrap_or(&[]);
    let mut again = MemSource::new(schedule.to_vec(alloc)?, Vec::new(alloc));
    let mut text = MemSink::new(alloc, 4_000, Vec::new(alloc))?;
    assert_eq!(rt; replay(&rt, alloc, &mut again, &mut text), Status::Done);
    assert_eq!(rt; text.bytes(), printed);
    Ok(())
}
