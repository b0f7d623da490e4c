ghost use Rattle.std.specs.Prelude.{IfOk};
ghost use Rattle.cluster.specs.Ends.{IsCluster};

use cluster::{cluster, cluster_with};
use ens_base::{ClusterWords, PeerId, Status, View};
use environment::{MemQueue, MemSink, MemSource};
use hash_book::HashBook;
use std::alloc::Global;
use std::test::Fail;

/// One peer, which is called once it leads.
const ALONE: &str = "tick 1 6\ncall 1 1 over 6b 76\ncall 1 2 get 6b\n";

/// Its record: nothing is sent.
const ALONE_RECORD: &str = "ensemble 3\npeers 1\nview 1\n\
     tick 1 6\ncall 1 1 over 6b 76\ncall 1 2 get 6b\nanswers\n\
     answer 1 2 ok 1.1.1\nanswer 2 3 value 1.1.1 76\nhistory 6b 1 2\n";

/// Three peers: one is elected by 12 messages, and a write takes 8.
const THREE: &str = "tick 1 6\nturn 12\ncall 1 1 over 6b 76\nturn 8\n";

/// Their record: each look gives the next message.
const THREE_RECORD: &str = "ensemble 3\npeers 3\nview 1 2 3\ntick 1 6\n\
     deliver 1\ndeliver 2\ndeliver 3\ndeliver 4\ndeliver 5\ndeliver 6\n\
     deliver 7\ndeliver 8\ndeliver 9\ndeliver 10\ndeliver 11\ndeliver 12\n\
     call 1 1 over 6b 76\n\
     deliver 13\ndeliver 14\ndeliver 15\ndeliver 16\ndeliver 17\ndeliver 18\ndeliver 19\ndeliver 20\n\
     answers\nanswer 1 21 ok 1.1.1\nhistory 6b 1\n";

/// A peer asks the two others, and both looks after the second give nothing.
const IDLE_RECORD: &str =
    "ensemble 3\npeers 3\nview 1 2 3\nstop 2\nstop 3\ntick 1 6\ndeliver 1\ndeliver 2\nanswers\n";

/// The words of so many peers, which are all members.
fn all_members(alloc: Global, peers: u32) -> Result<ClusterWords, Fail>
    ensures { IfOk result IsCluster }
{
    let view = match peers {
        1 => View::new(&[PeerId(1)])?,
        3 => View::new(&[PeerId(1), PeerId(2), PeerId(3)])?,
        _ => return Err("one peer or three".into()),
    };
    Ok(ClusterWords {
        peers,
        port: 40000,
        view,
    })
}

#[test]
fn each_end_has_its_case(rt: HostRuntime) -> Result<(), Fail> {
    let alloc = rt.alloc();
    // The peers, the script, the calls of the source and of the link that fail, if one does, and the end.
    let cases = [
        (1, ALONE, 0, 0, Status::Done, ALONE_RECORD),
        (3, THREE, 0, 0, Status::Done, THREE_RECORD),
        (
            3,
            "stop 2\nstop 3\ntick 1 6\nturn 4\n",
            0,
            0,
            Status::Done,
            IDLE_RECORD,
        ),
        (
            1,
            "tick 1 6\nturn 0\n",
            0,
            0,
            Status::Schedule,
            "schedule 2 6\n",
        ),
        (
            1,
            "tick 1 6\ncalm\n",
            0,
            0,
            Status::Schedule,
            "schedule 2 4\n",
        ),
        (1, ALONE, 1, 0, Status::ReadFault, "read fault\n"),
        (3, THREE, 0, 2, Status::LinkFault, "link fault\n"),
        (3, THREE, 0, 3, Status::LinkFault, "link fault\n"),
    ];
    for (peers, script, read, sent, status, text) in cases {
        let words = all_members(alloc, peers)?;
        let mut input = MemSource::new(script.as_bytes().to_vec(alloc)?, vec![in alloc; read]?);
        let mut output = MemSink::new(alloc, 1_000, Vec::new(alloc))?;
        let mut link = MemQueue::new(alloc, vec![in alloc; sent]?);
        let ended = cluster(&rt, alloc, &words, &mut input, &mut output, &mut link);
        assert_eq!(rt; ended, status, "{script}");
        assert_eq!(rt; output.bytes(), text.as_bytes(), "{script}");
    }
    Ok(())
}

#[test]
fn a_full_book_ends_the_run_before_its_first_line(rt: HostRuntime) -> Result<(), Fail> {
    let alloc = rt.alloc();
    let words = all_members(alloc, 1)?;
    let mut input = MemSource::new(ALONE.as_bytes().to_vec(alloc)?, Vec::new(alloc));
    let mut output = MemSink::new(alloc, 100, Vec::new(alloc))?;
    let mut link = MemQueue::new(alloc, Vec::new(alloc));
    let mut book = HashBook::new(alloc, 0);
    assert_eq!(rt;
        cluster_with(
            &rt,
            alloc,
            &words,
            &mut input,
            &mut output,
            &mut link,
            &mut book
        ),
        Status::Limit
    );
    assert_eq!(rt; output.bytes(), b"limit book 1073741824\n".as_slice());
    Ok(())
}
