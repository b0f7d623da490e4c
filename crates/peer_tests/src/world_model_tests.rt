use crate::recorder::Recorder;
use hash_book::HashBook;
use schedule_text::read_schedule;
use std::alloc::Global;
use std::test::Fail;
use std::thread::Threads;
use world_model::World;

/// Peers 1 and 2 have one entry in their trees, and peer 3 has lost it, when all three start again.
/// Peer 1 is elected at event 13, the `calm` behind its ticks. None trusts its tree, so each syncs.
const LOST_BY_A_FOLLOWER: &[u8] =
    b"ensemble 1\npeers 3\nview 1 2 3\ntick 1 6\ncalm\ncall 1 1 over 6b 76\ncalm\nstop 1\nstop 2\nstop 3\nrevert 3 1\nstart 1\nstart 2\nstart 3\ntick 1 6\ncalm\ncall 1 2 get 6b\ncalm\n";

/// The segment of the entry: tag 2, level 3, the index, which is the first three digits of the MD5 of
/// the key, the count 1, the key 6b, the version 1.1.1, and the MD5 of the object. Both MD5s were
/// taken with another program.
const SEGMENT: [u8; 48] = [
    0x02, 0x03, 0x00, 0x00, 0x08, 0xce, 0x00, 0x00, 0x00, 0x01, 0x01, 0x6b, 0x00, 0x00, 0x00, 0x00,
    0x00, 0x00, 0x00, 0x01, 0x00, 0x00, 0x00, 0x01, 0x00, 0x00, 0x00, 0x00, 0x00, 0x00, 0x00, 0x01,
    0xc7, 0xc5, 0x7e, 0x26, 0x9d, 0x37, 0x46, 0x1d, 0xf7, 0x43, 0x76, 0x41, 0x6f, 0x36, 0x48, 0x8b,
];

/// The root of the empty tree.
const EMPTY_ROOT: [u8; 8] = [1, 0, 0, 0, 0, 0, 0, 0];

/// The first lines of a text.
fn first_lines(text: &[u8], lines: usize) -> &[u8] {
    let mut left = lines;
    for place in 0..text.len() {
        if left == 0 {
            return &text[..place];
        }
        if text[place] == b'\n' {
            left -= 1;
        }
    }
    text
}

/// How often the segment and the empty root are admitted by a run of the first lines of the schedule,
/// three of which stand before its events.
fn times_admitted<R: Threads + Sync>(
    rt: &R,
    alloc: Global,
    lines: usize,
) -> Result<[u64; 2], Fail> {
    let mut hasher = Recorder::new(alloc, HashBook::new(alloc, 1_000_000));
    let schedule = read_schedule(alloc, first_lines(LOST_BY_A_FOLLOWER, lines))?;
    World::run(rt, alloc, &schedule, &mut hasher)?;
    Ok([
        hasher.times_admitted(&SEGMENT),
        hasher.times_admitted(&EMPTY_ROOT),
    ])
}

/// A scan admits each node of the tree, and a build each node that it makes; every other digest is
/// computed by `digest`. So the sync of event 13 admits the segment in the scans of peers 1 and 2 and
/// in the build of peer 3, whose scan finds the empty root.
#[test]
fn sync_admits(rt: HostRuntime) -> Result<(), Fail> {
    let alloc = rt.alloc();
    assert!(rt; times_admitted(&rt, alloc, 3 + 12)? == [0, 0]);
    assert!(rt; times_admitted(&rt, alloc, 3 + 13)? == [3, 1]);
    Ok(())
}
