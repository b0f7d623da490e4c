use ens_base::{Command, Digest, Epoch, Key, PeerId, PeerSet, Reply, Value, Version, View, Views};
use leader::Leader;
use leader_output::{LeadOut, Own};
use phase_rows::{KeyRule, Seen, Then};
use std::alloc::Global;
use std::test::Fail;
use stored_formats::{Change, Fact, Object};

const EPOCH: Epoch = Epoch {
    count: 2,
    proposer: 1,
};

/// The version of the object that the story writes.
const VERSION: Version = Version {
    epoch: EPOCH,
    seq: 1,
};

/// What happens to the leader in a step of a story. The key is always `k`.
#[derive(Clone, Copy)]
enum Step {
    /// An overwrite is called.
    Over,
    /// A get is called.
    Get,
    /// The peer's own tree and backend have nothing under the key.
    OwnNothing,
    /// The peer's own backend has the object that was written.
    OwnObject,
    /// The peer's own tree and backend stored the object.
    OwnStored,
    /// The peer replies, in this round, that it has nothing.
    Nothing(u32, u64),
    /// The peer acknowledges the put of this number.
    Stored(u32, u64),
    /// The peer replies, in this round, that it is still at the epoch.
    Stands(u32, u64),
    /// The ages of the calls rise.
    Ages,
}

/// How a step ends.
#[derive(Clone, Copy, PartialEq, Eq)]
enum End {
    Waits,
    Fetches,
    Looks,
    Puts,
    Answers,
    Leaves,
}

/// A step, how many messages are sent and how many notes are made in it, and how it ends.
type Row = (Step, usize, usize, End);

const WRITE_AND_READ: [Row; 11] = [
    (Step::Over, 0, 0, End::Looks),
    (Step::OwnNothing, 2, 0, End::Waits),
    (Step::Nothing(2, 2), 0, 0, End::Waits),
    (Step::Nothing(2, 1), 0, 1, End::Puts),
    (Step::OwnStored, 2, 0, End::Waits),
    (Step::Stored(2, 2), 0, 0, End::Waits),
    (Step::Stored(3, 1), 0, 1, End::Answers),
    (Step::Get, 0, 0, End::Fetches),
    (Step::OwnObject, 2, 0, End::Waits),
    (Step::Stands(2, 1), 0, 0, End::Waits),
    (Step::Stands(2, 2), 0, 1, End::Answers),
];

const LATE_PUT: [Row; 12] = [
    (Step::Over, 0, 0, End::Looks),
    (Step::OwnNothing, 2, 0, End::Waits),
    (Step::Nothing(2, 1), 0, 1, End::Puts),
    (Step::OwnStored, 2, 0, End::Waits),
    (Step::Ages, 0, 0, End::Waits),
    (Step::Ages, 0, 0, End::Waits),
    (Step::Ages, 0, 0, End::Waits),
    (Step::Ages, 0, 0, End::Waits),
    (Step::Ages, 0, 0, End::Waits),
    (Step::Ages, 0, 0, End::Waits),
    (Step::Ages, 0, 0, End::Waits),
    (Step::Ages, 0, 0, End::Leaves),
];

/// The first fact of epoch 2.1, which has the peers 1 to 3.
fn fact() -> Result<Fact, Fail> {
    let view = View::new(&[PeerId(1), PeerId(2), PeerId(3)])?;
    Ok(Fact {
        ballot: EPOCH,
        epoch: EPOCH,
        seq: 1,
        leader: PeerId(1),
        views: Views::one(view),
        change: Change::None,
    })
}

fn key(alloc: Global) -> Result<Key, Fail> {
    Ok(Key::new(alloc, b"k")?)
}

fn call(alloc: Global, leader: &mut Leader, id: u64, command: Command) -> Result<LeadOut, Fail> {
    Ok(leader.rule_27(alloc, 40, id, key(alloc)?, command, false)?)
}

fn run_rule(
    alloc: Global,
    leader: &mut Leader,
    rule: KeyRule,
    seen: &Seen,
) -> Result<LeadOut, Fail> {
    Ok(leader.rule(alloc, rule, &key(alloc)?, seen)?)
}

fn own_object(alloc: Global, leader: &mut Leader) -> Result<LeadOut, Fail> {
    let object = Object {
        version: VERSION,
        stamp: VERSION,
        key: key(alloc)?,
        value: Some(Value::new(alloc, b"v")?),
    };
    run_rule(
        alloc,
        leader,
        KeyRule::StartCall,
        &Seen::Kept(Some((object, Digest([5; 16])))),
    )
}

fn perform(alloc: Global, leader: &mut Leader, step: Step) -> Result<LeadOut, Fail> {
    match step {
        Step::Over => {
            let value = Value::new(alloc, b"v")?;
            call(alloc, leader, 1, Command::Over(value))
        }
        Step::Get => call(alloc, leader, 2, Command::Get),
        Step::OwnNothing => {
            let seen = Seen::Held {
                entry: None,
                object: None,
            };
            run_rule(alloc, leader, KeyRule::Read, &seen)
        }
        Step::OwnObject => own_object(alloc, leader),
        Step::OwnStored => run_rule(alloc, leader, KeyRule::Put, &Seen::Stored(Digest([5; 16]))),
        Step::Nothing(peer, round) => {
            let key = key(alloc)?;
            Ok(leader.rule_29_reply(alloc, PeerId(peer), EPOCH, round, &key, None, None)?)
        }
        Step::Stored(peer, seq) => {
            let version = Version { epoch: EPOCH, seq };
            Ok(leader.rule_35_reply(alloc, PeerId(peer), EPOCH, &key(alloc)?, version)?)
        }
        Step::Stands(peer, round) => {
            Ok(leader.rule_33_reply(alloc, PeerId(peer), EPOCH, round)?)
        }
        Step::Ages => Ok(leader.rule_5(alloc, false, fact()?, None)?),
    }
}

fn end_of(out: &LeadOut) -> End {
    if !out.answers.as_slice().is_empty() {
        return End::Answers;
    }
    match &out.own {
        Some(Own::Fetch(_key)) => End::Fetches,
        Some(Own::Look(_key)) => End::Looks,
        Some(Own::Put(_object)) => End::Puts,
        None => { if out.leave { End::Leaves } else { End::Waits } }
    }
}

/// How many messages were sent and notes were made, the end, and the rule that runs next on the key.
type Part = (usize, usize, End, Option<KeyRule>);

fn part_of(out: &LeadOut) -> Part {
    let next = match out.then {
        Then::OnKeys(rule) => {
            if out.keys.as_slice().is_empty() {
                None
            } else {
                Some(rule)
            }
        }
        _ => None,
    };
    (
        out.sends.as_slice().len(),
        out.notes.as_slice().len(),
        end_of(out),
        next,
    )
}

fn first_part(alloc: Global, leader: &mut Leader, first: Step) -> Result<Part, Fail> {
    let out = perform(alloc, leader, first)?;
    Ok(part_of(&out))
}

fn next_part(alloc: Global, leader: &mut Leader, rule: KeyRule) -> Result<Part, Fail> {
    let out = run_rule(alloc, leader, rule, &Seen::Nothing)?;
    Ok(part_of(&out))
}

/// Does the step, and runs the rules that follow, up to one that asks the peer's own stores or answers.
fn run(alloc: Global, leader: &mut Leader, first: Step) -> Result<Part, Fail> {
    let (mut sends, mut notes, mut end, mut next) = first_part(alloc, leader, first)?;
    for _ in 0..8 {
        if end == End::Waits {
            if let Some(rule) = next {
                let part = next_part(alloc, leader, rule)?;
                sends = sends.saturating_add(part.0);
                notes = notes.saturating_add(part.1);
                end = part.2;
                next = part.3;
            }
        }
    }
    Ok((sends, notes, end, next))
}

/// Does the steps in turn. Returns the place of the first one that does other than its row says.
fn first_wrong(alloc: Global, rows: &[Row]) -> Result<Option<usize>, Fail> {
    let mut leader = Leader::new(alloc, fact()?, PeerId(1), PeerSet::empty());
    for i in 0..rows.len() {
        let (step, sends, notes, end) = rows[i];
        let done = run(alloc, &mut leader, step)?;
        if done.0 != sends || done.1 != notes || done.2 != end {
            return Ok(Some(i));
        }
    }
    Ok(None)
}

#[test]
fn a_write_is_put_and_settled_and_read_and_a_late_put_ends_leading(
    rt: HostRuntime,
) -> Result<(), Fail> {
    let stories: [&[Row]; 2] = [&WRITE_AND_READ, &LATE_PUT];
    for rows in stories {
        let wrong = first_wrong(rt.alloc(), rows)?;
        assert!(rt; wrong.is_none(), "{wrong:?}");
    }
    Ok(())
}

#[test]
fn a_leader_that_leaves_answers_its_calls(rt: HostRuntime) -> Result<(), Fail> {
    let alloc = rt.alloc();
    let mut leader = Leader::new(alloc, fact()?, PeerId(1), PeerSet::empty());
    leader.accept(PeerId(3));
    assert!(rt; leader.accepts().has(PeerId(3)) && leader.fact().epoch == EPOCH);
    let out = call(alloc, &mut leader, 1, Command::Get)?;
    assert!(rt; end_of(&out) == End::Waits && leader.unanswered());
    let answers = leader.leave(alloc)?;
    assert!(rt; answers.len() == 1 && answers[0].reply == Reply::Timeout);
    Ok(())
}
