//! Serves overwrites at the leader of three members: 20,000 calls on 20,000 keys, which all wait at
//! once, and then 20,000 calls on one key, 16 at a time. Each call is joined, its key is read if
//! nothing is known of it, and its write is put and answered.

use ens_base::{Command, Digest, Epoch, Key, PeerId, PeerSet, Value, Version, View, Views};
use leader::Leader;
use leader_output::{LeadError, LeadOut, Own};
use phase_rows::{KeyRule, Seen, Then};
use std::alloc::Global;
use stored_formats::{Change, Fact};

const EPOCH: Epoch = Epoch {
    count: 1,
    proposer: 1,
};

/// The number of calls of each part.
const CALLS: u64 = 20_000;

/// The number of calls that wait on the one key.
const BATCH: u64 = 16;

/// More rules than run for one call.
const TURNS: u32 = 32;

/// A member that is not the leader. It makes a quorum with the leader.
const MEMBER: PeerId = PeerId(2);

/// What the leader's own stores return: they hold nothing, and store what is put.
#[derive(Clone, Copy)]
enum Stores {
    Unasked,
    Missing,
    Stored,
}

/// How many calls a rule answered, and the rule that runs next on the key.
#[derive(Clone, Copy)]
struct Turn {
    answered: u64,
    next: Option<(KeyRule, Stores)>,
}

fn leader(alloc: Global) -> Option<Leader> {
    let view = View::new(&[PeerId(1), PeerId(2), PeerId(3)]).ok()?;
    let fact = Fact {
        ballot: EPOCH,
        epoch: EPOCH,
        seq: 1,
        leader: PeerId(1),
        views: Views::one(view),
        change: Change::None,
    };
    Some(Leader::new(alloc, fact, PeerId(1), PeerSet::empty()))
}

/// Returns the key of this number.
fn key_of(alloc: Global, number: u64) -> Option<Key> {
    Key::new(alloc, &number.to_be_bytes()).ok()
}

/// Returns what the stores return to a rule that asks them.
fn stores_for(own: &Own) -> Stores {
    match own {
        Own::Fetch(_key) | Own::Look(_key) => Stores::Missing,
        Own::Put(_object) => Stores::Stored,
    }
}

fn next_of(own: &Option<Own>, then: Then) -> Option<(KeyRule, Stores)> {
    match own {
        Some(own) => Some((own.asked_by(), stores_for(own))),
        None => match then {
            Then::OnKeys(rule) => Some((rule, Stores::Unasked)),
            _ => None,
        },
    }
}

fn turn_of(ran: Result<LeadOut, LeadError>) -> Option<Turn> {
    match ran {
        Ok(out) => Some(Turn {
            answered: out.answers.as_slice().len() as u64,
            next: next_of(&out.own, out.then),
        }),
        Err(_) => None,
    }
}

fn seen_of(stores: Stores) -> Seen {
    match stores {
        Stores::Unasked => Seen::Nothing,
        Stores::Missing => Seen::Held {
            entry: None,
            object: None,
        },
        Stores::Stored => Seen::Stored(Digest([7; 16])),
    }
}

/// Runs the rule on the key.
fn run(
    alloc: Global,
    leader: &mut Leader,
    rule: KeyRule,
    key: &Key,
    stores: Stores,
) -> Option<Turn> {
    let seen = seen_of(stores);
    turn_of(leader.rule(alloc, rule, key, &seen))
}

/// Runs the rules that follow on the key, until its running call waits. Returns the number of calls
/// that were answered.
fn follow(alloc: Global, leader: &mut Leader, key: &Key, first: Turn) -> Option<u64> {
    let mut turn = first;
    let mut answered: u64 = 0;
    for _ in 0..TURNS {
        answered = answered.saturating_add(turn.answered);
        let Some((rule, stores)) = turn.next else {
            return Some(answered);
        };
        turn = run(alloc, leader, rule, key, stores)?;
    }
    None
}

fn overwrite(alloc: Global) -> Option<Command> {
    Some(Command::Over(Value::new(alloc, b"v").ok()?))
}

fn joined(alloc: Global, leader: &mut Leader, id: u64, key: Key) -> Option<Turn> {
    match overwrite(alloc) {
        None => None,
        Some(command) => turn_of(leader.rule_27(alloc, 40, id, key, command, false)),
    }
}

/// Joins an overwrite with this number on the key.
fn join(alloc: Global, leader: &mut Leader, id: u64, key: &Key) -> Option<u64> {
    let turn = joined(alloc, leader, id, key.copy(alloc).ok()?)?;
    follow(alloc, leader, key, turn)
}

/// Lets the member reply that it has nothing under the key.
fn read(alloc: Global, leader: &mut Leader, key: &Key, round: u64) -> Option<u64> {
    let turn = turn_of(leader.rule_29_reply(alloc, MEMBER, EPOCH, round, key, None, None))?;
    follow(alloc, leader, key, turn)
}

/// Lets the member acknowledge the put of this number.
fn acknowledge(alloc: Global, leader: &mut Leader, key: &Key, seq: u64) -> Option<u64> {
    let version = Version { epoch: EPOCH, seq };
    let turn = turn_of(leader.rule_35_reply(alloc, MEMBER, EPOCH, key, version))?;
    follow(alloc, leader, key, turn)
}

fn join_on(alloc: Global, leader: &mut Leader, number: u64) -> Option<u64> {
    let key = key_of(alloc, number)?;
    join(alloc, leader, number, &key)
}

fn read_on(alloc: Global, leader: &mut Leader, number: u64) -> Option<u64> {
    let key = key_of(alloc, number)?;
    read(alloc, leader, &key, number)
}

fn acknowledge_on(alloc: Global, leader: &mut Leader, number: u64) -> Option<u64> {
    let key = key_of(alloc, number)?;
    acknowledge(alloc, leader, &key, number)
}

/// Serves a call on each of 20,000 keys. Returns the number of calls that were answered.
fn serve_keys(alloc: Global, leader: &mut Leader) -> Option<u64> {
    let mut answered: u64 = 0;
    for number in 1..CALLS + 1 {
        answered = answered.saturating_add(join_on(alloc, leader, number)?);
    }
    for number in 1..CALLS + 1 {
        answered = answered.saturating_add(read_on(alloc, leader, number)?);
    }
    for number in 1..CALLS + 1 {
        answered = answered.saturating_add(acknowledge_on(alloc, leader, number)?);
    }
    Some(answered)
}

/// Joins 16 calls on the key and lets each be answered. The first of them has the number `first`, and
/// if the key was not read before, it is read in round 1.
fn serve_batch(alloc: Global, leader: &mut Leader, key: &Key, first: u64) -> Option<u64> {
    let mut answered: u64 = 0;
    for place in 0..BATCH {
        let id = first.saturating_add(place);
        answered = answered.saturating_add(join(alloc, leader, id, key)?);
    }
    answered = answered.saturating_add(read(alloc, leader, key, 1)?);
    for place in 0..BATCH {
        let seq = first.saturating_add(place);
        answered = answered.saturating_add(acknowledge(alloc, leader, key, seq)?);
    }
    Some(answered)
}

/// Serves 20,000 calls on one key. Returns the number of calls that were answered.
fn serve_batches(alloc: Global, leader: &mut Leader, key: &Key) -> Option<u64> {
    let mut answered: u64 = 0;
    for batch in 0..CALLS / BATCH {
        let more = serve_batch(alloc, leader, key, batch * BATCH + 1)?;
        answered = answered.saturating_add(more);
    }
    Some(answered)
}

fn on_many_keys(alloc: Global) -> Option<u64> {
    let mut leader = leader(alloc)?;
    serve_keys(alloc, &mut leader)
}

fn on_one_key(alloc: Global) -> Option<u64> {
    let key = key_of(alloc, 0)?;
    match leader(alloc) {
        None => None,
        Some(mut leader) => serve_batches(alloc, &mut leader, &key),
    }
}

/// Returns how many calls were answered on many keys and on one key. `None` when out of memory.
pub fn measure(alloc: Global) -> Option<(u64, u64)> {
    Some((on_many_keys(alloc)?, on_one_key(alloc)?))
}
