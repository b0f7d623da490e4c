use ens_base::{Command, Epoch, Key, Reply, Value, Version};
use register_checker::*;
use register_model::{Answer, Call};
use std::alloc::Global;
use std::test::Fail;

/// The version 1.1.`seq`.
fn stamp(seq: u64) -> Version {
    Version {
        epoch: Epoch {
            count: 1,
            proposer: 1,
        },
        seq,
    }
}

fn value(alloc: Global, bytes: &[u8]) -> Result<Value, Fail> {
    Ok(Value::new(alloc, bytes)?)
}

/// Calls on one key, and their replies.
#[derive(Drop)]
struct Script {
    alloc: Global,
    calls: Vec<Call>,
    answers: Vec<Answer>,
}

impl Script {
    fn new(alloc: Global) -> Script {
        Script {
            alloc,
            calls: Vec::new(alloc),
            answers: Vec::new(alloc),
        }
    }

    /// Adds a call with this reply.
    fn replied(&mut self, id: u64, command: Command, reply: Reply) -> Result<(), Fail> {
        self.calls.push(Call {
            id,
            key: Key::new(self.alloc, b"k")?,
            command,
            event: 1,
        })?;
        self.answers.push(Answer {
            id,
            event: 2,
            reply,
        })?;
        Ok(())
    }

    /// Whether the calls in this order are a run.
    fn is_run(&self, order: &[u64]) -> Result<bool, Fail> {
        let alloc = self.alloc;
        let call_ids = self
            .calls
            .iter()
            .map(|call| call.id)
            .collect::<Vec<u64>>(alloc)?;
        let answer_ids = self
            .answers
            .iter()
            .map(|answer| answer.id)
            .collect::<Vec<u64>>(alloc)?;
        if are_distinct(alloc, &call_ids)? && are_distinct(alloc, &answer_ids)? {
            return Ok(is_run(alloc, &self.calls, &self.answers, order)?);
        }
        Err("an id stands twice".into())
    }
}

/// An overwrite that timed out, an update of stamp 1.1.1 with the reply ok, and a get with a value of
/// stamp 1.1.2.
fn timed_out(alloc: Global) -> Result<Script, Fail> {
    let mut script = Script::new(alloc);
    script.replied(1, Command::Over(value(alloc, b"a")?), Reply::Timeout)?;
    let update = Command::Update(stamp(1), value(alloc, b"b")?);
    script.replied(2, update, Reply::Ok(stamp(3)))?;
    script.replied(3, Command::Get, Reply::Value(stamp(2), value(alloc, b"a")?))?;
    Ok(script)
}

/// Orders of the calls, and whether each is a run.
const ORDERS: [(&[u64], bool); 6] = [
    (&[], true),
    (&[1, 2], true),
    (&[1, 3], true),
    (&[1, 3, 2], false),
    (&[2], false),
    (&[4], false),
];

#[test]
fn an_update_reveals_a_stamp(rt: HostRuntime) -> Result<(), Fail> {
    let script = timed_out(rt.alloc())?;
    for (order, runs) in ORDERS {
        assert!(rt; script.is_run(order)? == runs, "{order:?}");
    }
    Ok(())
}
