use super::plain::{Ask, Said, Step, is_run};
use ens_base::{Command, Epoch, Key, Reply, Value, Version};
use register_model::{Answer, Call};
use std::alloc::Global;

/// The calls and replies from which the orders are made.
const STEPS: [Step; 16] = [
    Step {
        ask: Ask::Get,
        said: None,
    },
    Step {
        ask: Ask::Get,
        said: Some(Said::NotFound),
    },
    Step {
        ask: Ask::Get,
        said: Some(Said::Value(1, 7)),
    },
    Step {
        ask: Ask::Get,
        said: Some(Said::Value(2, 7)),
    },
    Step {
        ask: Ask::Once(7),
        said: None,
    },
    Step {
        ask: Ask::Once(7),
        said: Some(Said::Ok(1)),
    },
    Step {
        ask: Ask::Once(8),
        said: Some(Said::Failed),
    },
    Step {
        ask: Ask::Update(1, 8),
        said: None,
    },
    Step {
        ask: Ask::Update(1, 7),
        said: Some(Said::Ok(2)),
    },
    Step {
        ask: Ask::Update(1, 8),
        said: Some(Said::Ok(1)),
    },
    Step {
        ask: Ask::Update(2, 8),
        said: Some(Said::Failed),
    },
    Step {
        ask: Ask::Over(7),
        said: None,
    },
    Step {
        ask: Ask::Over(7),
        said: Some(Said::Ok(1)),
    },
    Step {
        ask: Ask::Over(8),
        said: Some(Said::Ok(2)),
    },
    Step {
        ask: Ask::Delete,
        said: None,
    },
    Step {
        ask: Ask::Delete,
        said: Some(Said::Ok(1)),
    },
];

/// Returns the version 1.1.seq.
pub fn stamp(seq: u64) -> Version {
    Version {
        epoch: Epoch {
            count: 1,
            proposer: 1,
        },
        seq,
    }
}

/// Makes a value of one byte.
pub fn value(alloc: Global, byte: u8) -> Option<Value> {
    match Value::new(alloc, &[byte]) {
        Ok(value) => Some(value),
        Err(_e) => None,
    }
}

fn command(alloc: Global, ask: Ask) -> Option<Command> {
    match ask {
        Ask::Get => Some(Command::Get),
        Ask::Once(byte) => Some(Command::PutOnce(value(alloc, byte)?)),
        Ask::Update(seq, byte) => Some(Command::Update(stamp(u64::from(seq)), value(alloc, byte)?)),
        Ask::Over(byte) => Some(Command::Over(value(alloc, byte)?)),
        Ask::Delete => Some(Command::Delete),
    }
}

fn reply(alloc: Global, said: Said) -> Option<Reply> {
    match said {
        Said::Value(seq, byte) => Some(Reply::Value(stamp(u64::from(seq)), value(alloc, byte)?)),
        Said::NotFound => Some(Reply::NotFound),
        Said::Ok(seq) => Some(Reply::Ok(stamp(u64::from(seq)))),
        Said::Failed => Some(Reply::Failed),
    }
}

/// Makes a call with this id on the key k.
pub fn call(alloc: Global, id: u64, command: Command) -> Option<Call> {
    match Key::new(alloc, b"k") {
        Ok(key) => Some(Call {
            id,
            key,
            command,
            event: 1,
        }),
        Err(_e) => None,
    }
}

/// Returns whether the order of these calls is a run, or `None` if an id occurs twice or when out
/// of memory.
pub fn tested(alloc: Global, calls: &[Call], answers: &[Answer], order: &[u64]) -> Option<bool> {
    let call_ids = calls
        .iter()
        .map(|call| call.id)
        .collect::<Vec<u64>>(alloc)
        .ok()?;
    let answer_ids = answers
        .iter()
        .map(|answer| answer.id)
        .collect::<Vec<u64>>(alloc)
        .ok()?;
    if register_checker::are_distinct(alloc, &call_ids).ok()?
        && register_checker::are_distinct(alloc, &answer_ids).ok()?
    {
        return register_checker::is_run(alloc, calls, answers, order).ok();
    }
    None
}

/// Returns whether the steps, as calls 1, 2 and so on, are a run by the test of register_checker.
fn is_run_of(alloc: Global, steps: &[Step]) -> Option<bool> {
    let mut calls = Vec::new(alloc);
    let mut answers = Vec::new(alloc);
    let mut order = Vec::new(alloc);
    let mut id = 0u64;
    for step in steps {
        id = id.wrapping_add(1);
        calls
            .push(call(alloc, id, command(alloc, step.ask)?)?)
            .ok()?;
        order.push(id).ok()?;
        if let Some(said) = step.said {
            answers
                .push(Answer {
                    id,
                    event: 2,
                    reply: reply(alloc, said)?,
                })
                .ok()?;
        }
    }
    tested(alloc, &calls, &answers, &order)
}

/// Returns the number of orders of three calls, the number of runs among them, and the number of
/// orders on which the test of register_checker and the plain search agree.
pub fn compared(alloc: Global) -> Option<(u32, u32, u32)> {
    let mut orders = 0u32;
    let mut runs = 0u32;
    let mut same = 0u32;
    for first in STEPS {
        for second in STEPS {
            for third in STEPS {
                let steps = [first, second, third];
                let plainly = is_run(&steps);
                let tested = is_run_of(alloc, &steps)?;
                orders = orders.saturating_add(1);
                runs = runs.saturating_add(u32::from(plainly));
                same = same.saturating_add(u32::from(plainly == tested));
            }
        }
    }
    Some((orders, runs, same))
}
