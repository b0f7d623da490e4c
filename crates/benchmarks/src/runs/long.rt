use super::small::{call, stamp, tested, value};
use ens_base::{Command, Reply};
use register_model::Answer;
use std::alloc::Global;

/// Returns the command at this place of a long order, and its reply if it has one. Each ten calls
/// have an overwrite without a reply, an update that finds its stamp, reads, and overwrites that
/// are answered.
fn at(alloc: Global, place: u64) -> Option<(Command, Option<Reply>)> {
    let before = place.wrapping_sub(1);
    match place % 10 {
        0 => Some((Command::Over(value(alloc, 1)?), None)),
        1 => Some((
            Command::Update(stamp(before), value(alloc, 2)?),
            Some(Reply::Ok(stamp(place))),
        )),
        2 => Some((
            Command::Get,
            Some(Reply::Value(stamp(before), value(alloc, 2)?)),
        )),
        3 => Some((Command::PutOnce(value(alloc, 3)?), Some(Reply::Failed))),
        4 => Some((
            Command::Append(value(alloc, 4)?),
            Some(Reply::Ok(stamp(place))),
        )),
        5 => Some((Command::Delete, Some(Reply::Ok(stamp(place))))),
        6 => Some((Command::Get, Some(Reply::NotFound))),
        _ => Some((
            Command::Over(value(alloc, 5)?),
            Some(Reply::Ok(stamp(place))),
        )),
    }
}

/// Returns whether an order of `count` calls is a run.
pub fn is_run_of(alloc: Global, count: u64) -> Option<bool> {
    let mut calls = Vec::new(alloc);
    let mut answers = Vec::new(alloc);
    let mut order = Vec::new(alloc);
    for id in 0..count {
        let (command, reply) = at(alloc, id)?;
        calls.push(call(alloc, id, command)?).ok()?;
        order.push(id).ok()?;
        if let Some(reply) = reply {
            answers
                .push(Answer {
                    id,
                    event: 2,
                    reply,
                })
                .ok()?;
        }
    }
    tested(alloc, &calls, &answers, &order)
}
