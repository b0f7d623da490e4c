ghost use Rattle.std.specs.Prelude.{◌<◌};
ghost use Rattle.lexemes.specs.Causes.{Gives};
ghost use Rattle.schedule_text.specs.Texts.{texts};
ghost use Rattle.schedule_text.specs.Events.{operation_of, call_from, call_named, call_of};

use crate::arguments::{has_empty, none, one, two};
use crate::event::ScheduleEvent;
use crate::keyword::CommandName;
use ens_base::Command;
use lexemes::{Cause, WordError, key, number, peer, value, version};
use std::alloc::Global;

// The command of this name, from the words behind its key.
fn operation(alloc: Global, name: CommandName, words: &[&[u8]]) -> Result<Command, WordError>
    ensures { Gives (operation_of name (texts words.now)) result }
{
    match name {
        CommandName::Get => {
            none(words)?;
            Ok(Command::Get)
        }
        CommandName::Once => Ok(Command::PutOnce(value(alloc, one(words)?)?)),
        CommandName::Update => {
            let (stamp, new) = two(words)?;
            let stamp = version(alloc, stamp)?;
            Ok(Command::Update(stamp, value(alloc, new)?))
        }
        CommandName::Append => Ok(Command::Append(value(alloc, one(words)?)?)),
        CommandName::Add => Ok(Command::Add(number(one(words)?, 0, u64::MAX)?)),
        CommandName::Swap => {
            let (old, new) = two(words)?;
            let old = value(alloc, old)?;
            Ok(Command::Swap(old, value(alloc, new)?))
        }
        CommandName::Over => Ok(Command::Over(value(alloc, one(words)?)?)),
        CommandName::Delete => {
            none(words)?;
            Ok(Command::Delete)
        }
    }
}

// A call, from the words of its peer, its id, its key and its operands.
fn call_from(
    alloc: Global,
    peers: u32,
    caller: &[u8],
    id: &[u8],
    name: CommandName,
    target: &[u8],
    operands: &[&[u8]],
) -> Result<ScheduleEvent, WordError>
    ensures { Gives (call_from peers caller.now id.now name target.now (texts operands.now)) result }
{
    let peer = peer(caller, peers)?;
    let id = number(id, 0, u64::MAX)?;
    let key = key(alloc, target)?;
    let command = operation(alloc, name, operands)?;
    Ok(ScheduleEvent::Call {
        peer,
        id,
        key,
        command,
    })
}

// A call of this command, from the words behind `call`.
fn call_named(
    alloc: Global,
    name: CommandName,
    words: &[&[u8]],
    peers: u32,
) -> Result<ScheduleEvent, WordError>
    ensures { Gives (call_named peers name (texts words.now)) result }
{
    let [caller, id, _, target, operands @ ..] = words else {
        return Err(WordError::Bad(Cause::Words));
    };
    if has_empty(words) {
        return Err(WordError::Bad(Cause::Words));
    }
    if operands.len() != name.operand_count() {
        return Err(WordError::Bad(Cause::Words));
    }
    call_from(alloc, peers, caller, id, name, target, operands)
}

/// A call, from the words behind `call`. The command is looked up before the words are counted.
pub(crate) fn call(alloc: Global, words: &[&[u8]], peers: u32) -> Result<ScheduleEvent, WordError>
    ensures { Gives (call_of peers (texts words.now)) result }
{
    let [_, _, command, ..] = words else {
        return Err(WordError::Bad(Cause::Words));
    };
    let Some(name) = CommandName::from_word(command) else {
        return Err(WordError::Bad(Cause::Unknown));
    };
    call_named(alloc, name, words, peers)
}
