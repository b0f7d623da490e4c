ghost use Rattle.std.specs.Prelude.{◌≡◌, ◌++◌, ◌∷◌, [], fold, IfOk, OnOk};
ghost use Rattle.register_checker.specs.Stamps.{with_stamp};
ghost use Rattle.register_checker.specs.Guesses.{
  with_wanted,
  same_reply,
  is_new,
  may_be,
  verdict_on,
  left_untold,
  update_untold,
  silent,
  write_told,
  left_told,
  get_told,
  update_told,
  answered,
  learned,
  added,
  all_silent,
  all_answered,
};
ghost use Rattle.register_checker.specs.declared.guess.Guess.TheVariants.{Untold};

use crate::error::RunError;
use crate::guess::{Guess, Possible, add, copy_stamps};
use crate::stamps::{Stamps, has};
use ens_base::{Command, Epoch, Reply, Seq, Value, Version};
use object_commands::{Verdict, on_absent, on_present};
use std::alloc::Global;

/// A placeholder for an unknown stamp, for commands that do not look at it.
const NOWHERE: Version = Version {
    epoch: Epoch {
        count: 0,
        proposer: 0,
    },
    seq: 0,
};

/// Returns whether two replies are equal.
fn same_reply(a: &Reply, b: &Reply) -> bool
    ensures { result ≡ same_reply a.now b.now }
{
    a == b
}

/// Returns whether, as far as is known, no earlier step had this stamp.
fn is_new(known: &Stamps, named: &Seq<Version>, stamp: Version) -> bool
    ensures { result ≡ is_new known.now named.now stamp }
{
    !known.has(stamp) && !has(named.as_slice(), stamp)
}

/// Returns whether an unknown stamp may be this one.
fn may_be(known: &Stamps, named: &Seq<Version>, excluded: &Seq<Version>, stamp: Version) -> bool
    ensures { result ≡ may_be known.now named.now excluded.now stamp }
{
    is_new(known, named, stamp) && !has(excluded.as_slice(), stamp)
}

/// Returns the stamps with this one appended.
fn and_stamp(alloc: Global, stamps: &Seq<Version>, stamp: Version) -> Result<Seq<Version>, RunError>
    ensures { IfOk result (λ s. s ≡ stamps.now ++ stamp ∷ []) }
{
    let mut more = copy_stamps(alloc, stamps)?;
    more.push(stamp)?;
    Ok(more)
}

/// Returns the outcome of a command that does not look at an unknown stamp.
fn verdict_on(alloc: Global, command: &Command, held: &Guess) -> Result<Verdict, RunError>
    ensures { IfOk result (λ v. v ≡ verdict_on command.now held.now) }
{
    match held {
        Guess::Absent => Ok(on_absent(alloc, command)?),
        Guess::Told(stamp, value) => Ok(on_present(alloc, command, *stamp, value)?),
        Guess::Untold(value, _) => Ok(on_present(alloc, command, NOWHERE, value)?),
    }
}

/// Adds the register unchanged.
fn stays(
    alloc: Global,
    held: &Guess,
    named: &Seq<Version>,
    next: &mut Vec<Possible>,
) -> Result<(), RunError>
    ensures { OnOk result (next.new.items ≡ added next.old.items (record { held = held.now; named = named.now })) }
{
    let held = held.copy(alloc)?;
    let named = copy_stamps(alloc, named)?;
    add(next, Possible { held, named })
}

fn left_untold(
    alloc: Global,
    verdict: Verdict,
    held: &Guess,
    named: &Seq<Version>,
    next: &mut Vec<Possible>,
) -> Result<(), RunError>
    ensures { OnOk result (next.new.items ≡ fold added next.old.items (left_untold verdict held.now named.now)) }
{
    match verdict {
        Verdict::Answer(_reply) => stays(alloc, held, named, next),
        Verdict::Write(content) => {
            let held = Guess::untold(alloc, content);
            let named = copy_stamps(alloc, named)?;
            add(next, Possible { held, named })
        }
    }
}

/// Adds the outcomes of an update without a printed reply, on a value whose stamp is unknown: it
/// failed, or it took effect and the stamp was the wanted one.
fn update_untold(
    alloc: Global,
    known: &Stamps,
    named: &Seq<Version>,
    update: (Version, &Value),
    value: &Value,
    excluded: &Seq<Version>,
    next: &mut Vec<Possible>,
) -> Result<(), RunError>
    ensures { OnOk result (next.new.items ≡ fold added next.old.items (update_untold known.now named.now update.entry.0 update.entry.1.now value.now excluded.now)) }
{
    let (wanted, new) = update;
    let value = value.copy(alloc)?;
    if !may_be(known, named, excluded, wanted) {
        let held = Guess::Untold(value, copy_stamps(alloc, excluded)?);
        let named = copy_stamps(alloc, named)?;
        return add(next, Possible { held, named });
    }
    let failed = Possible {
        held: Guess::Untold(value, and_stamp(alloc, excluded, wanted)?),
        named: copy_stamps(alloc, named)?,
    };
    let done = Possible {
        held: Guess::Untold(new.copy(alloc)?, Seq::new(Vec::new(alloc))),
        named: and_stamp(alloc, named, wanted)?,
    };
    add(next, failed)?;
    add(next, done)
}

/// Adds what a command without a printed reply leaves of one possible register.
fn silent(
    alloc: Global,
    known: &Stamps,
    command: &Command,
    possible: &Possible,
    next: &mut Vec<Possible>,
) -> Result<(), RunError>
    ensures { OnOk result (next.new.items ≡ fold added next.old.items (silent known.now possible.now.named possible.now.held command.now)) }
{
    match &possible.held {
        Guess::Absent => silent_plain(alloc, command, possible, next),
        Guess::Told(_, _) => silent_plain(alloc, command, possible, next),
        Guess::Untold(value, excluded) => match command {
            Command::Update(wanted, new) => update_untold(
                alloc,
                known,
                &possible.named,
                (*wanted, new),
                value,
                excluded,
                next,
            ),
            Command::Get => stays(alloc, &possible.held, &possible.named, next),
            Command::PutOnce(_) => silent_plain(alloc, command, possible, next),
            Command::Append(_) => silent_plain(alloc, command, possible, next),
            Command::Add(_) => silent_plain(alloc, command, possible, next),
            Command::Swap(_, _) => silent_plain(alloc, command, possible, next),
            Command::Over(_) => silent_plain(alloc, command, possible, next),
            Command::Delete => silent_plain(alloc, command, possible, next),
        },
    }
}

/// Does the same for a command that does not look at an unknown stamp.
fn silent_plain(
    alloc: Global,
    command: &Command,
    possible: &Possible,
    next: &mut Vec<Possible>,
) -> Result<(), RunError>
    ensures { OnOk result (next.new.items ≡ fold added next.old.items (left_untold (verdict_on command.now possible.now.held) possible.now.held possible.now.named)) }
{
    let verdict = verdict_on(alloc, command, &possible.held)?;
    left_untold(alloc, verdict, &possible.held, &possible.named, next)
}

/// Adds the outcome of a write with a printed reply: it shows the stamp, which must be new.
fn write_told(
    alloc: Global,
    known: &Stamps,
    named: &Seq<Version>,
    content: Option<Value>,
    reply: &Reply,
    next: &mut Vec<Possible>,
) -> Result<(), RunError>
    ensures { OnOk result (next.new.items ≡ fold added next.old.items (write_told known.now named.now content reply.now)) }
{
    match reply {
        Reply::Ok(stamp) => {
            if !is_new(known, named, *stamp) {
                return Ok(());
            }
            let held = Guess::told(*stamp, content);
            let named = copy_stamps(alloc, named)?;
            add(next, Possible { held, named })
        }
        _ => Ok(()),
    }
}

fn left_told(
    alloc: Global,
    known: &Stamps,
    verdict: Verdict,
    reply: &Reply,
    possible: &Possible,
    next: &mut Vec<Possible>,
) -> Result<(), RunError>
    ensures { OnOk result (next.new.items ≡ fold added next.old.items (left_told known.now verdict reply.now possible.now.held possible.now.named)) }
{
    match verdict {
        Verdict::Answer(answer) => {
            if !same_reply(&answer, reply) {
                return Ok(());
            }
            stays(alloc, &possible.held, &possible.named, next)
        }
        Verdict::Write(content) => {
            write_told(alloc, known, &possible.named, content, reply, next)
        }
    }
}

/// Adds the outcome of a read of a value whose stamp is unknown: the printed reply shows it.
fn get_told(
    alloc: Global,
    known: &Stamps,
    named: &Seq<Version>,
    reply: &Reply,
    value: &Value,
    excluded: &Seq<Version>,
    next: &mut Vec<Possible>,
) -> Result<(), RunError>
    ensures { OnOk result (next.new.items ≡ fold added next.old.items (get_told known.now named.now reply.now value.now excluded.now)) }
{
    match reply {
        Reply::Value(stamp, shown) => {
            if shown != value || !may_be(known, named, excluded, *stamp) {
                return Ok(());
            }
            let held = Guess::Told(*stamp, value.copy(alloc)?);
            let named = copy_stamps(alloc, named)?;
            add(next, Possible { held, named })
        }
        _ => Ok(()),
    }
}

/// Returns the stamps with this one among them.
fn with_stamp(
    alloc: Global,
    stamps: &Seq<Version>,
    stamp: Version,
) -> Result<Seq<Version>, RunError>
    ensures { IfOk result (λ s. s ≡ with_stamp stamps.now stamp) }
{
    if has(stamps.as_slice(), stamp) {
        return copy_stamps(alloc, stamps);
    }
    and_stamp(alloc, stamps, stamp)
}

/// Adds the outcome of an update of a value whose stamp is unknown: if it took effect, the stamp
/// was the wanted one, and if it failed, it was not.
fn update_told(
    alloc: Global,
    known: &Stamps,
    named: &Seq<Version>,
    update: (Version, &Value),
    reply: &Reply,
    held: (&Value, &Seq<Version>),
    next: &mut Vec<Possible>,
) -> Result<(), RunError>
    ensures { OnOk result (next.new.items ≡ fold added next.old.items (update_told known.now named.now update.entry.0 update.entry.1.now reply.now held.entry.0.now held.entry.1.now)) }
{
    let (wanted, new) = update;
    let (value, excluded) = held;
    match reply {
        Reply::Ok(stamp) => {
            if !may_be(known, named, excluded, wanted)
                || !is_new(known, named, *stamp)
                || *stamp == wanted
            {
                return Ok(());
            }
            let held = Guess::Told(*stamp, new.copy(alloc)?);
            let named = copy_stamps(alloc, named)?;
            add(next, Possible { held, named })
        }
        Reply::Failed => {
            let value = value.copy(alloc)?;
            let held = Guess::Untold(value, with_stamp(alloc, excluded, wanted)?);
            let named = copy_stamps(alloc, named)?;
            add(next, Possible { held, named })
        }
        _ => Ok(()),
    }
}

/// Adds what a command with this printed reply leaves of one possible register.
fn answered(
    alloc: Global,
    known: &Stamps,
    command: &Command,
    reply: &Reply,
    possible: &Possible,
    next: &mut Vec<Possible>,
) -> Result<(), RunError>
    ensures { OnOk result (next.new.items ≡ fold added next.old.items (answered known.now possible.now.named possible.now.held command.now reply.now)) }
{
    match &possible.held {
        Guess::Absent => answered_plain(alloc, known, command, reply, possible, next),
        Guess::Told(_, _) => answered_plain(alloc, known, command, reply, possible, next),
        Guess::Untold(value, excluded) => match command {
            Command::Update(wanted, new) => update_told(
                alloc,
                known,
                &possible.named,
                (*wanted, new),
                reply,
                (value, excluded),
                next,
            ),
            Command::Get => get_told(alloc, known, &possible.named, reply, value, excluded, next),
            Command::PutOnce(_) => answered_plain(alloc, known, command, reply, possible, next),
            Command::Append(_) => answered_plain(alloc, known, command, reply, possible, next),
            Command::Add(_) => answered_plain(alloc, known, command, reply, possible, next),
            Command::Swap(_, _) => answered_plain(alloc, known, command, reply, possible, next),
            Command::Over(_) => answered_plain(alloc, known, command, reply, possible, next),
            Command::Delete => answered_plain(alloc, known, command, reply, possible, next),
        },
    }
}

/// Does the same for a command that does not look at an unknown stamp.
fn answered_plain(
    alloc: Global,
    known: &Stamps,
    command: &Command,
    reply: &Reply,
    possible: &Possible,
    next: &mut Vec<Possible>,
) -> Result<(), RunError>
    ensures { OnOk result (next.new.items ≡ fold added next.old.items (left_told known.now (verdict_on command.now possible.now.held) reply.now possible.now.held possible.now.named)) }
{
    let verdict = verdict_on(alloc, command, &possible.held)?;
    left_told(alloc, known, verdict, reply, possible, next)
}

/// Returns what a call without a printed reply leaves of the possible registers.
pub fn all_silent(
    alloc: Global,
    known: &Stamps,
    command: &Command,
    list: &[Possible],
) -> Result<Vec<Possible>, RunError>
    ensures { IfOk result (λ v. v.items ≡ all_silent known.now command.now list.now) }
{
    let mut next = Vec::new(alloc);
    for possible in list {
        silent(alloc, known, command, possible, &mut next)?;
    }
    Ok(next)
}

/// Returns what a call with this printed reply leaves of the possible registers.
pub fn all_answered(
    alloc: Global,
    known: &Stamps,
    command: &Command,
    reply: &Reply,
    list: &[Possible],
) -> Result<Vec<Possible>, RunError>
    ensures { IfOk result (λ v. v.items ≡ all_answered known.now command.now reply.now list.now) }
{
    let mut next = Vec::new(alloc);
    for possible in list {
        answered(alloc, known, command, reply, possible, &mut next)?;
    }
    Ok(next)
}

/// Notes the stamps that a printed reply shows.
pub fn learn(known: &mut Stamps, command: &Command, reply: &Reply) -> Result<(), RunError>
    ensures { OnOk result (known.new ≡ learned known.old command.now reply.now) }
{
    match reply {
        Reply::Ok(stamp) => {
            known.add(*stamp)?;
            learn_wanted(known, command)
        }
        Reply::Value(stamp, _) => known.add(*stamp),
        _ => Ok(()),
    }
}

/// Notes the stamp that an update found.
fn learn_wanted(known: &mut Stamps, command: &Command) -> Result<(), RunError>
    ensures { OnOk result (known.new ≡ with_wanted known.old command.now) }
{
    match command {
        Command::Update(wanted, _) => known.add(*wanted),
        _ => Ok(()),
    }
}
