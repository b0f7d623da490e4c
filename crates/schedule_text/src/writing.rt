ghost use Rattle.std.specs.Prelude.{◌≡◌, ◌++◌, ◌∷◌, [], map, OnOk, IfOk, IfErr, string_bytes};
ghost use Rattle.std.specs.Fmt.{decimal};
ghost use Rattle.ens_base.specs.Words.{bytes_word, value_word, version_word};
ghost use Rattle.lexemes.specs.Spelling.{content_word, member_words};
ghost use Rattle.schedule_text.specs.Spelling.{name_of, operand_words, argument_words, event_line, peers_line, view_line, schedule_text, IsSchedule};
ghost use Rattle.schedule_text.specs.Forms.{ensemble_line};
ghost use Rattle.schedule_text.specs.Reading.{schedule_of};
ghost use Rattle.schedule_text.specs.declared.event.ScheduleEvent.TheVariants.{Call, Change, Inner, Fail};
ghost use Rattle.schedule_text.specs.Writing.{spaced, feeds};

use crate::error::ScheduleError;
use crate::event::ScheduleEvent;
use crate::form::Form;
use crate::keyword::{CommandName, StoreName, Survivor};
use crate::schedule::Schedule;
use ens_base::{Bytes, Command, Key, PeerId, Version, View, push_bytes, push_value};
use std::alloc::{AllocError, Global};

// A space and a number.
fn push_number(out: &mut String, number: u64) -> Result<(), AllocError>
    ensures { OnOk result (string_bytes out.new ≡ string_bytes out.old ++ (32 ∷ decimal number)) }
{
    write!(out, " {number}")
}

// A space and a word of fixed letters.
fn push_word(out: &mut String, word: &str) -> Result<(), AllocError>
    ensures { OnOk result (string_bytes out.new ≡ string_bytes out.old ++ (32 ∷ word.now)) }
{
    write!(out, " {word}")
}

// A space and a version.
fn push_version(out: &mut String, version: Version) -> Result<(), AllocError>
    ensures { OnOk result (string_bytes out.new ≡ string_bytes out.old ++ (32 ∷ version_word version)) }
{
    write!(out, " {version}")
}

// A space and a key.
fn push_key(alloc: Global, out: &mut String, key: &Key) -> Result<(), AllocError>
    ensures { OnOk result (string_bytes out.new ≡ string_bytes out.old ++ (32 ∷ bytes_word key.now)) }
{
    out.push_str(" ")?;
    push_bytes(alloc, out, key.bytes())
}

// A space and a value.
fn push_value_word(alloc: Global, out: &mut String, value: &[u8]) -> Result<(), AllocError>
    ensures { OnOk result (string_bytes out.new ≡ string_bytes out.old ++ (32 ∷ value_word value.now)) }
{
    out.push_str(" ")?;
    push_value(alloc, out, value)
}

// A space and what a store is to hold.
fn push_content(alloc: Global, out: &mut String, bytes: &Option<Bytes>) -> Result<(), AllocError>
    ensures { OnOk result (string_bytes out.new ≡ string_bytes out.old ++ (32 ∷ content_word bytes.now)) }
{
    match bytes {
        Some(bytes) => {
            out.push_str(" ")?;
            push_bytes(alloc, out, bytes.as_slice())
        }
        None => out.push_str(" -"),
    }
}

// A space and a peer.
fn push_peer(out: &mut String, peer: PeerId) -> Result<(), AllocError>
    ensures { OnOk result (string_bytes out.new ≡ string_bytes out.old ++ (32 ∷ decimal peer)) }
{
    push_number(out, u64::from(peer.number()))
}

// The members, each behind a space.
fn push_members(out: &mut String, members: &[PeerId]) -> Result<(), AllocError>
    ensures { OnOk result (string_bytes out.new ≡ string_bytes out.old ++ spaced (member_words members.now)) }
{
    for member in members {
        push_peer(out, *member)?;
    }
    Ok(())
}

// The members of the view, each behind a space.
fn push_members_of(out: &mut String, view: &View) -> Result<(), AllocError>
    ensures { OnOk result (string_bytes out.new ≡ string_bytes out.old ++ spaced (member_words view.now)) }
{
    for member in view.members() {
        push_number(out, u64::from(*member))?;
    }
    Ok(())
}

// The words of a command behind its key, each behind a space.
fn push_operands(alloc: Global, out: &mut String, command: &Command) -> Result<(), AllocError>
    ensures { OnOk result (string_bytes out.new ≡ string_bytes out.old ++ spaced (operand_words command.now)) }
{
    match command {
        Command::Get | Command::Delete => Ok(()),
        Command::PutOnce(value) => push_value_word(alloc, out, value.bytes()),
        Command::Update(stamp, value) => {
            push_version(out, *stamp)?;
            push_value_word(alloc, out, value.bytes())
        }
        Command::Append(tail) => push_value_word(alloc, out, tail.bytes()),
        Command::Add(amount) => push_number(out, *amount),
        Command::Swap(old, new) => {
            push_value_word(alloc, out, old.bytes())?;
            push_value_word(alloc, out, new.bytes())
        }
        Command::Over(value) => push_value_word(alloc, out, value.bytes()),
    }
}

fn command_name(command: &Command) -> CommandName
    ensures { result ≡ name_of command.now }
{
    match command {
        Command::Get => CommandName::Get,
        Command::PutOnce(_) => CommandName::Once,
        Command::Update(_, _) => CommandName::Update,
        Command::Append(_) => CommandName::Append,
        Command::Add(_) => CommandName::Add,
        Command::Swap(_, _) => CommandName::Swap,
        Command::Over(_) => CommandName::Over,
        Command::Delete => CommandName::Delete,
    }
}

// The words of a call behind its keyword, each behind a space.
fn push_call(
    alloc: Global,
    out: &mut String,
    peer: PeerId,
    id: u64,
    key: &Key,
    command: &Command,
) -> Result<(), AllocError>
    ensures { OnOk result (string_bytes out.new ≡ string_bytes out.old ++ spaced (argument_words (Call peer id key.now command.now))) }
{
    push_peer(out, peer)?;
    push_number(out, id)?;
    push_word(out, command_name(command).word())?;
    push_key(alloc, out, key)?;
    push_operands(alloc, out, command)
}

// A peer and a number, each behind a space.
fn push_count(out: &mut String, peer: PeerId, count: u32) -> Result<(), AllocError>
    ensures { OnOk result (string_bytes out.new ≡ string_bytes out.old ++ spaced (decimal peer ∷ decimal count ∷ [])) }
{
    push_peer(out, peer)?;
    push_number(out, u64::from(count))
}

// Two peers, each behind a space.
fn push_pair(out: &mut String, sender: PeerId, receiver: PeerId) -> Result<(), AllocError>
    ensures { OnOk result (string_bytes out.new ≡ string_bytes out.old ++ spaced (decimal sender ∷ decimal receiver ∷ [])) }
{
    push_peer(out, sender)?;
    push_peer(out, receiver)
}

// A peer, a key and what a store is to hold, each behind a space.
fn push_placed(
    alloc: Global,
    out: &mut String,
    peer: PeerId,
    key: &Key,
    bytes: &Option<Bytes>,
) -> Result<(), AllocError>
    ensures { OnOk result (string_bytes out.new ≡ string_bytes out.old ++ spaced (decimal peer ∷ bytes_word key.now ∷ content_word bytes.now ∷ [])) }
{
    push_peer(out, peer)?;
    push_key(alloc, out, key)?;
    push_content(alloc, out, bytes)
}

// The words of an inner node behind its keyword, each behind a space.
fn push_inner(
    alloc: Global,
    out: &mut String,
    peer: PeerId,
    level: u8,
    index: u32,
    bytes: &Option<Bytes>,
) -> Result<(), AllocError>
    ensures { OnOk result (string_bytes out.new ≡ string_bytes out.old ++ spaced (argument_words (Inner peer level index bytes.now))) }
{
    push_peer(out, peer)?;
    push_number(out, u64::from(level))?;
    push_number(out, u64::from(index))?;
    push_content(alloc, out, bytes)
}

// The words of a store that is to fail behind its keyword, each behind a space.
fn push_fail(
    out: &mut String,
    peer: PeerId,
    store: StoreName,
    survivor: Survivor,
) -> Result<(), AllocError>
    ensures { OnOk result (string_bytes out.new ≡ string_bytes out.old ++ spaced (argument_words (Fail peer store survivor))) }
{
    push_peer(out, peer)?;
    push_word(out, store.word())?;
    push_word(out, survivor.word())
}

// The words of a change of view behind its keyword, each behind a space.
fn push_change(out: &mut String, peer: PeerId, view: &View) -> Result<(), AllocError>
    ensures { OnOk result (string_bytes out.new ≡ string_bytes out.old ++ spaced (argument_words (Change peer view.now))) }
{
    push_peer(out, peer)?;
    push_members_of(out, view)
}

// The words of an event behind its keyword, each behind a space.
fn push_arguments(alloc: Global, out: &mut String, event: &ScheduleEvent) -> Result<(), AllocError>
    ensures { OnOk result (string_bytes out.new ≡ string_bytes out.old ++ spaced (argument_words event.now)) }
{
    match event {
        ScheduleEvent::Call {
            peer,
            id,
            key,
            command,
        } => push_call(alloc, out, *peer, *id, key, command),
        ScheduleEvent::Tick { peer, ticks } => push_count(out, *peer, *ticks),
        ScheduleEvent::Deliver { message } => push_number(out, *message),
        ScheduleEvent::Pass { sender, receiver } | ScheduleEvent::Lose { sender, receiver } => {
            push_pair(out, *sender, *receiver)
        }
        ScheduleEvent::Calm | ScheduleEvent::Deepen => Ok(()),
        ScheduleEvent::CalmAmong { members } => push_members(out, members.as_slice()),
        ScheduleEvent::Change { peer, view } => push_change(out, *peer, view),
        ScheduleEvent::Stop { peer }
        | ScheduleEvent::Start { peer }
        | ScheduleEvent::Upgrade { peer } => push_peer(out, *peer),
        ScheduleEvent::Spoil { peer, key, bytes } | ScheduleEvent::Damage { peer, key, bytes } => {
            push_placed(alloc, out, *peer, key, bytes)
        }
        ScheduleEvent::Inner {
            peer,
            level,
            index,
            bytes,
        } => push_inner(alloc, out, *peer, *level, *index, bytes),
        ScheduleEvent::Revert { peer, changes } => push_count(out, *peer, *changes),
        ScheduleEvent::Fail {
            peer,
            store,
            survivor,
        } => push_fail(out, *peer, *store, *survivor),
    }
}

/// Appends the line of an event, without its line feed.
pub fn push_event(alloc: Global, out: &mut String, event: &ScheduleEvent) -> Result<(), AllocError>
    ensures { OnOk result (string_bytes out.new ≡ string_bytes out.old ++ event_line event.now) }
{
    out.push_str(event.keyword().word())?;
    push_arguments(alloc, out, event)
}

// The line of the number of peers.
fn push_peers(out: &mut String, peers: u32) -> Result<(), AllocError>
    ensures { OnOk result (string_bytes out.new ≡ string_bytes out.old ++ peers_line peers) }
{
    write!(out, "peers {peers}")
}

// The line of the view that the peers open with.
#[tactic(auto, using(crate::proofs::Spaced::append_join))]
fn push_view(out: &mut String, view: &View) -> Result<(), AllocError>
    ensures { OnOk result (string_bytes out.new ≡ string_bytes out.old ++ view_line view.now) }
{
    out.push_str("view")?;
    push_members_of(out, view)
}

// The three lines of the heading.
fn push_heading(out: &mut String, form: Form, peers: u32, view: &View) -> Result<(), AllocError>
    ensures { OnOk result (string_bytes out.new ≡ string_bytes out.old ++ feeds (ensemble_line form ∷ peers_line peers ∷ view_line view.now ∷ [])) }
{
    out.push_str(form.line())?;
    out.push_str("\n")?;
    push_peers(out, peers)?;
    out.push_str("\n")?;
    push_view(out, view)?;
    out.push_str("\n")?;
    Ok(())
}

// The events, a line each.
fn push_events(alloc: Global, out: &mut String, events: &[ScheduleEvent]) -> Result<(), AllocError>
    ensures { OnOk result (string_bytes out.new ≡ string_bytes out.old ++ feeds (map event_line events.now)) }
{
    for event in events {
        push_event(alloc, out, event)?;
        out.push_str("\n")?;
    }
    Ok(())
}

/// The text of a schedule.
pub(crate) fn text_of(alloc: Global, schedule: &Schedule) -> Result<Vec<u8>, AllocError>
    ensures { IfOk result (λ v. v.items ≡ schedule_text schedule.now) }
{
    let mut out = String::new(alloc);
    push_heading(&mut out, schedule.form, schedule.peers, &schedule.view)?;
    push_events(alloc, &mut out, schedule.events.as_slice())?;
    Ok(out.into_bytes())
}

/// Returns the text of a schedule, which is read as the same schedule.
pub fn write_schedule(alloc: Global, schedule: &Schedule) -> Result<Vec<u8>, ScheduleError>
    ensures text { IfOk result (λ v. v.items ≡ schedule_text schedule.now) }
    ensures again { IfOk result (λ v. IsSchedule schedule.now → schedule_of v.items ≡ Ok schedule.now) }
    ensures memory { IfErr result (λ e. e ≡ ScheduleError.Memory) }
{
    match text_of(alloc, schedule) {
        Ok(text) => Ok(text),
        Err(_) => Err(ScheduleError::Memory),
    }
}
