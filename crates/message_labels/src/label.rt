ghost use Rattle.std.specs.Prelude.{◌≡◌, ◌++◌, OnOk, codes, string_bytes};
ghost use Rattle.std.specs.Fmt.{decimal};
ghost use Rattle.ens_base.specs.Words.{bytes_word, epoch_word, version_word};
ghost use Rattle.wire_frames.specs.declared.message.Message.TheVariants.{Nack};
ghost use Rattle.message_labels.specs.Labels.{cause_words, found_word, label, position_word, trust_words};

use ens_base::{Entry, Epoch, Key, Version, push_bytes};
use history_scribe::push_reply;
use std::alloc::{AllocError, Global};
use tree_node::Position;
use wire_frames::{Message, NackCause};

fn push_epoch(text: &mut String, name: &str, epoch: Epoch) -> Result<(), AllocError>
    ensures { OnOk result (string_bytes text.new ≡ string_bytes text.old ++ name.now ++ codes " " ++ epoch_word epoch) }
{
    write!(text, "{name} {epoch}")
}

fn push_key(alloc: Global, text: &mut String, name: &str, key: &Key) -> Result<(), AllocError>
    ensures { OnOk result (string_bytes text.new ≡ string_bytes text.old ++ name.now ++ codes " " ++ bytes_word key.now) }
{
    write!(text, "{name} ")?;
    push_bytes(alloc, text, key.bytes())
}

fn push_version(
    alloc: Global,
    text: &mut String,
    name: &str,
    key: &Key,
    version: Version,
) -> Result<(), AllocError>
    ensures { OnOk result (string_bytes text.new ≡ string_bytes text.old ++ name.now ++ codes " " ++ bytes_word key.now ++ codes " " ++ version_word version) }
{
    push_key(alloc, text, name, key)?;
    write!(text, " {version}")
}

fn push_position(text: &mut String, position: Position) -> Result<(), AllocError>
    ensures { OnOk result (string_bytes text.new ≡ string_bytes text.old ++ position_word position) }
{
    let level = position.level;
    let index = position.index;
    write!(text, "{level}/{index}")
}

fn push_found(text: &mut String, entry: &Option<Entry>) -> Result<(), AllocError>
    ensures { OnOk result (string_bytes text.new ≡ string_bytes text.old ++ found_word entry.now) }
{
    match entry {
        None => text.push_str("nothing"),
        Some(entry) => {
            let version = entry.version;
            write!(text, "{version}")
        }
    }
}

fn push_cause(text: &mut String, cause: NackCause) -> Result<(), AllocError>
    ensures { OnOk result (string_bytes text.new ≡ string_bytes text.old ++ cause_words cause) }
{
    match cause {
        NackCause::Greater(ballot) => write!(text, "promised {ballot}"),
        NackCause::Untrusted => text.push_str("untrusted"),
        NackCause::Damaged(position) => {
            text.push_str("damaged ")?;
            push_position(text, position)
        }
    }
}

fn push_nack(text: &mut String, ballot: Epoch, cause: NackCause) -> Result<(), AllocError>
    ensures { OnOk result (string_bytes text.new ≡ string_bytes text.old ++ label (Nack ballot cause)) }
{
    push_epoch(text, "Nack", ballot)?;
    text.push_str(", ")?;
    push_cause(text, cause)
}

fn push_node(
    text: &mut String,
    name: &str,
    epoch: Epoch,
    position: Position,
) -> Result<(), AllocError>
    ensures { OnOk result (string_bytes text.new ≡ string_bytes text.old ++ name.now ++ codes " " ++ epoch_word epoch ++ codes " " ++ position_word position) }
{
    write!(text, "{name} {epoch} ")?;
    push_position(text, position)
}

fn trust_word(trusted: bool) -> &'static str
    ensures { result.now ≡ trust_words trusted }
{
    if trusted { "" } else { ", untrusted" }
}

fn push_call(alloc: Global, text: &mut String, number: u64, key: &Key) -> Result<(), AllocError>
    ensures { OnOk result (string_bytes text.new ≡ string_bytes text.old ++ codes "Call " ++ decimal number ++ codes " " ++ bytes_word key.now) }
{
    write!(text, "Call {number} ")?;
    push_bytes(alloc, text, key.bytes())
}

/// Appends the label of a message. Fails when out of memory.
pub fn push_label(alloc: Global, text: &mut String, message: &Message) -> Result<(), AllocError>
    ensures { OnOk result (string_bytes text.new ≡ string_bytes text.old ++ label message.now) }
{
    match message {
        Message::Probe => text.push_str("Probe"),
        Message::ProbeReply(fact) => push_epoch(text, "ProbeReply", fact.epoch),
        Message::Prepare(ballot) => push_epoch(text, "Prepare", *ballot),
        Message::Promise(ballot, _) => push_epoch(text, "Promise", *ballot),
        Message::Nack(ballot, cause) => push_nack(text, *ballot, *cause),
        Message::NewEpoch(fact) => push_epoch(text, "NewEpoch", fact.epoch),
        Message::Accepted(epoch, seq) => write!(text, "Accepted {epoch}, {seq}"),
        Message::Get(_, _, key) => push_key(alloc, text, "Get", key),
        Message::GetReply(_, _, key, entry, _) => {
            push_key(alloc, text, "GetReply", key)?;
            text.push_str(" ")?;
            push_found(text, entry)
        }
        Message::Put(_, object) => { push_version(alloc, text, "Put", &object.key, object.version) }
        Message::PutReply(_, key, version) => {
            push_version(alloc, text, "PutReply", key, *version)
        }
        Message::Check(epoch, _) => push_epoch(text, "Check", *epoch),
        Message::CheckReply(epoch, _) => push_epoch(text, "CheckReply", *epoch),
        Message::TreeAsk(epoch, position, _) => push_node(text, "TreeAsk", *epoch, *position),
        Message::TreeGive(epoch, position, _, trusted, _) => {
            push_node(text, "TreeGive", *epoch, *position)?;
            text.push_str(trust_word(*trusted))
        }
        Message::Commit(fact) => push_epoch(text, "Commit", fact.epoch),
        Message::Beat(epoch) => push_epoch(text, "Beat", *epoch),
        Message::CallFrame(number, key, _) => push_call(alloc, text, *number, key),
        Message::AnswerFrame(number, reply) => {
            write!(text, "Answer {number} ")?;
            push_reply(alloc, text, reply)
        }
    }
}
