ghost use Rattle.std.specs.Prelude.{◌≡◌, ◌++◌, IfOk, OnOk, string_bytes};
ghost use Rattle.std.specs.List.{flat_map};
ghost use Rattle.history_scribe.specs.Text.{answer_line, change_line as line_of_change, history_line, next_id, printed_line, reply_words, taken_word as word_of_taken};

use ens_base::{PeerId, Reply, push_bytes, push_value};
use register_model::{Answer, History, Printed};
use std::alloc::{AllocError, Global};

/// Appends the words of a reply. Fails when out of memory.
pub fn push_reply(alloc: Global, text: &mut String, reply: &Reply) -> Result<(), AllocError>
    ensures { OnOk result (string_bytes text.new ≡ string_bytes text.old ++ reply_words reply.now) }
{
    match reply {
        Reply::Value(stamp, value) => {
            write!(text, "value {stamp} ")?;
            push_value(alloc, text, value.bytes())
        }
        Reply::NotFound => text.push_str("notfound"),
        Reply::Ok(stamp) => write!(text, "ok {stamp}"),
        Reply::Failed => text.push_str("failed"),
        Reply::Unavailable => text.push_str("unavailable"),
        Reply::Busy => text.push_str("busy"),
        Reply::Lost => text.push_str("lost"),
        Reply::Timeout => text.push_str("timeout"),
    }
}

fn push_answer(alloc: Global, text: &mut String, answer: &Answer) -> Result<(), AllocError>
    ensures { OnOk result (string_bytes text.new ≡ string_bytes text.old ++ answer_line answer.now) }
{
    let id = answer.id;
    let event = answer.event;
    write!(text, "answer {id} {event} ")?;
    push_reply(alloc, text, &answer.reply)?;
    text.push_str("\n")
}

fn push_ids(text: &mut String, ids: &[u64]) -> Result<(), AllocError>
    ensures { OnOk result (string_bytes text.new ≡ string_bytes text.old ++ flat_map next_id ids.now) }
{
    for id in ids {
        write!(text, " {id}")?;
    }
    Ok(())
}

fn push_history(alloc: Global, text: &mut String, history: &History) -> Result<(), AllocError>
    ensures { OnOk result (string_bytes text.new ≡ string_bytes text.old ++ history_line history.now) }
{
    text.push_str("history ")?;
    push_bytes(alloc, text, history.key.bytes())?;
    push_ids(text, history.calls.as_slice())?;
    text.push_str("\n")
}

fn push_histories(alloc: Global, text: &mut String, histories: &[History]) -> Result<(), AllocError>
    ensures { OnOk result (string_bytes text.new ≡ string_bytes text.old ++ flat_map history_line histories.now) }
{
    for history in histories {
        push_history(alloc, text, history)?;
    }
    Ok(())
}

fn taken_word(taken: bool) -> &'static str
    ensures { result.now ≡ word_of_taken taken }
{
    if taken { "taken" } else { "refused" }
}

fn push_change(text: &mut String, event: u64, peer: PeerId, taken: bool) -> Result<(), AllocError>
    ensures { OnOk result (string_bytes text.new ≡ string_bytes text.old ++ line_of_change event peer taken) }
{
    let peer = peer.0;
    let word = taken_word(taken);
    write!(text, "change {event} {peer} {word}\n")
}

fn push_printed(alloc: Global, text: &mut String, line: &Printed) -> Result<(), AllocError>
    ensures { OnOk result (string_bytes text.new ≡ string_bytes text.old ++ printed_line line.now) }
{
    match line {
        Printed::Answer(answer) => push_answer(alloc, text, answer),
        Printed::Change { event, peer, taken } => push_change(text, *event, *peer, *taken),
    }
}

/// Returns the text of what a run printed, a line each in order, followed by a line for each history.
/// Fails when out of memory.
pub fn write_text(
    alloc: Global,
    printed: &[Printed],
    histories: &[History],
) -> Result<String, AllocError>
    ensures { IfOk result (λ text. string_bytes text ≡ flat_map printed_line printed.now ++ flat_map history_line histories.now) }
{
    let mut text = String::new(alloc);
    for line in printed {
        push_printed(alloc, &mut text, line)?;
    }
    push_histories(alloc, &mut text, histories)?;
    Ok(text)
}
