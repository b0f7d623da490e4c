ghost use Rattle.std.specs.Prelude.{◌≡◌, ◌++◌, OnOk, string_bytes};
ghost use Rattle.std.specs.List.{flat_map};
ghost use Rattle.history_scribe.specs.Text.{answer_line, next_id, taken_word as word_of_taken};
ghost use Rattle.scripts.specs.Spelling.{ensemble_word};
ghost use Rattle.register_model.specs.declared.answer.Answer.{Answer};
ghost use Rattle.register_model.specs.declared.printed.Printed.TheVariants as printed;
ghost use Rattle.root_laws.specs.Text.{line_by};
ghost use Rattle.root.specs.Standing.{line_at};
ghost use Rattle.root.specs.Slots.{slot_history_line};

use ens_base::{PeerId, Reply};
use history_scribe::push_reply;
use register_model::{History, Printed};
use scripts::Ensemble;
use std::alloc::{AllocError, Global};

/// Appends an answer.
pub(crate) fn push_answer(
    alloc: Global,
    text: &mut String,
    id: u64,
    number: u32,
    reply: &Reply,
) -> Result<(), AllocError>
    ensures { OnOk result (string_bytes text.new ≡ string_bytes text.old ++ answer_line (record { id = id; event = number; reply = reply.now })) }
{
    write!(text, "answer {id} {number} ")?;
    push_reply(alloc, text, reply)?;
    text.push_str("\n")
}

/// Appends the word of an ensemble.
fn push_ensemble(text: &mut String, ensemble: Ensemble) -> Result<(), AllocError>
    ensures { OnOk result (string_bytes text.new ≡ string_bytes text.old ++ ensemble_word ensemble) }
{
    match ensemble {
        Ensemble::Root => text.push_str("r"),
        Ensemble::Slot(slot) => write!(text, "{slot}"),
    }
}

fn taken_word(taken: bool) -> &'static str
    ensures { result.now ≡ word_of_taken taken }
{
    if taken { "taken" } else { "refused" }
}

fn push_change(
    text: &mut String,
    ensemble: Ensemble,
    number: u32,
    peer: PeerId,
    taken: bool,
) -> Result<(), AllocError>
    ensures { OnOk result (string_bytes text.new ≡ string_bytes text.old ++ line_by ensemble (printed.Change number peer taken)) }
{
    let peer = peer.0;
    let word = taken_word(taken);
    text.push_str("change ")?;
    push_ensemble(text, ensemble)?;
    write!(text, " {number} {peer} {word}\n")
}

/// Appends a line that an ensemble printed in the event of this number in the script.
fn push_printed(
    alloc: Global,
    text: &mut String,
    ensemble: Ensemble,
    number: u32,
    line: &Printed,
) -> Result<(), AllocError>
    ensures { OnOk result (string_bytes text.new ≡ string_bytes text.old ++ line_at number ensemble line.now) }
{
    match line {
        Printed::Answer(answer) => push_answer(alloc, text, answer.id, number, &answer.reply),
        Printed::Change { peer, taken, .. } => push_change(text, ensemble, number, *peer, *taken),
    }
}

/// Appends the lines that an ensemble printed in the event of this number in the script.
pub(crate) fn push_lines(
    alloc: Global,
    text: &mut String,
    ensemble: Ensemble,
    number: u32,
    lines: &[Printed],
) -> Result<(), AllocError>
    ensures { OnOk result (string_bytes text.new ≡ string_bytes text.old ++ flat_map (line_at number ensemble) lines.now) }
{
    for line in lines {
        push_printed(alloc, text, ensemble, number, line)?;
    }
    Ok(())
}

/// Appends the ids of a history, each behind a space.
fn push_ids(text: &mut String, ids: &[u64]) -> Result<(), AllocError>
    ensures { OnOk result (string_bytes text.new ≡ string_bytes text.old ++ flat_map next_id ids.now) }
{
    for id in ids {
        write!(text, " {id}")?;
    }
    Ok(())
}

/// Appends a line for the history of a slot, which is that of its key in the root, and nothing for another key.
fn push_slot(text: &mut String, history: &History) -> Result<(), AllocError>
    ensures { OnOk result (string_bytes text.new ≡ string_bytes text.old ++ slot_history_line history.now.key history.now.calls) }
{
    match history.key.bytes() {
        [slot] => {
            write!(text, "slot {slot}")?;
            push_ids(text, history.calls.as_slice())?;
            text.push_str("\n")
        }
        _ => Ok(()),
    }
}

/// Appends a line for the history of each slot.
pub(crate) fn push_slots(text: &mut String, histories: &[History]) -> Result<(), AllocError>
    ensures { OnOk result (string_bytes text.new ≡ string_bytes text.old ++ flat_map (λ h. slot_history_line h.key h.calls) histories.now) }
{
    for history in histories {
        push_slot(text, history)?;
    }
    Ok(())
}
