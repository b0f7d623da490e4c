ghost use Rattle.std.specs.Prelude.{◌≡◌, ◌++◌, All, IfOk, OnOk, string_bytes};
ghost use Rattle.network.specs.Mail.{MayBeSent};
ghost use Rattle.trace.specs.Text.{message_line, name_words, trace_text};

use ens_base::push_bytes;
use message_labels::push_label;
use std::alloc::{AllocError, Global};
use wire_frames::{Frame, encode_frame};

/// Appends the label of the message, if names are asked for.
fn push_name(alloc: Global, text: &mut String, names: bool, frame: &Frame) -> Result<(), AllocError>
    ensures { OnOk result (string_bytes text.new ≡ string_bytes text.old ++ name_words names frame.now) }
{
    if !names {
        return Ok(());
    }
    text.push_str(" ")?;
    push_label(alloc, text, &frame.message)
}

fn push_message(
    alloc: Global,
    text: &mut String,
    names: bool,
    number: u64,
    frame: &Frame,
) -> Result<(), AllocError>
    requires { MayBeSent frame.now }
    ensures { OnOk result (string_bytes text.new ≡ string_bytes text.old ++ message_line names number frame.now) }
{
    let from = frame.from;
    let to = frame.to;
    let Ok(bytes) = encode_frame(alloc, frame) else {
        return Err(AllocError);
    };
    write!(text, "{number} {from} {to} ")?;
    push_bytes(alloc, text, &bytes)?;
    push_name(alloc, text, names, frame)?;
    text.push_str("\n")
}

/// Returns the lines of all messages, with names or without, in the order of sending.
pub fn write_trace(alloc: Global, names: bool, sent: &[Frame]) -> Result<String, AllocError>
    requires { All MayBeSent sent.now }
    ensures { IfOk result (λ text. string_bytes text ≡ trace_text names sent.now) }
{
    let mut text = String::new(alloc);
    let mut number = 0;
    for frame in sent {
        number += 1;
        push_message(alloc, &mut text, names, number, frame)?;
    }
    Ok(text)
}
