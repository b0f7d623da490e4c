ghost use Rattle.std.specs.Prelude.{◌≡◌, ◌∷◌, [], All, map, true};
ghost use Rattle.ens_base.specs.View.{IsPeer};
ghost use Rattle.peer_turns.specs.Sending.{SendsInOrder};
ghost use Rattle.peer_turns.specs.PeerSpec.{AllMayGo, MaySend};
ghost use Rattle.step_plans.specs.Outboxes.{out_of};
ghost use Rattle.peer_turns.specs.Ends.{AllTo};
ghost use Rattle.peer_turns.specs.Deeds.{answer_frame, frames_of, message_frame};
ghost use Rattle.peer_turns.specs.Turns.{is_client};
ghost use Rattle.wire_frames.specs.Frames.{IsEnd, frame_spelling};
ghost use Rattle.wire_frames.specs.Messages.{Obeys};

use ens_base::PeerId;
use environment::{Link, LinkError};
use leader_output::{AnswerOut, Outgoing};
use std::alloc::Global;
use step_plans::Outbox;
use wire_frames::{Frame, Message, encode_frame};

/// Sends one frame to the number that it names.
fn send<L: Link>(alloc: Global, link: &mut L, frame: &Frame) -> Result<(), LinkError>
    requires from { IsEnd frame.now.from }
    requires to { IsEnd frame.now.to }
    requires message { Obeys frame.now.message }
    ensures { SendsInOrder L.sent L.given L.fault_count ((frame.now.to, frame_spelling frame.now) ∷ []) link.old link.new result }
{
    let Ok(bytes) = encode_frame(alloc, frame) else {
        return Err(LinkError::Memory);
    };
    link.send(alloc, frame.to, &bytes)
}

/// Sends a message as the peer `me`.
fn send_message<L: Link>(
    alloc: Global,
    me: PeerId,
    link: &mut L,
    outgoing: Outgoing,
) -> Result<(), LinkError>
    requires me { IsPeer me }
    requires may { MaySend me outgoing }
    ensures { SendsInOrder L.sent L.given L.fault_count (message_frame me outgoing ∷ []) link.old link.new result }
{
    let Outgoing { to, message } = outgoing;
    let frame = Frame {
        from: me.0,
        to: to.0,
        message,
    };
    send(alloc, link, &frame)
}

/// Sends messages in their order.
fn send_messages<L: Link>(
    alloc: Global,
    me: PeerId,
    link: &mut L,
    messages: Vec<Outgoing>,
) -> Result<(), LinkError>
    requires me { IsPeer me }
    requires may { All (MaySend me) messages.items }
    ensures { SendsInOrder L.sent L.given L.fault_count (map (message_frame me) messages.items) link.old link.new result }
{
    for outgoing in messages {
        send_message(alloc, me, link, outgoing)?;
    }
    Ok(())
}

/// Sends an answer to the client that called.
fn send_answer<L: Link>(
    alloc: Global,
    me: PeerId,
    link: &mut L,
    answer: AnswerOut,
) -> Result<(), LinkError>
    requires me { IsPeer me }
    requires client { is_client answer.caller ≡ true }
    ensures { SendsInOrder L.sent L.given L.fault_count (answer_frame me answer ∷ []) link.old link.new result }
{
    let AnswerOut { caller, id, reply } = answer;
    let frame = Frame {
        from: me.0,
        to: caller,
        message: Message::AnswerFrame(id, reply),
    };
    send(alloc, link, &frame)
}

/// Sends answers in their order.
fn send_answers<L: Link>(
    alloc: Global,
    me: PeerId,
    link: &mut L,
    answers: Vec<AnswerOut>,
) -> Result<(), LinkError>
    requires me { IsPeer me }
    requires clients { AllTo is_client answers.items }
    ensures { SendsInOrder L.sent L.given L.fault_count (map (answer_frame me) answers.items) link.old link.new result }
{
    for answer in answers {
        send_answer(alloc, me, link, answer)?;
    }
    Ok(())
}

/// Sends what a step put out, its messages in their order and then its answers, each to the number that
/// its frame names as the receiver.
///
/// # Errors
///
/// `Failed` only if the fault count of the link rose, and `Memory` when out of memory. A prefix of the
/// frames was sent, and at least one was not.
pub fn send_out<L: Link>(
    alloc: Global,
    me: PeerId,
    link: &mut L,
    out: Outbox,
) -> Result<(), LinkError>
    requires me { IsPeer me }
    requires may { AllMayGo me (out_of out) }
    requires clients { AllTo is_client out.answers.items }
    ensures { SendsInOrder L.sent L.given L.fault_count (frames_of me (out_of out)) link.old link.new result }
{
    let Outbox {
        sends,
        answers,
        notes: _notes,
        changes: _changes,
    } = out;
    send_messages(alloc, me, link, sends)?;
    send_answers(alloc, me, link, answers)
}
