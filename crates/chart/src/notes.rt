ghost use Rattle.std.specs.Prelude.{◌≡◌, ◌++◌, IfOk, OnOk, codes, string_bytes};
ghost use Rattle.std.specs.Fmt.{decimal};
ghost use Rattle.chart.specs.Notes.{activity_word as word_of_activity, arrow_line as line_of_arrow, head as head_of, peer_of as subject_of, printed_words, taken_words};

use crate::fate::Fate;
use ens_base::PeerId;
use history_scribe::push_reply;
use message_labels::push_label;
use register_model::Printed;
use schedule_text::ScheduleEvent;
use std::alloc::{AllocError, Global};
use wire_frames::Frame;
use world_model::Activity;

fn head(fate: Fate) -> &'static str
    ensures { result.now ≡ head_of fate }
{
    match fate {
        Fate::Taken => "->>",
        Fate::Missed => "-x",
        Fate::Waiting => "--)",
    }
}

/// Returns the arrow of a message.
pub fn arrow_line(alloc: Global, fate: Fate, frame: &Frame) -> Result<String, AllocError>
    ensures { IfOk result (λ text. string_bytes text ≡ line_of_arrow fate frame.now) }
{
    let from = frame.from;
    let to = frame.to;
    let head = head(fate);
    let mut text = String::new(alloc);
    write!(text, "{from}{head}{to}: ")?;
    push_label(alloc, &mut text, &frame.message)?;
    Ok(text)
}

/// Returns the beginning of a note over a peer.
pub fn note_over(alloc: Global, peer: PeerId) -> Result<String, AllocError>
    ensures { IfOk result (λ text. string_bytes text ≡ codes "Note over " ++ decimal peer ++ codes ": ") }
{
    let peer = peer.0;
    let mut text = String::new(alloc);
    write!(text, "Note over {peer}: ")?;
    Ok(text)
}

/// Returns the peer that a line of a schedule is about, if it is about one.
pub fn peer_of(event: &ScheduleEvent) -> Option<PeerId>
    ensures { result ≡ subject_of event.now }
{
    match event {
        ScheduleEvent::Call { peer, .. } => Some(*peer),
        ScheduleEvent::Tick { peer, .. } => Some(*peer),
        ScheduleEvent::Change { peer, .. } => Some(*peer),
        ScheduleEvent::Stop { peer } => Some(*peer),
        ScheduleEvent::Start { peer } => Some(*peer),
        ScheduleEvent::Upgrade { peer } => Some(*peer),
        ScheduleEvent::Spoil { peer, .. } => Some(*peer),
        ScheduleEvent::Damage { peer, .. } => Some(*peer),
        ScheduleEvent::Inner { peer, .. } => Some(*peer),
        ScheduleEvent::Revert { peer, .. } => Some(*peer),
        ScheduleEvent::Fail { peer, .. } => Some(*peer),
        ScheduleEvent::Deliver { .. } => None,
        ScheduleEvent::Pass { .. } => None,
        ScheduleEvent::Lose { .. } => None,
        ScheduleEvent::Calm => None,
        ScheduleEvent::CalmAmong { .. } => None,
        ScheduleEvent::Deepen => None,
    }
}

fn taken_word(taken: bool) -> &'static str
    ensures { result.now ≡ taken_words taken }
{
    if taken {
        "change taken"
    } else {
        "change refused"
    }
}

/// Appends the words of an answer, or of a reply to a request to change the view.
pub fn push_printed(alloc: Global, text: &mut String, line: &Printed) -> Result<(), AllocError>
    ensures { OnOk result (string_bytes text.new ≡ string_bytes text.old ++ printed_words line.now) }
{
    match line {
        Printed::Answer(answer) => {
            let id = answer.id;
            write!(text, "answer {id} ")?;
            push_reply(alloc, text, &answer.reply)
        }
        Printed::Change { taken, .. } => text.push_str(taken_word(*taken)),
    }
}

/// Returns the word for what a peer is doing.
pub fn activity_word(activity: Activity) -> &'static str
    ensures { result.now ≡ word_of_activity activity }
{
    match activity {
        Activity::Down => "down",
        Activity::Following => "following",
        Activity::Probing => "probing",
        Activity::Preparing => "preparing",
        Activity::Starting => "starting",
        Activity::Leading => "leading",
    }
}
