ghost use Rattle.std.specs.Prelude.{◌≡◌, ◌++◌, OnOk, map, string_bytes};

use crate::fate::Fate;
use crate::notes::{activity_word, arrow_line, note_over, peer_of, push_printed};
use ens_base::PeerId;
use register_model::Printed;
use schedule_text::{ScheduleEvent, push_event};
use std::alloc::{AllocError, Global};
use std::marker::Model;
use wire_frames::Frame;
use world_model::Activity;

/// The lines of a chart so far. Contracts see the list of these texts.
#[derive(Drop)]
pub struct Lines {
    lines: Vec<String>,
}

impl Model for Lines {
    ghost use Rattle.std.specs.Prelude.{ℕ, List, map, string_bytes};

    ghost Value = { List (List ℕ) };

    ghost view = { λ l. map string_bytes l.lines.items };
}

impl Lines {
    ghost use Rattle.std.specs.Prelude.{[], ◌∷◌};
    ghost use Rattle.chart.specs.Notes.{arrow_line as line_of_arrow, change_note, event_note, note_line, printed_words, words_note};

    /// Makes no lines.
    pub fn new(alloc: Global) -> Lines
        ensures { result ≡ [] }
    {
        Lines {
            lines: Vec::new(alloc),
        }
    }

    /// Returns the lines.
    pub fn all(&self) -> &[String]
        ensures { map string_bytes result.now ≡ self.now }
    {
        self.lines.as_slice()
    }

    fn push(&mut self, line: String) -> Result<(), AllocError>
        ensures { OnOk result (self.new ≡ self.old ++ string_bytes line ∷ []) }
    {
        self.lines.push(line)?;
        Ok(())
    }

    /// Adds the arrow of a message.
    pub fn arrow(&mut self, alloc: Global, fate: Fate, frame: &Frame) -> Result<(), AllocError>
        ensures { OnOk result (self.new ≡ self.old ++ line_of_arrow fate frame.now ∷ []) }
    {
        self.push(arrow_line(alloc, fate, frame)?)
    }

    /// Adds the note of event `number`, if it is about one peer.
    pub fn event(
        &mut self,
        alloc: Global,
        number: u64,
        event: &ScheduleEvent,
    ) -> Result<(), AllocError>
        ensures { OnOk result (self.new ≡ self.old ++ event_note number event.now) }
    {
        match peer_of(event) {
            None => Ok(()),
            Some(peer) => {
                let mut text = note_over(alloc, peer)?;
                write!(text, "event {number}: ")?;
                push_event(alloc, &mut text, event)?;
                self.push(text)
            }
        }
    }

    /// Adds the note of an answer, or of a reply to a request to change the view.
    pub fn printed(&mut self, alloc: Global, peer: PeerId, line: &Printed) -> Result<(), AllocError>
        ensures { OnOk result (self.new ≡ self.old ++ note_line peer (printed_words line.now) ∷ []) }
    {
        let mut text = note_over(alloc, peer)?;
        push_printed(alloc, &mut text, line)?;
        self.push(text)
    }

    fn words(&mut self, alloc: Global, peer: PeerId, was: &str, now: &str) -> Result<(), AllocError>
        ensures { OnOk result (self.new ≡ self.old ++ words_note peer was.now now.now) }
    {
        if was.as_bytes() == now.as_bytes() {
            return Ok(());
        }
        let mut text = note_over(alloc, peer)?;
        write!(text, "{was} to {now}")?;
        self.push(text)
    }

    /// Adds the note of a change of what a peer is doing, if there is one.
    pub fn change(
        &mut self,
        alloc: Global,
        peer: PeerId,
        before: Activity,
        after: Activity,
    ) -> Result<(), AllocError>
        ensures { OnOk result (self.new ≡ self.old ++ change_note peer before after) }
    {
        self.words(alloc, peer, activity_word(before), activity_word(after))
    }
}
