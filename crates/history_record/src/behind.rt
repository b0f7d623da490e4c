ghost use Rattle.std.specs.Prelude.{◌≡◌, ◌+◌, ◌<◌, ◌≤◌, ℕ, List, length, Err, IfErr, IfOk, OnErr, OnOk};
ghost use Rattle.history_record.specs.Lines.{most_bytes};
ghost use Rattle.history_record.specs.Kept.{IsFit};
ghost use Rattle.history_record.specs.Records.{IsRecord};
ghost use Rattle.history_record.specs.Telling.{Hears, nothing_heard, next_heard, open_call, open_change, with_answer, with_change, with_history, with_line};
ghost use Rattle.history_record.specs.ShortRecords.{with_short_last};
ghost use Rattle.history_record.specs.Reading.{behind, Steps, end_stage, Behind};

use crate::calls::calls_of;
use crate::error::AuditError;
use crate::flaw::{Flaw, LineError};
use crate::lines::{RecordLine, record_line};
use crate::record::Record;
use crate::stray::first_stray;
use ens_base::{Key, Seq};
use register_checker::{Places, places_of_calls};
use register_model::{Answer, Call, History};
use schedule_text::{Schedule, ScheduleEvent};
use std::alloc::Global;
use std::collections::{BTreeMap, BTreeSet};
use std::marker::Model;

/// What the lines behind the line `answers` have told so far. Contracts see that alone.
#[derive(Drop)]
pub(crate) struct Hearing {
    alloc: Global,
    lines: u32,
    schedule: Schedule,
    answers: Vec<Answer>,
    changes: Vec<u64>,
    latest: u64,
    histories: Vec<History>,
    /// The keys that have no history yet.
    keys: BTreeSet<Key>,
    /// The calls that have no answer yet, and the numbers of their events.
    open_calls: BTreeMap<u64, u64>,
    /// The changes of view that have no line yet, by the numbers of their events, and their peers.
    open_changes: BTreeMap<u64, u64>,
    /// All calls, and the places of their ids.
    calls: Vec<Call>,
    places: Places,
}

impl Model for Hearing {
    ghost use Rattle.std.specs.Prelude.{◌+◌, length, nat_eq};
    ghost use Rattle.std.specs.BTreeMap.{get};
    ghost use Rattle.std.specs.Ordering.{nat_cmp};
    ghost use Rattle.indexmap.specs.IndexMap.{get as place};
    ghost use Rattle.history_record.specs.Kept.{IsIndexed, IsKept, IsSound};
    ghost use Rattle.history_record.specs.Records.{IsRecord};
    ghost use Rattle.history_record.specs.Telling.{Heard};

    ghost Value = { Heard };

    ghost view = { λ s. record { lines = s.lines; schedule = s.schedule; answers = s.answers.items; changes = s.changes.items; latest = s.latest; histories = s.histories.items; keys = s.keys.keys } };

    ghost invariant = { λ s. IsSound
        (record {
          lines = s.lines;
          schedule = s.schedule;
          answers = s.answers.items;
          changes = s.changes.items;
          latest = s.latest;
          histories = s.histories.items;
          keys = s.keys.keys;
        })
        × IsKept (record { lines = s.lines; schedule = s.schedule; answers = s.answers.items; changes = s.changes.items; latest = s.latest; histories = s.histories.items; keys = s.keys.keys })
        (get nat_cmp s.open_calls) (get nat_cmp s.open_changes) (length s.open_calls.entries + (length s.open_changes.entries + length s.keys.keys))
        × IsIndexed (record {
          lines = s.lines;
          schedule = s.schedule;
          answers = s.answers.items;
          changes = s.changes.items;
          latest = s.latest;
          histories = s.histories.items;
          keys = s.keys.keys;
        })
        s.calls.items (place nat_eq s.places.at) };
}

impl Hearing {
    /// Begins behind the line `answers`, where the schedule has ended.
    pub(crate) fn new(alloc: Global, schedule: Schedule) -> Result<Hearing, AuditError>
        requires { IsFit schedule }
        ensures heard { IfOk result (λ h. h ≡ nothing_heard schedule) }
        ensures memory { IfErr result (λ e. e ≡ AuditError.Memory) }
    {
        let mut keys = BTreeSet::new(alloc);
        let mut open_calls = BTreeMap::new(alloc);
        let mut open_changes = BTreeMap::new(alloc);
        let events = schedule.events.as_slice();
        let mut place = events.len();
        while place > 0 {
            place -= 1;
            let number = place as u64 + 1;
            match &events[place] {
                ScheduleEvent::Call { id, key, .. } => {
                    open_calls.insert(*id, number)?;
                    keys.insert(key.copy(alloc)?)?;
                }
                ScheduleEvent::Change { peer, .. } => {
                    open_changes.insert(number, u64::from(peer.number()))?;
                }
                _ => {}
            }
        }
        let calls = calls_of(alloc, events)?;
        let places = places_of_calls(alloc, &calls)?;
        let lines = events.len() as u32 + 4;
        Ok(Hearing {
            alloc,
            lines,
            schedule,
            answers: Vec::new(alloc),
            changes: Vec::new(alloc),
            latest: 0,
            histories: Vec::new(alloc),
            keys,
            open_calls,
            open_changes,
            calls,
            places,
        })
    }

    // Takes an answer.
    fn answered(&mut self, answer: Answer) -> Result<(), LineError>
        ensures hears { Hears (with_answer self.old answer (open_call self.old answer.id)) self.new result }
        ensures count { OnOk result ((self.new.lines ≡ self.old.lines + 1) × (self.new.lines ≤ 800004)) }
        ensures err { OnErr result (self.new ≡ self.old) }
    {
        let Some(called) = self.open_calls.get(&answer.id).copied() else {
            return Err(LineError::Flawed(Flaw::Subject));
        };
        let last = self.schedule.events.as_slice().len() as u64;
        if answer.event < called || answer.event > last || answer.event < self.latest {
            return Err(LineError::Flawed(Flaw::Time));
        }
        self.answers.reserve(1)?;
        self.open_calls.remove(&answer.id);
        self.latest = answer.event;
        self.lines += 1;
        self.answers.push(answer).unwrap();
        Ok(())
    }

    // Takes a change line.
    fn changed(&mut self, event: u64, peer: u64) -> Result<(), LineError>
        ensures hears { Hears (with_change self.old event peer (open_change self.old event)) self.new result }
        ensures count { OnOk result ((self.new.lines ≡ self.old.lines + 1) × (self.new.lines ≤ 800004)) }
        ensures err { OnErr result (self.new ≡ self.old) }
    {
        let Some(asked) = self.open_changes.get(&event).copied() else {
            return Err(LineError::Flawed(Flaw::Subject));
        };
        if asked != peer {
            return Err(LineError::Flawed(Flaw::Subject));
        }
        if event < self.latest {
            return Err(LineError::Flawed(Flaw::Time));
        }
        self.changes.reserve(1)?;
        self.open_changes.remove(&event);
        self.latest = event;
        self.lines += 1;
        self.changes.push(event).unwrap();
        Ok(())
    }

    // Takes a history.
    fn told(&mut self, history: History) -> Result<(), LineError>
        ensures hears { Hears (with_history self.old history self.old.keys) self.new result }
        ensures count { OnOk result ((self.new.lines ≡ self.old.lines + 1) × (self.new.lines ≤ 800004)) }
        ensures err { OnErr result (self.new ≡ self.old) }
    {
        match self.keys.first() {
            Some(key) if *key == history.key => {}
            _ => return Err(LineError::Flawed(Flaw::Key)),
        }
        self.histories.reserve(1)?;
        self.keys.pop_first();
        self.lines += 1;
        self.histories.push(history).unwrap();
        Ok(())
    }

    // Takes what a line says.
    fn take(&mut self, line: RecordLine) -> Result<(), LineError>
        ensures hears { Hears (with_line self.old line) self.new result }
        ensures count { OnOk result ((self.new.lines ≡ self.old.lines + 1) × (self.new.lines ≤ 800004)) }
        ensures err { OnErr result (self.new ≡ self.old) }
    {
        match line {
            RecordLine::Answered(answer) => self.answered(answer),
            RecordLine::Changed(event, peer) => self.changed(event, peer),
            RecordLine::Told(history) => self.told(history),
        }
    }

    // Takes a line.
    fn hear(&mut self, text: &[u8]) -> Result<(), LineError>
        ensures hears { Hears (next_heard self.old text.now) self.new result }
        ensures count { OnOk result ((self.new.lines ≡ self.old.lines + 1) × (self.new.lines ≤ 800004)) }
        ensures err { OnErr result (self.new ≡ self.old) }
    {
        let line = record_line(self.alloc, !self.histories.is_empty(), text)?;
        self.take(line)
    }

    /// Reads the next line, given without its line feed.
    pub(crate) fn line(&mut self, text: &[u8]) -> Result<(), AuditError>
        ensures steps { Steps (behind self.old.lines (next_heard self.old text.now)) (Behind self.new) result }
        ensures count { OnOk result ((self.new.lines ≡ self.old.lines + 1) × (self.new.lines ≤ 800004)) }
        ensures err { OnErr result (self.new ≡ self.old) }
    {
        let number = self.lines + 1;
        match self.hear(text) {
            Ok(()) => Ok(()),
            Err(LineError::Flawed(flaw)) => Err(AuditError::Bad {
                line: number,
                cause: flaw.number(),
            }),
            Err(LineError::Memory) => Err(AuditError::Memory),
        }
    }

    /// Shortens the last history, if an id of it is stray.
    pub(crate) fn shorten(&mut self) -> Result<(), AuditError>
        ensures last { OnOk result (self.new ≡ with_short_last self.old) }
        ensures err { OnErr result (self.new ≡ self.old) }
        ensures memory { IfErr result (λ e. e ≡ AuditError.Memory) }
    {
        let count = self.histories.len();
        if count == 0 {
            return Ok(());
        }
        let last = &self.histories[count - 1];
        let calls = self.calls.as_slice();
        let order = last.calls.as_slice();
        if let Some(id) = first_stray(self.alloc, calls, &self.places, &last.key, order)? {
            let ids = vec![in self.alloc; id, id]?;
            self.histories[count - 1].calls = Seq::new(ids);
        }
        Ok(())
    }

    /// Returns the error of the next line if it has more than 8,388,608 bytes, whatever its bytes are.
    pub(crate) fn long_line(&self) -> AuditError
        ensures line { (text : List ℕ) → most_bytes < length text → behind self.now.lines (next_heard self.now text) ≡ Err result }
        ensures rest { (text : List ℕ) → most_bytes < length text → end_stage (Behind self.now) text ≡ Err result }
    {
        AuditError::Bad {
            line: self.lines + 1,
            cause: Flaw::Cut.number(),
        }
    }

    /// Ends the record. `rest` is what follows the last line feed.
    pub(crate) fn end(self, rest: &[u8]) -> Result<Record, AuditError>
        ensures exact { result ≡ end_stage (Behind self) rest.now }
        ensures record { IfOk result IsRecord }
    {
        let line = self.lines + 1;
        if !rest.is_empty() {
            return Err(AuditError::Bad {
                line,
                cause: Flaw::Cut.number(),
            });
        }
        if !self.keys.is_empty() {
            return Err(AuditError::Bad {
                line,
                cause: Flaw::Key.number(),
            });
        }
        let Hearing {
            schedule,
            answers,
            histories,
            ..
        } = self;
        Ok(Record {
            schedule,
            answers: Seq::new(answers),
            histories: Seq::new(histories),
        })
    }
}
