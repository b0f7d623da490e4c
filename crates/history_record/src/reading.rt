ghost use Rattle.std.specs.Prelude.{◌≡◌, ◌+◌, ◌<◌, ◌≤◌, ℕ, List, length, Ok, Err, IfErr, IfOk, OnErr, OnOk};
ghost use Rattle.history_record.specs.Kept.{IsFit};
ghost use Rattle.history_record.specs.Records.{IsRecord};
ghost use Rattle.history_record.specs.ShortRecords.{stage_with_short_last};
ghost use Rattle.history_record.specs.Reading.{Steps, after_error, end_stage, first_stage, lines_of, missing, most_in, next_stage};

use crate::behind::Hearing;
use crate::error::AuditError;
use crate::flaw::Flaw;
use crate::lines::MOST_BYTES;
use crate::record::Record;
use ens_base::MAX_LINE_BYTES;
use schedule_text::{Reading, Schedule};
use std::alloc::Global;
use std::marker::Model;
use std::mem;

/// The line between the schedule and the answers.
const ANSWERS: &[u8; 7] = b"answers";

/// A record that is read line by line. Contracts see how far the reading has come. A line that was rejected leaves
/// it as it was, but for the line `answers`, after which it begins anew.
#[derive(Drop)]
pub struct RecordReading {
    alloc: Global,
    schedule: Reading,
    behind: Option<Hearing>,
}

impl Model for RecordReading {
    ghost use Rattle.history_record.specs.Reading.{Stage, stage_of, IsBegun};

    ghost Value = { Stage };

    ghost view = { λ r. stage_of r.schedule r.behind };

    ghost invariant = { λ r. IsBegun r.schedule };
}

/// Returns why the record ends where the line `answers` is missing.
fn missing_answers(schedule: &Schedule) -> AuditError
    requires { IsFit schedule.now }
    ensures { missing (Ok schedule.now) ≡ Err result }
{
    AuditError::Bad {
        line: schedule.events.as_slice().len() as u32 + 4,
        cause: Flaw::Key.number(),
    }
}

impl RecordReading {
    /// Begins a record.
    pub fn new(alloc: Global) -> RecordReading
        ensures { result ≡ first_stage }
    {
        RecordReading {
            alloc,
            schedule: Reading::new(alloc),
            behind: None,
        }
    }

    /// Returns the most bytes that the next line may have: 4,400, or 8,388,608 behind the line `answers`.
    pub fn most_bytes(&self) -> usize
        ensures { result ≡ most_in self.now }
    {
        match self.behind {
            Some(_) => MOST_BYTES,
            None => MAX_LINE_BYTES,
        }
    }

    /// Returns the error of the next line if it has more bytes than these, whatever its bytes are, and also if
    /// the input ends inside it.
    pub fn long_line(&self) -> AuditError
        ensures line { (text : List ℕ) → most_in self.now < length text → next_stage self.now text ≡ Err result }
        ensures rest { (text : List ℕ) → most_in self.now < length text → end_stage self.now text ≡ Err result }
    {
        match &self.behind {
            Some(hearing) => hearing.long_line(),
            None => AuditError::from(self.schedule.long_line()),
        }
    }

    /// Reads the next line, given without its line feed. No record has more than 800,004 lines.
    pub fn line(&mut self, text: &[u8]) -> Result<(), AuditError>
        ensures steps { Steps (next_stage self.old text.now) self.new result }
        ensures count { OnOk result (lines_of self.new ≡ lines_of self.old + 1) }
        ensures few { OnOk result (lines_of self.new ≤ 800004) }
        ensures err { OnErr result (self.new ≡ after_error self.old text.now) }
    {
        if let Some(hearing) = &mut self.behind {
            return hearing.line(text);
        }
        if text != ANSWERS.as_slice() {
            self.schedule.line(text)?;
            return Ok(());
        }
        let reading = mem::replace(&mut self.schedule, Reading::new(self.alloc));
        let schedule = reading.end(&[])?;
        self.behind = Some(Hearing::new(self.alloc, schedule)?);
        Ok(())
    }

    /// Shortens the last history, if an id of it is stray: it keeps the first such id alone, twice. The report
    /// on the record stays the same, and all histories together have few more ids than the schedule has calls.
    /// Fails only when out of memory.
    pub fn shorten(&mut self) -> Result<(), AuditError>
        ensures last { OnOk result (self.new ≡ stage_with_short_last self.old) }
        ensures err { OnErr result (self.new ≡ self.old) }
        ensures memory { IfErr result (λ e. e ≡ AuditError.Memory) }
    {
        match &mut self.behind {
            Some(hearing) => hearing.shorten(),
            None => Ok(()),
        }
    }

    /// Ends the record. `rest` is what follows the last line feed: no bytes, or a line that is cut short and
    /// hence bad.
    pub fn end(self, rest: &[u8]) -> Result<Record, AuditError>
        ensures exact { result ≡ end_stage self rest.now }
        ensures record { IfOk result IsRecord }
    {
        let RecordReading {
            alloc: _alloc,
            schedule,
            behind,
        } = self;
        if let Some(hearing) = behind {
            return hearing.end(rest);
        }
        match schedule.end(rest) {
            Ok(schedule) => Err(missing_answers(&schedule)),
            Err(e) => Err(AuditError::from(e)),
        }
    }
}
