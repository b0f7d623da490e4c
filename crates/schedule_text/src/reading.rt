ghost use Rattle.std.specs.Prelude.{◌≡◌, ◌<◌, ◌≤◌, ◌+◌, ℕ, List, length, Err};
ghost use Rattle.schedule_text.specs.Events.{line_limit};
ghost use Rattle.schedule_text.specs.Progress.{Blank, lines_so_far};
ghost use Rattle.schedule_text.specs.Reading.{ended, finished, next_line, TakesLine, TakesWords};

use crate::error::ScheduleError;
use crate::event_lines::event;
use crate::form::Form;
use crate::heading::{peers_line, view_line};
use crate::log::Log;
use crate::schedule::Schedule;
use crate::stage::Stage;
use ens_base::{MAX_LINE_BYTES, MAX_LINES};
use lexemes::{Cause, WordError};
use std::alloc::Global;
use std::marker::Model;

/// A schedule that is read line by line. Contracts see what the lines read so far say.
#[derive(Drop)]
pub struct Reading {
    alloc: Global,
    stage: Stage,
    log: Log,
}

impl Model for Reading {
    ghost use Rattle.schedule_text.specs.Progress.{Progress, progress_of, IsUnderWay};

    ghost Value = { Progress };

    ghost view = { λ r. progress_of r.stage r.log.events.items };

    ghost invariant = { λ r. IsUnderWay r.stage r.log.events.items };
}

impl Reading {
    /// Begins a schedule.
    pub fn new(alloc: Global) -> Reading
        ensures { result ≡ Blank }
    {
        Reading {
            alloc,
            stage: Stage::Blank,
            log: Log::new(alloc),
        }
    }

    // How many lines were read.
    fn lines(&self) -> u32
        ensures count { result ≡ lines_so_far self.now }
        ensures most { result ≤ 200000 }
    {
        match self.stage {
            Stage::Blank => 0,
            Stage::Titled(_) => 1,
            Stage::Counted(_, _) => 2,
            Stage::Running(_, _, _) => 3 + self.log.events.len() as u32,
        }
    }

    // The next line, which is not behind the last that a schedule may have.
    fn take(&mut self, line: &[u8]) -> Result<(), WordError>
        requires { lines_so_far self.old < 200000 }
        ensures { TakesWords self.old line.now self.new result }
    {
        if line.len() > MAX_LINE_BYTES {
            return Err(WordError::Bad(Cause::TooLong));
        }
        match self.stage {
            Stage::Blank => {
                let form = Form::from_line(line).ok_or(Cause::Heading)?;
                self.stage = Stage::Titled(form);
            }
            Stage::Titled(form) => {
                let peers = peers_line(self.alloc, line)?;
                self.stage = Stage::Counted(form, peers);
            }
            Stage::Counted(form, peers) => {
                let view = view_line(self.alloc, line, peers)?;
                self.stage = Stage::Running(form, peers, view);
            }
            Stage::Running(_, peers, _) => {
                let event = event(self.alloc, line, peers)?;
                self.log.push(event)?;
            }
        }
        Ok(())
    }

    /// Reads the next line, given without its line feed. A line that is rejected leaves the reading as it
    /// was.
    pub fn line(&mut self, bytes: &[u8]) -> Result<(), ScheduleError>
        ensures { TakesLine self.old bytes.now self.new result }
    {
        let lines = self.lines();
        if lines == MAX_LINES {
            return Err(ScheduleError::Lines);
        }
        match self.take(bytes) {
            Ok(()) => Ok(()),
            Err(e) => Err(ScheduleError::at(lines + 1, e)),
        }
    }

    /// Returns the error of the next line if it has more than 4,400 bytes, whatever its bytes are.
    pub fn long_line(&self) -> ScheduleError
        ensures { (text : List ℕ) → line_limit < length text → next_line self.now text ≡ Err result }
    {
        let lines = self.lines();
        if lines == MAX_LINES {
            return ScheduleError::Lines;
        }
        ScheduleError::at(lines + 1, WordError::Bad(Cause::TooLong))
    }

    // The schedule, where the heading is whole.
    fn finished(self) -> Result<Schedule, Cause>
        ensures { result ≡ finished self }
    {
        let Reading {
            alloc: _alloc,
            stage,
            log,
        } = self;
        match stage {
            Stage::Running(form, peers, view) => Ok(Schedule {
                form,
                peers,
                view,
                events: log.into_events(),
            }),
            Stage::Blank | Stage::Titled(_) | Stage::Counted(_, _) => Err(Cause::Heading),
        }
    }

    /// Ends the schedule. `rest` is what follows the last line feed: no bytes, or a line that is cut short
    /// and hence bad.
    pub fn end(self, rest: &[u8]) -> Result<Schedule, ScheduleError>
        ensures { result ≡ ended self rest.now }
    {
        let lines = self.lines();
        if rest.is_empty() {
            return match self.finished() {
                Ok(schedule) => Ok(schedule),
                Err(cause) => Err(ScheduleError::at(lines + 1, WordError::Bad(cause))),
            };
        }
        if lines == MAX_LINES {
            return Err(ScheduleError::Lines);
        }
        let cause = if rest.len() > MAX_LINE_BYTES {
            Cause::TooLong
        } else {
            Cause::Unfinished
        };
        Err(ScheduleError::at(lines + 1, WordError::Bad(cause)))
    }
}
