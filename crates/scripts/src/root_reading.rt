ghost use Rattle.std.specs.Prelude.{◌≡◌, ◌<◌, ◌≤◌, ◌+◌, ℕ, List, [], length, IfOk, IfErr, Err};
ghost use Rattle.schedule_text.specs.Events.{line_limit};
ghost use Rattle.schedule_text.specs.Progress.{Titled};
ghost use Rattle.schedule_text.specs.declared.form.Form.TheVariants.{Three};
ghost use Rattle.schedule_text.specs.Reading.{TakesWords as TakesHeading};
ghost use Rattle.scripts.specs.Progress.{Blank, begun, lines_so_far, IsHeading, IsWhole, Running};
ghost use Rattle.scripts.specs.RootReading.{ended, finished, next_line, TakesLine, TakesWords};

use crate::event_lines::root_event;
use crate::log::RootLog;
use crate::refusal::{at_line, without_line};
use crate::script::RootScript;
use crate::stage::Stage;
use ens_base::{MAX_LINE_BYTES, MAX_LINES, View};
use lexemes::{Cause, WordError};
use schedule_text::{Reading, ScheduleError};
use std::alloc::Global;
use std::marker::Model;
use std::mem;

/// The first line of each script.
const TITLE: &[u8; 6] = b"root 1";

/// The line that a schedule has in its place.
const SCHEDULE_TITLE: &[u8; 10] = b"ensemble 3";

/// A script that is read line by line. Contracts see what the lines read so far say.
#[derive(Drop)]
pub struct RootReading {
    alloc: Global,
    stage: Stage,
    /// The heading, with the first line of a schedule in place of the first line of a script.
    heading: Reading,
    log: RootLog,
}

impl Model for RootReading {
    ghost use Rattle.scripts.specs.Progress.{RootProgress, progress_of, IsUnderWay};

    ghost Value = { RootProgress };

    ghost view = { λ r. progress_of r.stage r.heading r.log.events.items };

    ghost invariant = { λ r. IsUnderWay r.stage r.heading r.log.events.items };
}

/// A heading of which the first line was read.
fn titled(alloc: Global) -> Result<Reading, WordError>
    ensures heading { IfOk result (λ r. r ≡ Titled Three) }
    ensures memory { IfErr result (λ e. e ≡ WordError.Memory) }
{
    let mut heading = Reading::new(alloc);
    match heading.line(SCHEDULE_TITLE) {
        Ok(()) => Ok(heading),
        Err(ScheduleError::Memory) => Err(WordError::Memory),
        Err(ScheduleError::Bad { .. } | ScheduleError::Lines) => unreachable!(),
    }
}

/// Takes a line of the heading behind the first.
fn take_heading(heading: &mut Reading, line: &[u8]) -> Result<(), WordError>
    requires { IsHeading heading.old }
    ensures { TakesHeading heading.old line.now heading.new result }
{
    match heading.line(line) {
        Ok(()) => Ok(()),
        Err(e) => Err(without_line(e)),
    }
}

/// What a whole heading says: the number of peers, and the view with which the root opens.
fn opening(heading: Reading) -> (u32, View)
    requires { IsWhole heading }
    ensures { begun heading ≡ Running result.0 result.1 [] }
{
    match heading.end(&[]) {
        Ok(schedule) => (schedule.peers, schedule.view),
        Err(_) => unreachable!(),
    }
}

impl RootReading {
    /// Begins a script.
    pub fn new(alloc: Global) -> RootReading
        ensures { result ≡ Blank }
    {
        RootReading {
            alloc,
            stage: Stage::Blank,
            heading: Reading::new(alloc),
            log: RootLog::new(alloc),
        }
    }

    // How many lines were read.
    fn lines(&self) -> u32
        ensures count { result ≡ lines_so_far self.now }
        ensures most { result ≤ 200000 }
    {
        match self.stage {
            Stage::Blank => 0,
            Stage::Titled => 1,
            Stage::Counted => 2,
            Stage::Running(_, _) => 3 + self.log.events.len() as u32,
        }
    }

    // The next line, which is not behind the last that a script may have.
    fn take(&mut self, line: &[u8]) -> Result<(), WordError>
        requires { lines_so_far self.old < 200000 }
        ensures { TakesWords self.old line.now self.new result }
    {
        if line.len() > MAX_LINE_BYTES {
            return Err(WordError::Bad(Cause::TooLong));
        }
        match self.stage {
            Stage::Blank => {
                if line != TITLE.as_slice() {
                    return Err(WordError::Bad(Cause::Heading));
                }
                self.heading = titled(self.alloc)?;
                self.stage = Stage::Titled;
            }
            Stage::Titled => {
                take_heading(&mut self.heading, line)?;
                self.stage = Stage::Counted;
            }
            Stage::Counted => {
                take_heading(&mut self.heading, line)?;
                let heading = mem::replace(&mut self.heading, Reading::new(self.alloc));
                let (peers, view) = opening(heading);
                self.stage = Stage::Running(peers, view);
            }
            Stage::Running(peers, _) => {
                let event = root_event(self.alloc, line, peers)?;
                self.log.push(event)?;
            }
        }
        Ok(())
    }

    /// Reads the next line, given without its line feed. A line that is rejected leaves the reading as it
    /// was.
    pub fn line(&mut self, bytes: &[u8]) -> Result<(), ScheduleError>
        ensures { TakesLine self.old bytes.now self.new result }
    {
        let lines = self.lines();
        if lines == MAX_LINES {
            return Err(ScheduleError::Lines);
        }
        match self.take(bytes) {
            Ok(()) => Ok(()),
            Err(e) => Err(at_line(lines + 1, e)),
        }
    }

    /// Returns the error of the next line if it has more than 4,400 bytes, whatever its bytes are.
    pub fn long_line(&self) -> ScheduleError
        ensures { (text : List ℕ) → line_limit < length text → next_line self.now text ≡ Err result }
    {
        let lines = self.lines();
        if lines == MAX_LINES {
            return ScheduleError::Lines;
        }
        at_line(lines + 1, WordError::Bad(Cause::TooLong))
    }

    // The script, where the heading is whole.
    fn finished(self) -> Result<RootScript, Cause>
        ensures { result ≡ finished self }
    {
        let RootReading {
            alloc: _alloc,
            stage,
            heading: _heading,
            log,
        } = self;
        match stage {
            Stage::Running(peers, view) => Ok(RootScript {
                peers,
                view,
                events: log.into_events(),
            }),
            Stage::Blank | Stage::Titled | Stage::Counted => Err(Cause::Heading),
        }
    }

    /// Ends the script. `rest` is what follows the last line feed: no bytes, or a line that is cut short and
    /// hence bad.
    pub fn end(self, rest: &[u8]) -> Result<RootScript, ScheduleError>
        ensures { result ≡ ended self rest.now }
    {
        let lines = self.lines();
        if rest.is_empty() {
            return match self.finished() {
                Ok(script) => Ok(script),
                Err(cause) => Err(at_line(lines + 1, WordError::Bad(cause))),
            };
        }
        if lines == MAX_LINES {
            return Err(ScheduleError::Lines);
        }
        let cause = if rest.len() > MAX_LINE_BYTES {
            Cause::TooLong
        } else {
            Cause::Unfinished
        };
        Err(at_line(lines + 1, WordError::Bad(cause)))
    }
}
