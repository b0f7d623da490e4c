ghost use Rattle.std.specs.Prelude.{◌≡◌, ◌<◌, ◌≤◌, ◌+◌, ℕ, List, [], length, Err, OnOk, vec_len, vec_capacity};
ghost use Rattle.std.specs.BTreeSet.{contains};
ghost use Rattle.std.specs.List.{list_any};
ghost use Rattle.std.specs.Ordering.{nat_cmp};
ghost use Rattle.schedule_text.specs.Events.{line_limit};
ghost use Rattle.scripts.specs.ClusterReading.{Adds, Admits, TakesLine};
ghost use Rattle.scripts.specs.Scripts.{calls_id, ended, next_line};

use crate::line::{ScriptLine, bad, read_line};
use ens_base::{MAX_LINE_BYTES, MAX_LINES, Seq};
use lexemes::Cause;
use schedule_text::{ScheduleError, ScheduleEvent};
use std::alloc::Global;
use std::collections::BTreeSet;

/// A script that is read line by line.
#[derive(Drop)]
pub(crate) struct ScriptReading {
    alloc: Global,
    pub(crate) peers: u32,
    pub(crate) lines: Vec<ScriptLine>,
    ids: BTreeSet<u64>,
    ghost known: { (id : ℕ) → contains nat_cmp ids id ≡ list_any (calls_id id) lines.items },
    ghost few: { length lines.items ≤ 200000 },
}

/// Makes room for one more line, and takes in its id, unless it is a call whose id came before. `place` is the
/// number of the line.
fn admit(
    lines: &mut Vec<ScriptLine>,
    ids: &mut BTreeSet<u64>,
    line: &ScriptLine,
    place: u32,
) -> Result<(), ScheduleError>
    ensures lines { lines.new.items ≡ lines.old.items }
    ensures room { OnOk result (vec_len lines.new + 1 ≤ vec_capacity lines.new) }
    ensures ids { Admits place (contains nat_cmp ids.old) line.now (contains nat_cmp ids.new) result }
{
    if lines.reserve(1).is_err() {
        return Err(ScheduleError::Memory);
    }
    if let ScriptLine::Event(ScheduleEvent::Call { id, .. }) = line {
        match ids.insert(*id) {
            Ok(true) => {}
            Ok(false) => return Err(bad(place, Cause::Repeated)),
            Err(_) => return Err(ScheduleError::Memory),
        }
    }
    Ok(())
}

impl ScriptReading {
    /// Begins a script for `peers` peers.
    pub(crate) fn new(alloc: Global, peers: u32) -> ScriptReading
        ensures lines { result.lines.items ≡ [] }
        ensures peers { result.peers ≡ peers }
    {
        ScriptReading {
            alloc,
            peers,
            lines: Vec::new(alloc),
            ids: BTreeSet::new(alloc),
        }
    }

    /// Adds a line at the end, unless it is a call whose id came before. `place` is the number of the line.
    fn push(&mut self, line: ScriptLine, place: u32) -> Result<(), ScheduleError>
        requires { length self.old.lines.items < 200000 }
        ensures adds { Adds place self.old.lines.items line self.new.lines.items result }
        ensures peers { self.new.peers ≡ self.old.peers }
    {
        admit(&mut self.lines, &mut self.ids, &line, place)?;
        self.lines.push(line).unwrap();
        Ok(())
    }

    /// Reads the next line, given without its line feed. A line that is rejected leaves the reading as it was.
    pub(crate) fn line(&mut self, bytes: &[u8]) -> Result<(), ScheduleError>
        ensures takes { TakesLine self.old.peers self.old.lines.items bytes.now self.new.lines.items result }
        ensures peers { self.new.peers ≡ self.old.peers }
    {
        let lines = self.lines.len() as u32;
        if lines == MAX_LINES {
            return Err(ScheduleError::Lines);
        }
        let line = read_line(self.alloc, bytes, lines + 1, self.peers)?;
        self.push(line, lines + 1)
    }

    /// Returns the error of the next line if it has more than 4,400 bytes, whatever its bytes are, and whether
    /// or not a line feed ends it.
    pub(crate) fn long_line(&self) -> ScheduleError
        ensures line { (text : List ℕ) → line_limit < length text → next_line self.now.peers self.now.lines.items text ≡ Err result }
        ensures rest { (text : List ℕ) → line_limit < length text → ended self.now.lines.items text ≡ Err result }
    {
        let lines = self.lines.len() as u32;
        if lines == MAX_LINES {
            return ScheduleError::Lines;
        }
        bad(lines + 1, Cause::TooLong)
    }

    /// The lines read so far.
    fn into_lines(self) -> Seq<ScriptLine>
        ensures { result ≡ self.lines.items }
    {
        let ScriptReading {
            alloc: _alloc,
            peers: _peers,
            lines,
            ids: _ids,
        } = self;
        Seq::new(lines)
    }

    /// Ends the script. `rest` is what follows the last line feed: no bytes, or a line that is cut short and hence
    /// bad.
    pub(crate) fn end(self, rest: &[u8]) -> Result<Seq<ScriptLine>, ScheduleError>
        ensures { result ≡ ended self.lines.items rest.now }
    {
        let lines = self.lines.len() as u32;
        if rest.is_empty() {
            return Ok(self.into_lines());
        }
        if lines == MAX_LINES {
            return Err(ScheduleError::Lines);
        }
        let cause = if rest.len() > MAX_LINE_BYTES {
            Cause::TooLong
        } else {
            Cause::Unfinished
        };
        Err(bad(lines + 1, cause))
    }
}
