ghost use Rattle.std.specs.Prelude.{◌≡◌, ◌≢◌, IfErr, IfOk, MatchOption, None, OnOk, string_bytes};
ghost use Rattle.ens_base.specs.declared.status.Status.{Status};
ghost use Rattle.hash_book.specs.Hashing.{KeepsNothing};
ghost use Rattle.world_model.specs.WorldSpec.{account, HasHashed, HasNoClash, IsPastMessages, IsWithinMessages, unhashed};
ghost use Rattle.schedule_input.specs.Premise.{first_unsound};
ghost use Rattle.schedule_text.specs.Spelling.{IsSchedule};
ghost use Rattle.replay.specs.Jobs.{EndsSo, clash_line, hashed_by};
ghost use Rattle.replay.specs.Stops.{StopsIn};
ghost use Rattle.replay.specs.Text.{IsTextOfRun};
ghost use Rattle.world_model.specs.Worlds.{run_of};
ghost use Rattle.replay.specs.Worlds.{schedule_run};
ghost use Rattle.replay.specs.Summary.{EndsInSummary, IsSummary};

use crate::summary::write_summary;
use ens_base::{Bytes, Status, push_bytes};
use hash_book::{Hasher16, PlainHasher};
use history_scribe::write_text;
use schedule_input::Ending;
use schedule_text::Schedule;
use std::alloc::{AllocError, Global};
use std::thread::Threads;
use world_model::{World, WorldError};

/// Returns the line that reports two different strings with the same MD5: the one kept, and the new one.
pub fn clash_text(alloc: Global, kept: &Bytes, new: &Bytes) -> Result<String, AllocError>
    ensures { IfOk result (λ text. string_bytes text ≡ clash_line kept.now new.now) }
{
    let mut text = String::new(alloc);
    text.push_str("clash ")?;
    push_bytes(alloc, &mut text, kept.as_slice())?;
    text.push_str(" ")?;
    push_bytes(alloc, &mut text, new.as_slice())?;
    text.push_str("\n")?;
    Ok(text)
}

/// Returns the text that the run of a world prints, followed by a history for each key.
pub fn run_text(alloc: Global, world: &World) -> Result<String, AllocError>
    ensures { IfOk result (λ text. IsTextOfRun (run_of world.now) (string_bytes text)) }
{
    let histories = world.histories(alloc)?;
    write_text(alloc, world.printed(), &histories)
}

/// Opens a world and applies the lines of a schedule, one after another. On failure says in which turn of
/// which line: at the limit on messages the hasher took every string of the run and of this turn, and if
/// the hasher rejected a string of this turn, the run before it stays within the limit on messages.
fn run_lines<H: Hasher16, R: Threads + Sync>(
    rt: &R,
    alloc: Global,
    schedule: &Schedule,
    hasher: &mut H,
) -> Result<World, WorldError>
    requires { IsSchedule schedule.now }
    ensures reaches { IfOk result (λ w. (run_of w ≡ unhashed (schedule_run schedule.now))
        × IsWithinMessages (schedule_run schedule.now)
        × HasHashed (hashed_by schedule.now) (account H.kept H.clashes H.fulls hasher.old)
        (account H.kept H.clashes H.fulls hasher.new)) }
    ensures apart { KeepsNothing (H.kept hasher.old) → OnOk result (HasNoClash (hashed_by schedule.now)) }
    ensures stops { IfErr result (StopsIn schedule.now (account H.kept H.clashes H.fulls hasher.old) (account H.kept H.clashes H.fulls hasher.new)) }
{
    let mut world = World::open(rt, alloc, schedule, hasher)?;
    let events = schedule.events.as_slice();
    for place in 0..events.len() {
        world.apply(rt, alloc, &events[place], hasher)?;
    }
    Ok(world)
}

/// Runs a schedule in a world, and returns how its replay ends: with the text of the run, with a
/// clash, or at the limit on messages or on the book. Fails when out of memory.
pub fn run_world<H: Hasher16, R: Threads + Sync>(
    rt: &R,
    alloc: Global,
    schedule: &Schedule,
    hasher: &mut H,
) -> Result<Ending, AllocError>
    requires valid { IsSchedule schedule.now }
    requires sound { first_unsound schedule.now ≡ None }
    ensures ends { IfOk result (λ e. EndsSo (account H.kept H.clashes H.fulls hasher.old) (account H.kept H.clashes H.fulls hasher.new) schedule.now e.status (string_bytes e.text)) }
    ensures status { IfOk result (λ e. e.status ≢ Status.ReadFault) }
{
    match run_lines(rt, alloc, schedule, hasher) {
        Ok(world) => Ok(Ending {
            status: Status::Done,
            text: run_text(alloc, &world)?,
        }),
        Err(WorldError::Clash { first, second }) => Ok(Ending {
            status: Status::Clash,
            text: clash_text(alloc, &first, &second)?,
        }),
        Err(WorldError::BookFull(_)) => {
            Ending::new(alloc, Status::Limit, "limit book 1073741824\n")
        }
        Err(WorldError::MessageLimit) => {
            Ending::new(alloc, Status::Limit, "limit messages 500000\n")
        }
        Err(WorldError::Memory) => Err(AllocError),
    }
}

/// Returns the summary of the run of a schedule, or `None` if the run would send more than 500,000
/// messages.
fn world_summary<R: Threads + Sync>(
    rt: &R,
    alloc: Global,
    schedule: &Schedule,
) -> Result<Option<String>, AllocError>
    requires { IsSchedule schedule.now }
    ensures { IfOk result (λ o. MatchOption o (IsPastMessages (schedule_run schedule.now)) (λ text. IsSummary schedule.now (string_bytes text))) }
{
    let mut hasher = PlainHasher;
    match World::run(rt, alloc, schedule, &mut hasher) {
        Ok(world) => {
            let text = run_text(alloc, &world)?;
            Ok(Some(write_summary(alloc, schedule, world.printed(), text.as_str())?))
        }
        Err(WorldError::MessageLimit) => Ok(None),
        Err(WorldError::Memory) => Err(AllocError),
        Err(WorldError::Clash { .. } | WorldError::BookFull(_)) => unreachable!(),
    }
}

/// Runs a schedule in a world with all its peers. Returns the six lines that sum up the run: the calls
/// and the events of the schedule, the calls that were completed, those that were refused and the
/// rest, and the MD5 of the text that the run prints. Ends with `limit messages 500000` if the run
/// would send more messages. Fails when out of memory.
pub fn summarize<R: Threads + Sync>(
    rt: &R,
    alloc: Global,
    schedule: &Schedule,
) -> Result<Ending, AllocError>
    requires { IsSchedule schedule.now }
    ensures { IfOk result (λ e. EndsInSummary schedule.now e.status (string_bytes e.text)) }
{
    match world_summary(rt, alloc, schedule)? {
        Some(text) => Ok(Ending {
            status: Status::Done,
            text,
        }),
        None => Ending::new(alloc, Status::Limit, "limit messages 500000\n"),
    }
}
