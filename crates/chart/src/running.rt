ghost use Rattle.std.specs.Prelude.{◌≡◌, IfOk, IfErr, OnOk};
ghost use Rattle.world_spec.specs.Held.{account};
ghost use Rattle.schedule_text.specs.Spelling.{IsSchedule};
ghost use Rattle.world_model.specs.Worlds.{MayRefuse};
ghost use Rattle.world_spec.specs.Lines.{run_of_schedule};
ghost use Rattle.world_spec.specs.Messages.{IsWithinMessages};
ghost use Rattle.chart.specs.Lines.{run_lines as lines_of_run};

use crate::drawing::{add_waiting, draw};
use crate::fate::{Fate, Which};
use crate::lines::Lines;
use hash_book::Hasher16;
use schedule_text::Schedule;
use std::alloc::Global;
use std::thread::Threads;
use world_model::{World, WorldError};

/// Runs a schedule, and returns the lines of its chart. The errors are those of `World::run`.
pub fn run_lines<H: Hasher16, R: Threads + Sync>(
    rt: &R,
    alloc: Global,
    schedule: &Schedule,
    hasher: &mut H,
) -> Result<Lines, WorldError>
    requires { IsSchedule schedule.now }
    ensures lines { IfOk result (λ l. l ≡ lines_of_run schedule.now) }
    ensures within { OnOk result (IsWithinMessages (run_of_schedule schedule.now.form schedule.now.peers schedule.now.view schedule.now.events)) }
    ensures error { IfErr result (MayRefuse (account H.kept H.clashes H.fulls hasher.old)
        (run_of_schedule schedule.now.form schedule.now.peers schedule.now.view schedule.now.events)
        (account H.kept H.clashes H.fulls hasher.new)) }
{
    let mut world = World::open(rt, alloc, schedule, hasher)?;
    let mut lines = Lines::new(alloc);
    let events = schedule.events.as_slice();
    for place in 0..events.len() {
        let event = &events[place];
        lines.event(alloc, place as u64 + 1, event)?;
        draw(rt, alloc, hasher, &mut world, &mut lines, event)?;
    }
    add_waiting(alloc, &world, &mut lines, Fate::Waiting, &Which::Every)?;
    Ok(lines)
}
