ghost use Rattle.std.specs.Prelude.{◌≡◌, ◌≤◌, ◌+◌, ◌++◌, ◌∷◌, [], IfOk, OnOk};
ghost use Rattle.schedule_generator.specs.Generated.{draw_leader, draw_lines, draw_restart, restart_lines, generate as generated};
ghost use Rattle.schedule_generator.specs.Growing.{Grows};

use crate::draws::{draw, draw_command, draw_key};
use ens_base::{Bytes, Key, PeerId, Seq, View};
use schedule_text::{Form, Schedule, ScheduleEvent};
use std::alloc::{AllocError, Global};

/// A schedule that is being generated: the number that the next draw begins with, the peer that
/// leads, and the events so far.
#[derive(Drop)]
pub(crate) struct Generator {
    pub(crate) x: u64,
    pub(crate) leader: PeerId,
    pub(crate) events: Vec<ScheduleEvent>,
}

/// Adds the lines that restart a peer.
fn push_restart(
    alloc: Global,
    events: &mut Vec<ScheduleEvent>,
    peer: PeerId,
    key: Key,
) -> Result<(), AllocError>
    ensures { OnOk result (events.new.items ≡ events.old.items ++ restart_lines peer key) }
{
    let garbage = Bytes::from_slice(alloc, &[0])?;
    events.push(ScheduleEvent::Stop { peer })?;
    events.push(ScheduleEvent::Damage {
        peer,
        key,
        bytes: Some(garbage),
    })?;
    events.push(ScheduleEvent::Start { peer })?;
    events.push(ScheduleEvent::Tick { peer, ticks: 6 })?;
    events.push(ScheduleEvent::Calm)?;
    Ok(())
}

impl Generator {
    /// Restarts one of the five peers, which leads from then on.
    fn restart(&mut self, alloc: Global) -> Result<(), AllocError>
        ensures { OnOk result (Grows draw_restart self.old self.new) }
    {
        let q = draw(&mut self.x, 5);
        let peer = PeerId(1 + q as u32);
        let key = draw_key(alloc, &mut self.x)?;
        push_restart(alloc, &mut self.events, peer, key)?;
        self.leader = peer;
        Ok(())
    }

    /// Restarts a peer in front of each 500th call.
    fn lead(&mut self, alloc: Global, id: u64) -> Result<(), AllocError>
        ensures { OnOk result (Grows (draw_leader self.old.leader id) self.old self.new) }
    {
        if id % 500 == 0 {
            return self.restart(alloc);
        }
        Ok(())
    }

    /// Adds the call with this id, and what stands in front of it.
    fn lines(&mut self, alloc: Global, id: u64) -> Result<(), AllocError>
        ensures { OnOk result (Grows (draw_lines self.old.leader id) self.old self.new) }
    {
        self.lead(alloc, id)?;
        let key = draw_key(alloc, &mut self.x)?;
        let command = draw_command(alloc, &mut self.x)?;
        self.events.push(ScheduleEvent::Call {
            peer: self.leader,
            id,
            key,
            command,
        })?;
        self.events.push(ScheduleEvent::Calm)?;
        Ok(())
    }
}

/// The view that the peers open with.
fn opening() -> View
    ensures { result ≡ 1 ∷ 2 ∷ 3 ∷ 4 ∷ 5 ∷ [] }
{
    match View::new(&[PeerId(1), PeerId(2), PeerId(3), PeerId(4), PeerId(5)]) {
        Ok(view) => view,
        Err(_) => unreachable!(),
    }
}

/// Returns the schedule of 1 to 20,000 calls that is generated from a number. Fails only when out of
/// memory.
#[tactic(auto, unfolding(crate::specs::Generated::generate))]
pub fn generate(alloc: Global, number: u64, calls: u64) -> Result<Schedule, AllocError>
    requires { calls ≤ 20000 }
    ensures { IfOk result (λ schedule. schedule ≡ generated number calls) }
{
    let mut generator = Generator {
        x: number,
        leader: PeerId(1),
        events: Vec::new(alloc),
    };
    generator.events.push(ScheduleEvent::Tick {
        peer: PeerId(1),
        ticks: 6,
    })?;
    generator.events.push(ScheduleEvent::Calm)?;
    for i in 0..calls {
        generator.lines(alloc, i + 1)?;
    }
    let Generator {
        x: _x,
        leader: _leader,
        events,
    } = generator;
    Ok(Schedule {
        form: Form::One,
        peers: 5,
        view: opening(),
        events: Seq::new(events),
    })
}
