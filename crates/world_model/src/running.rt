ghost use Rattle.std.specs.Prelude.{OnOk};
ghost use Rattle.hash_book.specs.Hashing.{KeepsNothing};
ghost use Rattle.world_spec.specs.Held.{account, HasNoClash};
ghost use Rattle.schedule_text.specs.Spelling.{IsSchedule};
ghost use Rattle.world_spec.specs.Lines.{run_of_schedule};
ghost use Rattle.world_model.specs.Worlds.{RunReaches};

use crate::error::WorldError;
use crate::world::World;
use hash_book::Hasher16;
use register_model::{History, Printed};
use schedule_text::Schedule;
use std::alloc::{AllocError, Global};
use std::thread::Threads;
use wire_frames::Frame;

impl World {
    /// Opens a world and applies every event of the schedule. The hasher took the strings that the
    /// run hashes, in order. If it is known that it kept none before, no two different strings of the
    /// run have the same MD5.
    ///
    /// # Errors
    ///
    /// `MessageLimit` exactly if the run would send more than 500,000 messages, unless it is cut off
    /// first: `Memory` when out of memory, `Clash` or `BookFull` if the hasher rejected one of the
    /// strings of the run and counted that in this call, after it took those before. `BookFull` comes
    /// only if that string does not fit into the book, where a book is known.
    pub fn run<H: Hasher16, R: Threads + Sync>(
        rt: &R,
        alloc: Global,
        schedule: &Schedule,
        hasher: &mut H,
    ) -> Result<World, WorldError>
        requires { IsSchedule schedule.now }
        ensures reaches { RunReaches (account H.kept H.clashes H.fulls hasher.old)
            (run_of_schedule schedule.now.form schedule.now.peers schedule.now.view schedule.now.events) result
            (account H.kept H.clashes H.fulls hasher.new) }
        ensures apart { KeepsNothing (H.kept hasher.old) → OnOk result (HasNoClash (run_of_schedule schedule.now.form schedule.now.peers schedule.now.view schedule.now.events).hashed) }
    {
        let mut world = World::open(rt, alloc, schedule, hasher)?;
        let events = schedule.events.as_slice();
        for place in 0..events.len() {
            world.apply(rt, alloc, &events[place], hasher)?;
        }
        Ok(world)
    }
}

impl World {
    ghost use Rattle.std.specs.Prelude.{◌≡◌, All, IfOk};
    ghost use Rattle.history_scribe.specs.Histories.{AreHistories};
    ghost use Rattle.network.specs.Mail.{MayBeSent};
    ghost use Rattle.world_model.specs.Worlds.{run_of};

    /// Returns the answers to calls and the replies to requests to change the view, in the order
    /// given.
    pub fn printed(&self) -> &[Printed]
        ensures { result.now ≡ (run_of self.now).printed }
    {
        self.printed.as_slice()
    }

    /// Returns the history of each key named by a call line, in ascending order of keys: the calls
    /// on the key, in the order derived from the notes of the leaders. Fails when out of memory.
    pub fn histories(&self, alloc: Global) -> Result<Vec<History>, AllocError>
        ensures { IfOk result (λ v. AreHistories (run_of self.now).notes (run_of self.now).called v.items) }
    {
        self.scribe.histories(alloc, &self.called)
    }

    /// Returns every message sent so far, in the order of sending.
    pub fn sent(&self) -> &[Frame]
        ensures sent { result.now ≡ (run_of self.now).mail.sent }
        ensures may { All MayBeSent result.now }
    {
        self.network.sent()
    }
}
