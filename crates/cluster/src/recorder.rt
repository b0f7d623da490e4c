ghost use Rattle.std.specs.Prelude.{◌≡◌, ◌+◌, ◌≤◌, ◌∷◌, [], ℕ, List, Option, IfErr, IfOk, OnOk, drop, length, nat_le};
ghost use Rattle.cluster.specs.Ends.{IsCluster};
ghost use Rattle.cluster.specs.Recorders.{Applies, FollowsOn, Hears, IsInStep, IsOpened, IsUnopened, Reached, Records, RecordsAll, mail_in};
ghost use Rattle.cluster.specs.Sending.{HandsOn};
ghost use Rattle.scripts.specs.Scripts.{IsScript, MayBeLine};
ghost use Rattle.cluster.specs.Messages.{MayBeRecorded, mail_before};
ghost use Rattle.cluster.specs.Recordings.{Recording};
ghost use Rattle.ens_base.specs.declared.peer_words.ClusterWords.{ClusterWords as Words};
ghost use Rattle.world_model.specs.WorldSpec.{Account, account};
ghost use Rattle.replay.specs.Text.{IsTextOfRun, record_text};
ghost use Rattle.schedule_text.specs.Spelling.{MayStand, schedule_text};
ghost use Rattle.world_model.specs.Worlds.{run_of};

use crate::sending::hand_on;
use crate::stop::Stop;
use ens_base::{Bytes, ClusterWords, MAX_LINES, Seq};
use environment::{Link, LinkError};
use hash_book::Hasher16;
use network::FrameIndex;
use replay::run_text;
use schedule_text::{Form, Schedule, ScheduleEvent, write_schedule};
use scripts::ScriptLine;
use std::alloc::{AllocError, Global};
use std::thread::Threads;
use world_model::World;

/// How many lines stand before the events of a schedule.
const HEADING: usize = 3;

/// A cluster that runs, and what it has recorded.
#[derive(Drop)]
pub(crate) struct Recorder {
    /// The peers, and the messages that they sent.
    world: World,
    /// What was recorded.
    schedule: Schedule,
    /// The messages that wait, by the bytes of their frames.
    index: FrameIndex,
}

impl Recorder {
    /// Starts the peers on empty stores. Nothing is recorded yet.
    fn open<H: Hasher16, R: Threads + Sync>(
        rt: &R,
        alloc: Global,
        words: &ClusterWords,
        hasher: &mut H,
    ) -> Result<Recorder, Stop>
        requires { IsCluster words.now }
        ensures opened { IfOk result (λ c. IsOpened words.now c (account H.kept H.clashes H.fulls hasher.old) (account H.kept H.clashes H.fulls hasher.new)) }
        ensures refused { IfErr result (λ e. IsUnopened words.now e (account H.kept H.clashes H.fulls hasher.old) (account H.kept H.clashes H.fulls hasher.new)) }
    {
        let events = Seq::new(Vec::new(alloc));
        let schedule = Schedule {
            form: Form::Three,
            peers: words.peers,
            view: words.view,
            events,
        };
        let world = World::open(rt, alloc, &schedule, hasher)?;
        Ok(Recorder {
            world,
            schedule,
            index: FrameIndex::new(alloc),
        })
    }

    /// Whether the recorded schedule has as many lines as one may have.
    fn is_full(&self) -> bool
        ensures { result ≡ nat_le 200000 (length self.now.schedule.events + 3) }
    {
        self.schedule.events.as_slice().len() + HEADING >= MAX_LINES as usize
    }

    /// Returns how many messages were sent.
    fn count(&self) -> usize
        ensures { result ≡ length (run_of self.now.world).mail.sent }
    {
        self.world.sent().len()
    }

    /// Applies an event to the peers, and adds it to the schedule.
    fn apply<H: Hasher16, R: Threads + Sync>(
        &mut self,
        rt: &R,
        alloc: Global,
        event: ScheduleEvent,
        hasher: &mut H,
    ) -> Result<(), Stop>
        requires { MayStand (length self.old.world.peers.items) event }
        ensures { Applies event self.old (account H.kept H.clashes H.fulls hasher.old) result self.new (account H.kept H.clashes H.fulls hasher.new) }
    {
        self.world.apply(rt, alloc, &event, hasher)?;
        self.schedule.events.push(event)?;
        Ok(())
    }

    /// Hands the messages behind the first `before` ones to the link, each for the number of its receiver,
    /// in the order of sending, and puts them into the index.
    fn hand_over<L: Link>(
        &mut self,
        alloc: Global,
        before: usize,
        link: &mut L,
    ) -> Result<(), LinkError>
        requires { before ≤ length (run_of self.old.world).mail.sent }
        ensures hands { HandsOn L.sent L.given L.fault_count (drop before (run_of self.old.world).mail.sent) (before + 1) link.old self.old.index result self.new.index link.new }
        ensures same { (self.new.world ≡ self.old.world) × (self.new.schedule ≡ self.old.schedule) }
    {
        let frames = &self.world.sent()[before..];
        hand_on(alloc, frames, before as u64, &mut self.index, link)
    }

    /// Records an event and applies it, and hands the messages that were sent by it to the link.
    fn take_event<L: Link, H: Hasher16, R: Threads + Sync>(
        &mut self,
        rt: &R,
        alloc: Global,
        event: ScheduleEvent,
        link: &mut L,
        hasher: &mut H,
    ) -> Result<(), Stop>
        requires step { IsInStep self.old (mail_before event (mail_in self.old)) }
        requires may { MayBeRecorded self.old.schedule.peers (mail_in self.old) event }
        ensures step { OnOk result (IsInStep self.new (mail_in self.new)) }
        ensures peers { OnOk result (self.new.schedule.peers ≡ self.old.schedule.peers) }
        ensures records { (w : Words) (first : Account) (a : L) (looks : List (Option (List ℕ))) (r : Recording)
            → Reached L.sent L.given L.fault_count w first a looks r self.old link.old
            (account H.kept H.clashes H.fulls hasher.old)
            → Records L.sent L.given L.fault_count w first a looks r event link.old result self.new link.new (account H.kept H.clashes H.fulls hasher.new) }
    {
        if self.is_full() {
            return Err(Stop::Lines);
        }
        let before = self.count();
        self.apply(rt, alloc, event, hasher)?;
        self.hand_over(alloc, before, link)?;
        Ok(())
    }

    /// Looks once at the link. If it gives the bytes of messages that wait, records the delivery of the
    /// oldest of them. Anything else records nothing.
    fn look<L: Link, H: Hasher16, R: Threads + Sync>(
        &mut self,
        rt: &R,
        alloc: Global,
        link: &mut L,
        hasher: &mut H,
    ) -> Result<(), Stop>
        requires { IsInStep self.old (mail_in self.old) }
        ensures step { OnOk result (IsInStep self.new (mail_in self.new)) }
        ensures peers { OnOk result (self.new.schedule.peers ≡ self.old.schedule.peers) }
        ensures hears { (w : Words) (first : Account) (a : L) (looks : List (Option (List ℕ))) (r : Recording)
            → Reached L.sent L.given L.fault_count w first a looks r self.old link.old
            (account H.kept H.clashes H.fulls hasher.old)
            → Hears L.sent L.given L.fault_count w first a 1 looks r link.old result self.new link.new (account H.kept H.clashes H.fulls hasher.new) }
    {
        let Some(bytes) = link.receive(alloc)? else {
            return Ok(());
        };
        let Some(message) = self.index.take(&Bytes::new(bytes)) else {
            return Ok(());
        };
        let event = ScheduleEvent::Deliver { message };
        self.take_event(rt, alloc, event, link, hasher)
    }

    /// Looks so many times at the link.
    fn turn<L: Link, H: Hasher16, R: Threads + Sync>(
        &mut self,
        rt: &R,
        alloc: Global,
        count: u32,
        link: &mut L,
        hasher: &mut H,
    ) -> Result<(), Stop>
        requires { IsInStep self.old (mail_in self.old) }
        ensures step { OnOk result (IsInStep self.new (mail_in self.new)) }
        ensures peers { OnOk result (self.new.schedule.peers ≡ self.old.schedule.peers) }
        ensures hears { (w : Words) (first : Account) (a : L) (looks : List (Option (List ℕ))) (r : Recording)
            → Reached L.sent L.given L.fault_count w first a looks r self.old link.old
            (account H.kept H.clashes H.fulls hasher.old)
            → Hears L.sent L.given L.fault_count w first a count looks r link.old result self.new link.new (account H.kept H.clashes H.fulls hasher.new) }
    {
        for _look in 0..count {
            self.look(rt, alloc, link, hasher)?;
        }
        Ok(())
    }

    /// Follows a line of a script.
    fn line<L: Link, H: Hasher16, R: Threads + Sync>(
        &mut self,
        rt: &R,
        alloc: Global,
        line: ScriptLine,
        link: &mut L,
        hasher: &mut H,
    ) -> Result<(), Stop>
        requires step { IsInStep self.old (mail_in self.old) }
        requires line { MayBeLine self.old.schedule.peers line }
        ensures step { OnOk result (IsInStep self.new (mail_in self.new)) }
        ensures peers { OnOk result (self.new.schedule.peers ≡ self.old.schedule.peers) }
        ensures follows { (w : Words) (first : Account) (a : L) (looks : List (Option (List ℕ))) (r : Recording)
            → Reached L.sent L.given L.fault_count w first a looks r self.old link.old
            (account H.kept H.clashes H.fulls hasher.old)
            → FollowsOn L.sent L.given L.fault_count w first a (line ∷ []) looks r link.old result self.new link.new (account H.kept H.clashes H.fulls hasher.new) }
    {
        match line {
            ScriptLine::Event(event) => self.take_event(rt, alloc, event, link, hasher),
            ScriptLine::Turn(count) => self.turn(rt, alloc, count, link, hasher),
        }
    }

    /// Starts the peers of a cluster, and follows a script to its end.
    ///
    /// # Errors
    ///
    /// The first reason why the run was stopped, in a line of the script or before the first one.
    pub(crate) fn follow<L: Link, H: Hasher16, R: Threads + Sync>(
        rt: &R,
        alloc: Global,
        words: &ClusterWords,
        script: Seq<ScriptLine>,
        link: &mut L,
        hasher: &mut H,
    ) -> Result<Recorder, Stop>
        requires words { IsCluster words.now }
        requires script { IsScript words.now.peers script }
        ensures { RecordsAll L.sent L.given L.fault_count words.now (account H.kept H.clashes H.fulls hasher.old) link.old script result link.new (account H.kept H.clashes H.fulls hasher.new) }
    {
        let mut recorder = Recorder::open(rt, alloc, words, hasher)?;
        for line in script.into_vec() {
            recorder.line(rt, alloc, line, link, hasher)?;
        }
        Ok(recorder)
    }

    /// Returns the record: what was recorded, the line `answers`, and the text of the run.
    pub(crate) fn text(&self, alloc: Global) -> Result<Vec<u8>, AllocError>
        ensures { IfOk result (λ v. (printed : List ℕ) × IsTextOfRun (run_of self.now.world) printed × (v.items ≡ record_text (schedule_text self.now.schedule) printed)) }
    {
        let Ok(mut text) = write_schedule(alloc, &self.schedule) else {
            return Err(AllocError);
        };
        text.extend_from_slice(b"answers\n")?;
        let printed = run_text(alloc, &self.world)?;
        text.extend_from_slice(printed.as_bytes())?;
        Ok(text)
    }
}
