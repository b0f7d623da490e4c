ghost use Rattle.std.specs.Prelude.{◌≡◌, ◌≢◌, ◌++◌, ◌+◌, ◌<◌, ◌≤◌, None, Some, Err, drop, length, map, slice_get, IfErr, IfOk, OnOk, string_bytes};
ghost use Rattle.std.specs.BTreeMap.{get};
ghost use Rattle.std.specs.List.{flat_map};
ghost use Rattle.std.specs.Ordering.{nat_cmp};
ghost use Rattle.world_spec.specs.Held.{account, HasHashed};
ghost use Rattle.root_laws.specs.Lines.{ensemble_of as ensemble_in, own_event as own_of};
ghost use Rattle.register_model.specs.declared.printed.Printed.{Printed};
ghost use Rattle.root_laws.specs.Runs.{by};
ghost use Rattle.root_laws.specs.Steps.{Roots, at_first, in_root, in_slot, open_lines, open_slot, refusal, step};
ghost use Rattle.root_laws.specs.Text.{printed_line};
ghost use Rattle.scripts.specs.Spelling.{IsScript, MayStand as MayBeLine};
ghost use Rattle.scripts.specs.declared.event.RootEvent.{RootEvent as RootLine};
ghost use Rattle.scripts.specs.declared.slots.Ensemble.TheVariants.{Root, Slot};
ghost use Rattle.schedule_text.specs.Spelling.{MayStand};
ghost use Rattle.replay.specs.WorldModel.{IsCutOff, Reaches, run_of};
ghost use Rattle.world_model.specs.Turns.{StopsAmong, turn, turns_of};
ghost use Rattle.world_spec.specs.Lines.{applied};
ghost use Rattle.world_spec.specs.Runs.{opening_run, unhashed};
ghost use Rattle.root.specs.Ends.{PassesWith, StopsEvent, StopsLine};
ghost use Rattle.root.specs.Hashed.{line_hashed, opened_hashed, opened_since, own_hashed};
ghost use Rattle.root.specs.Standing.{ArePlaces, Goes, Stands, Stood, line_at, open_line};
ghost use Rattle.root.specs.Worlds.{events_in, newest, worlds};

use crate::opening::told_by;
use crate::routing::{ensemble_of, own_event};
use crate::text::{push_answer, push_lines};
use ens_base::{Reply, Seq, View};
use hash_book::Hasher16;
use replay::{World, WorldError};
use schedule_text::{Form, Schedule, ScheduleEvent};
use scripts::{Ensemble, RootEvent, RootScript};
use std::alloc::Global;
use std::collections::BTreeMap;
use std::thread::Threads;

/// The root, the ensembles of the slots that are open, and what they printed.
#[derive(Drop)]
pub(crate) struct RootWorlds {
    pub root: World,
    /// The world of each slot that is open.
    pub slots: BTreeMap<u8, World>,
    /// These slots in the order in which they opened: each with its view, and the number of the event.
    pub opened: Vec<(u8, View, u32)>,
    pub text: String,
}

/// Opens the world of an ensemble of so many peers, of the newest form.
fn open_world<H: Hasher16, R: Threads + Sync>(
    rt: &R,
    alloc: Global,
    peers: u32,
    view: View,
    hasher: &mut H,
) -> Result<World, WorldError>
    requires { peers ≤ 31 }
    ensures ok { IfOk result (λ w. run_of w ≡ unhashed (opening_run newest peers view)) }
    ensures hashed { OnOk result (HasHashed (opening_run newest peers view).hashed (account H.kept H.clashes H.fulls hasher.old) (account H.kept H.clashes H.fulls hasher.new)) }
    ensures error { IfErr result (IsCutOff (opening_run newest peers view).hashed (account H.kept H.clashes H.fulls hasher.old) (account H.kept H.clashes H.fulls hasher.new)) }
{
    let opening = Schedule {
        form: Form::Three,
        peers,
        view,
        events: Seq::new(Vec::new(alloc)),
    };
    World::open(rt, alloc, &opening, hasher)
}

/// Applies an event to a world, and appends the lines that this prints, with the number of the event in the
/// script. Returns how many lines the world had printed before.
fn apply_in<H: Hasher16, R: Threads + Sync>(
    rt: &R,
    alloc: Global,
    world: &mut World,
    ensemble: Ensemble,
    number: u32,
    event: &ScheduleEvent,
    text: &mut String,
    hasher: &mut H,
) -> Result<usize, WorldError>
    requires { MayStand (length world.old.peers.items) event.now }
    ensures reaches { Reaches (account H.kept H.clashes H.fulls hasher.old) (applied event.now (run_of world.old)) result (run_of world.new) (account H.kept H.clashes H.fulls hasher.new) }
    ensures stops { IfErr result (StopsAmong (turns_of event.now) (turn event.now) (run_of world.old) (account H.kept H.clashes H.fulls hasher.old) (account H.kept H.clashes H.fulls hasher.new)) }
    ensures before { IfOk result (λ n. n ≡ length (run_of world.old).printed) }
    ensures text { OnOk result (string_bytes text.new ≡ string_bytes text.old ++ flat_map (line_at number ensemble) (drop (length (run_of world.old).printed) (run_of world.new).printed)) }
{
    let before = world.printed().len();
    world.apply(rt, alloc, event, hasher)?;
    push_lines(alloc, text, ensemble, number, &world.printed()[before..])?;
    Ok(before)
}

/// Answers a call of a slot that is not open; any other event there has no effect.
fn refuse(
    alloc: Global,
    text: &mut String,
    slot: u8,
    number: u32,
    event: &ScheduleEvent,
) -> Result<(), WorldError>
    ensures text { OnOk result (string_bytes text.new ≡ string_bytes text.old ++ flat_map printed_line (map (by (Slot slot)) (refusal number event.now))) }
    ensures memory { IfErr result (λ e. e ≡ WorldError.Memory) }
{
    if let ScheduleEvent::Call { id, .. } = event {
        push_answer(alloc, text, *id, number, &Reply::Unavailable)?;
    }
    Ok(())
}

impl RootWorlds {
    /// Opens the root.
    pub fn open<H: Hasher16, R: Threads + Sync>(
        rt: &R,
        alloc: Global,
        script: &RootScript,
        hasher: &mut H,
    ) -> Result<RootWorlds, WorldError>
        requires { IsScript script.now }
        ensures stands { IfOk result (Stands script.now at_first) }
        ensures hashed { OnOk result (HasHashed (opening_run newest script.now.peers script.now.view).hashed
            (account H.kept H.clashes H.fulls hasher.old) (account H.kept H.clashes H.fulls hasher.new)) }
        ensures error { IfErr result (IsCutOff (opening_run newest script.now.peers script.now.view).hashed
            (account H.kept H.clashes H.fulls hasher.old) (account H.kept H.clashes H.fulls hasher.new)) }
    {
        Ok(RootWorlds {
            root: open_world(rt, alloc, script.peers, script.view, hasher)?,
            slots: BTreeMap::new(alloc),
            opened: Vec::new(alloc),
            text: String::new(alloc),
        })
    }

    /// Opens a slot with a view, unless it is open.
    fn open_slot<H: Hasher16, R: Threads + Sync>(
        &mut self,
        rt: &R,
        alloc: Global,
        script: &RootScript,
        number: u32,
        slot: u8,
        view: View,
        hasher: &mut H,
    ) -> Result<(), WorldError>
        requires { IsScript script.now }
        ensures root { self.new.root ≡ self.old.root }
        ensures goes { (r : Roots) → Stands script.now r self.old
            → Goes script.now (open_slot number slot view (r.slots slot) r)
            (opened_hashed script.now (opened_since r (open_slot number slot view (r.slots slot) r))) (Unit {0})
            (account H.kept H.clashes H.fulls hasher.old) (account H.kept H.clashes H.fulls hasher.new) self.new
            result }
        ensures error { result ≢ Err WorldError.MessageLimit }
    {
        if self.slots.contains_key(&slot) {
            Ok(())
        } else {
            self.open_new(rt, alloc, script, number, slot, view, hasher)
        }
    }

    /// Opens a slot that is not open, with a view.
    fn open_new<H: Hasher16, R: Threads + Sync>(
        &mut self,
        rt: &R,
        alloc: Global,
        script: &RootScript,
        number: u32,
        slot: u8,
        view: View,
        hasher: &mut H,
    ) -> Result<(), WorldError>
        requires script { IsScript script.now }
        requires shut { get nat_cmp self.old.slots slot ≡ None }
        ensures root { self.new.root ≡ self.old.root }
        ensures goes { (r : Roots) → Stands script.now r self.old
            → Goes script.now (open_slot number slot view (r.slots slot) r)
            (opened_hashed script.now (opened_since r (open_slot number slot view (r.slots slot) r))) (Unit {0})
            (account H.kept H.clashes H.fulls hasher.old) (account H.kept H.clashes H.fulls hasher.new) self.new
            result }
        ensures error { result ≢ Err WorldError.MessageLimit }
    {
        let world = open_world(rt, alloc, script.peers, view, hasher)?;
        self.slots.insert(slot, world)?;
        self.opened.push((slot, view, number))?;
        Ok(())
    }

    /// Opens the slot that the line of the root at this place says is open.
    fn open_by<H: Hasher16, R: Threads + Sync>(
        &mut self,
        rt: &R,
        alloc: Global,
        script: &RootScript,
        places: &BTreeMap<u64, usize>,
        number: u32,
        place: usize,
        hasher: &mut H,
    ) -> Result<(), WorldError>
        requires script { IsScript script.now }
        requires places { ArePlaces script.now.events places.now }
        requires place { place < length (run_of self.old.root).printed }
        ensures root { self.new.root ≡ self.old.root }
        ensures goes { (r : Roots) (line : Printed) → slice_get (run_of self.old.root).printed place ≡ Some line
            → Stands script.now r self.old
            → Goes script.now (open_line script.now.events number line r)
            (opened_hashed script.now (opened_since r (open_line script.now.events number line r))) (Unit {0})
            (account H.kept H.clashes H.fulls hasher.old) (account H.kept H.clashes H.fulls hasher.new) self.new
            result }
        ensures error { result ≢ Err WorldError.MessageLimit }
    {
        match told_by(script, places, &self.root.printed()[place]) {
            Some((slot, view)) => self.open_slot(rt, alloc, script, number, slot, view, hasher),
            None => Ok(()),
        }
    }

    /// Opens the slots that the lines of the root behind the first ones say are open.
    fn open_told<H: Hasher16, R: Threads + Sync>(
        &mut self,
        rt: &R,
        alloc: Global,
        script: &RootScript,
        places: &BTreeMap<u64, usize>,
        number: u32,
        before: usize,
        hasher: &mut H,
    ) -> Result<(), WorldError>
        requires script { IsScript script.now }
        requires places { ArePlaces script.now.events places.now }
        ensures goes { (r : Roots) → Stands script.now r self.old
            → Goes script.now (open_lines script.now.events number (drop before (run_of self.old.root).printed) r)
            (opened_hashed script.now
            (opened_since r (open_lines script.now.events number (drop before (run_of self.old.root).printed) r)))
            (Unit {0}) (account H.kept H.clashes H.fulls hasher.old) (account H.kept H.clashes H.fulls hasher.new)
            self.new result }
        ensures error { result ≢ Err WorldError.MessageLimit }
    {
        for place in before..self.root.printed().len() {
            self.open_by(rt, alloc, script, places, number, place, hasher)?;
        }
        Ok(())
    }

    /// Applies an event to the root, and opens the slots that its answers say are open.
    fn apply_in_root<H: Hasher16, R: Threads + Sync>(
        &mut self,
        rt: &R,
        alloc: Global,
        script: &RootScript,
        places: &BTreeMap<u64, usize>,
        number: u32,
        event: &ScheduleEvent,
        hasher: &mut H,
    ) -> Result<(), WorldError>
        requires script { IsScript script.now }
        requires places { ArePlaces script.now.events places.now }
        requires event { MayStand script.now.peers event.now }
        requires stood { Stood script.now self.old }
        ensures goes { (r : Roots) → Stands script.now r self.old
            → Goes script.now (in_root worlds script.now number event.now r)
            (own_hashed script.now event.now (events_in script.now r Root)
            ++ opened_hashed script.now (opened_since r (in_root worlds script.now number event.now r)))
            (PassesWith script.now r Root event.now) (account H.kept H.clashes H.fulls hasher.old)
            (account H.kept H.clashes H.fulls hasher.new) self.new result }
        ensures stops { (r : Roots) → Stands script.now r self.old
            → IfErr result (StopsEvent script.now r (in_root worlds script.now number event.now r) Root event.now
            (account H.kept H.clashes H.fulls hasher.old) (account H.kept H.clashes H.fulls hasher.new)) }
    {
        let before = apply_in(
            rt,
            alloc,
            &mut self.root,
            Ensemble::Root,
            number,
            event,
            &mut self.text,
            hasher,
        )?;
        self.open_told(rt, alloc, script, places, number, before, hasher)
    }

    /// Applies an event to the ensemble of a slot. If the slot is not open, answers a call with `unavailable`, and
    /// does nothing else.
    fn apply_in_slot<H: Hasher16, R: Threads + Sync>(
        &mut self,
        rt: &R,
        alloc: Global,
        script: &RootScript,
        slot: u8,
        number: u32,
        event: &ScheduleEvent,
        hasher: &mut H,
    ) -> Result<(), WorldError>
        requires event { MayStand script.now.peers event.now }
        requires stood { Stood script.now self.old }
        ensures goes { (r : Roots) → Stands script.now r self.old
            → Goes script.now (in_slot worlds script.now number slot event.now (r.slots slot) r)
            (own_hashed script.now event.now (events_in script.now r (Slot slot)))
            (PassesWith script.now r (Slot slot) event.now) (account H.kept H.clashes H.fulls hasher.old)
            (account H.kept H.clashes H.fulls hasher.new) self.new result }
        ensures stops { (r : Roots) → Stands script.now r self.old
            → IfErr result (StopsEvent script.now r
            (in_slot worlds script.now number slot event.now (r.slots slot) r) (Slot slot) event.now
            (account H.kept H.clashes H.fulls hasher.old) (account H.kept H.clashes H.fulls hasher.new)) }
    {
        match self.slots.get_mut(&slot) {
            Some(world) => {
                apply_in(
                    rt,
                    alloc,
                    world,
                    Ensemble::Slot(slot),
                    number,
                    event,
                    &mut self.text,
                    hasher,
                )?;
                Ok(())
            }
            None => refuse(alloc, &mut self.text, slot, number, event),
        }
    }

    /// Applies a line of the script, which has this number.
    fn apply_line<H: Hasher16, R: Threads + Sync>(
        &mut self,
        rt: &R,
        alloc: Global,
        script: &RootScript,
        places: &BTreeMap<u64, usize>,
        number: u32,
        event: &RootEvent,
        hasher: &mut H,
    ) -> Result<(), WorldError>
        requires script { IsScript script.now }
        requires places { ArePlaces script.now.events places.now }
        requires event { MayBeLine script.now.peers event.now }
        requires stood { Stood script.now self.old }
        ensures goes { (r : Roots) → Stands script.now r self.old
            → Goes script.now (step worlds script.now number event.now r)
            (line_hashed script.now number event.now r)
            (PassesWith script.now r (ensemble_in event.now) (own_of event.now))
            (account H.kept H.clashes H.fulls hasher.old) (account H.kept H.clashes H.fulls hasher.new) self.new
            result }
        ensures stops { (r : Roots) → Stands script.now r self.old
            → IfErr result (StopsLine script.now number event.now r (account H.kept H.clashes H.fulls hasher.old)
            (account H.kept H.clashes H.fulls hasher.new)) }
    {
        let own = own_event(alloc, event)?;
        match ensemble_of(alloc, event, hasher)? {
            Ensemble::Root => self.apply_in_root(rt, alloc, script, places, number, &own, hasher),
            Ensemble::Slot(slot) => {
                self.apply_in_slot(rt, alloc, script, slot, number, &own, hasher)
            }
        }
    }

    /// Applies the line of the script at this place.
    pub fn apply<H: Hasher16, R: Threads + Sync>(
        &mut self,
        rt: &R,
        alloc: Global,
        script: &RootScript,
        places: &BTreeMap<u64, usize>,
        place: usize,
        hasher: &mut H,
    ) -> Result<(), WorldError>
        requires script { IsScript script.now }
        requires places { ArePlaces script.now.events places.now }
        requires place { place < length script.now.events }
        requires stood { Stood script.now self.old }
        ensures goes { (r : Roots) (line : RootLine) → slice_get script.now.events place ≡ Some line
            → Stands script.now r self.old
            → Goes script.now (step worlds script.now (place + 1) line r)
            (line_hashed script.now (place + 1) line r) (PassesWith script.now r (ensemble_in line) (own_of line))
            (account H.kept H.clashes H.fulls hasher.old) (account H.kept H.clashes H.fulls hasher.new) self.new
            result }
        ensures stops { (r : Roots) (line : RootLine) → slice_get script.now.events place ≡ Some line
            → Stands script.now r self.old
            → IfErr result (StopsLine script.now (place + 1) line r (account H.kept H.clashes H.fulls hasher.old)
            (account H.kept H.clashes H.fulls hasher.new)) }
    {
        let number = place as u32 + 1;
        let event = &script.events.as_slice()[place];
        self.apply_line(rt, alloc, script, places, number, event, hasher)
    }
}
