ghost use Rattle.std.specs.Prelude.{◌≡◌, ◌+◌, ◌++◌, ◌∷◌, [], IfOk, OnOk, option_map, map, Some};
ghost use Rattle.call_table.specs.Calls.{has_calls, waiting_on, running, without_running, older, due, not_due};
ghost use Rattle.call_table.specs.Slots.{present, unless_due, is_first, key_if, due_at, late_at, AreOf};
ghost use Rattle.call_table.specs.Late.{late_put_after};

use crate::places::Places;
use crate::rows::Rows;
use crate::waiting::{DueCall, Waiting};
use ens_base::{CopyError, Key};
use std::alloc::{AllocError, Global};
use std::marker::Model;
use std::mem::replace;

/// The unanswered calls, in order of arrival. A look-up by key takes logarithmic time, and so does the
/// removal of a running call.
#[derive(Drop)]
pub struct Calls {
    /// The calls, in order of arrival. The slot of a call that was removed is empty.
    slots: Vec<Option<Waiting>>,
    /// The places of the slots of each key.
    places: Places,
    /// The number of calls.
    count: usize,
}

impl Model for Calls {
    ghost use Rattle.std.specs.Prelude.{List};
    ghost use Rattle.call_table.specs.declared.waiting.Waiting.{Waiting as Call};

    ghost Value = { List Call };

    ghost use Rattle.call_table.specs.Slots.{present, AreKept};

    ghost view = { λ c. present c.slots.items };

    ghost invariant = { λ c. AreKept c.slots.items c.places c.count };
}

fn grow_older(slot: &mut Option<Waiting>)
    ensures { slot.new ≡ option_map older slot.old }
{
    if let Some(call) = slot {
        call.age = call.age.saturating_add(1);
    }
}

fn grow_all_older(slots: &mut [Option<Waiting>])
    ensures { slots.new ≡ map (option_map older) slots.old }
{
    for i in 0..slots.len() {
        grow_older(&mut slots[i]);
    }
}

fn empty_if_due(slot: &mut Option<Waiting>)
    ensures { slot.new ≡ unless_due slot.old }
{
    let is_due = match slot {
        Some(call) => call.is_due(),
        None => false,
    };
    if is_due {
        *slot = None;
    }
}

fn empty_all_due(slots: &mut [Option<Waiting>])
    ensures { slots.new ≡ map unless_due slots.old }
{
    for i in 0..slots.len() {
        empty_if_due(&mut slots[i]);
    }
}

/// Moves the call to the list.
fn add_to(slot: Option<Waiting>, calls: &mut Vec<Waiting>) -> Result<(), AllocError>
    ensures { OnOk result (calls.new.items ≡ calls.old.items ++ present (slot ∷ [])) }
{
    match slot {
        None => Ok(()),
        Some(call) => {
            calls.push(call)?;
            Ok(())
        }
    }
}

/// Whether this place is the first place of the key.
fn is_first(places: &Places, key: &Key, place: usize) -> bool
    ensures { result ≡ is_first places.now key.now place }
{
    match places.first(key) {
        None => false,
        Some(first) => first == place,
    }
}

/// Returns a copy of the key if the call at `place` is its running call. Fails only when out of
/// memory.
fn key_if_first(
    alloc: Global,
    places: &Places,
    key: &Key,
    place: usize,
) -> Result<Option<Key>, CopyError>
    ensures { IfOk result (λ k. k ≡ key_if (is_first places.now key.now place) key.now) }
{
    if is_first(places, key, place) {
        Ok(Some(key.copy(alloc)?))
    } else {
        Ok(None)
    }
}

/// Appends the call of the slot at `place` to `due` if it is due. Fails only when out of memory.
fn add_if_due(
    alloc: Global,
    places: &Places,
    place: usize,
    slot: &Option<Waiting>,
    due: &mut Vec<DueCall>,
) -> Result<(), CopyError>
    ensures { OnOk result (due.new.items ≡ due.old.items ++ due_at places.now place slot.now) }
{
    match slot {
        None => Ok(()),
        Some(call) => {
            if call.is_due() {
                due.push(DueCall {
                    from: call.from,
                    id: call.id,
                    running: key_if_first(alloc, places, &call.key, place)?,
                })?;
            }
            Ok(())
        }
    }
}

fn due_in(
    alloc: Global,
    slots: &[Option<Waiting>],
    places: &Places,
) -> Result<Vec<DueCall>, CopyError>
    requires { AreOf slots.now places.now }
    ensures { IfOk result (λ ds. ds.items ≡ due (present slots.now)) }
{
    let mut due = Vec::new(alloc);
    for i in 0..slots.len() {
        add_if_due(alloc, places, i, &slots[i], &mut due)?;
    }
    Ok(due)
}

/// Whether the call of the slot at `place` is a running call that is due and has a put that is not
/// settled.
fn is_late(rows: &Rows, places: &Places, place: usize, slot: &Option<Waiting>) -> bool
    ensures { result ≡ late_at rows.now places.now place slot.now }
{
    match slot {
        None => false,
        Some(call) => {
            call.is_due() && is_first(places, &call.key, place) && rows.has_put(&call.key)
        }
    }
}

fn is_put_late(slots: &[Option<Waiting>], places: &Places, rows: &Rows) -> bool
    requires { AreOf slots.now places.now }
    ensures { result ≡ late_put_after rows.now [] (present slots.now) }
{
    for i in 0..slots.len() {
        if is_late(rows, places, i, &slots[i]) {
            return true;
        }
    }
    false
}

impl Calls {
    /// Makes an empty list.
    pub fn new(alloc: Global) -> Calls
        ensures { result ≡ [] }
    {
        Calls {
            slots: Vec::new(alloc),
            places: Places::new(alloc),
            count: 0,
        }
    }

    /// Whether any call is unanswered.
    pub fn any(&self) -> bool
        ensures { result ≡ has_calls self.now }
    {
        self.count > 0
    }

    /// Returns the number of calls on the key.
    pub fn waiting_on(&self, key: &Key) -> usize
        ensures { result ≡ waiting_on key.now self.now }
    {
        let places = &self.places;
        places.count(key)
    }

    /// Returns the running call of the key, if there is one.
    pub fn running(&self, key: &Key) -> Option<&Waiting>
        ensures { running key.now self.now ≡ option_map (λ w. w.now) result }
    {
        let Some(place) = self.places.first(key) else {
            return None;
        };
        self.slots[place].as_ref()
    }

    /// Adds a call at the end, in a new slot. Fails only when out of memory.
    fn append(&mut self, alloc: Global, call: Waiting) -> Result<(), CopyError>
        ensures { OnOk result (self.new ≡ self.old ++ call ∷ []) }
    {
        let key = call.key.copy(alloc)?;
        self.slots.reserve(1)?;
        self.places.push(alloc, key, self.slots.len())?;
        self.slots.push(Some(call)).unwrap();
        self.count += 1;
        Ok(())
    }

    /// Appends the call of a slot, if it has one.
    fn append_slot(&mut self, alloc: Global, slot: Option<Waiting>) -> Result<(), CopyError>
        ensures { OnOk result (self.new ≡ self.old ++ present (slot ∷ [])) }
    {
        match slot {
            None => Ok(()),
            Some(call) => self.append(alloc, call),
        }
    }

    /// Makes the list of the calls in these slots.
    #[tactic(auto, using(crate::proofs::Slots::present_split))]
    fn of_slots(alloc: Global, slots: Vec<Option<Waiting>>) -> Result<Calls, CopyError>
        ensures { IfOk result (λ c. c ≡ present slots.items) }
    {
        let mut calls = Calls::new(alloc);
        for slot in slots {
            calls.append_slot(alloc, slot)?;
        }
        Ok(calls)
    }

    /// Removes the empty slots. Fails only when out of memory.
    fn compact(&mut self, alloc: Global) -> Result<(), CopyError>
        ensures { OnOk result (self.new ≡ self.old) }
    {
        let Calls {
            slots,
            places: _places,
            count: _,
        } = replace(self, Calls::new(alloc));
        *self = Calls::of_slots(alloc, slots)?;
        Ok(())
    }

    /// Whether at least half of the slots are empty, and at least 16 of them.
    fn is_sparse(&self) -> bool {
        self.slots.len() / 2 >= self.count.saturating_add(8)
    }

    /// Adds a call at the end. Fails only when out of memory.
    pub fn push(&mut self, alloc: Global, call: Waiting) -> Result<(), CopyError>
        ensures { OnOk result (self.new ≡ self.old ++ call ∷ []) }
    {
        if self.is_sparse() {
            self.compact(alloc)?;
        }
        self.append(alloc, call)
    }

    /// Removes the running call of the key and returns it.
    pub fn take_running(&mut self, key: &Key) -> Option<Waiting>
        ensures calls { self.new ≡ without_running key.now self.old }
        ensures call { result ≡ running key.now self.old }
    {
        let Some(place) = self.places.first(key) else {
            return None;
        };
        self.places.remove_first(key);
        self.count -= 1;
        self.slots[place].take()
    }

    /// Adds one tick to the age of each call, up to 255.
    pub fn grow_older(&mut self)
        ensures { self.new ≡ map older self.old }
    {
        grow_all_older(&mut self.slots);
    }

    /// Returns the calls that are due. Fails only when out of memory.
    pub fn due(&self, alloc: Global) -> Result<Vec<DueCall>, CopyError>
        ensures { IfOk result (λ ds. ds.items ≡ due self.now) }
    {
        due_in(alloc, &self.slots, &self.places)
    }

    /// Whether a running call that is due has a put that is not settled.
    pub fn has_late_put(&self, rows: &Rows) -> bool
        ensures { result ≡ late_put_after rows.now [] self.now }
    {
        is_put_late(&self.slots, &self.places, rows)
    }

    /// Removes the calls that are due. Fails only when out of memory.
    pub fn drop_due(&mut self, alloc: Global) -> Result<(), CopyError>
        ensures { OnOk result (self.new ≡ not_due self.old) }
    {
        let Calls {
            slots,
            places: _places,
            count: _,
        } = replace(self, Calls::new(alloc));
        let mut slots = slots;
        empty_all_due(&mut slots);
        *self = Calls::of_slots(alloc, slots)?;
        Ok(())
    }

    /// Returns the calls, in order of arrival. Fails only when out of memory.
    #[tactic(auto, using(crate::proofs::Slots::present_split))]
    pub fn into_vec(self, alloc: Global) -> Result<Vec<Waiting>, AllocError>
        ensures { IfOk result (λ v. v.items ≡ self) }
    {
        let Calls {
            slots,
            places: _places,
            count: _,
        } = self;
        let mut calls = Vec::new(alloc);
        for slot in slots {
            add_to(slot, &mut calls)?;
        }
        Ok(calls)
    }
}
