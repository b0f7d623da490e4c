ghost use Rattle.std.specs.Prelude.{◌≡◌, ◌∷◌, [], IfErr, IfOk, OnOk};
ghost use Rattle.ens_base.specs.View.{IsView};
ghost use Rattle.fields.specs.Views.{view_spelling};
ghost use Rattle.world_spec.specs.Held.{HasHashed, account};
ghost use Rattle.ens_base.specs.declared.command.Command.TheVariants as commands;
ghost use Rattle.root_laws.specs.Lines.{ensemble_of as ensemble_in, own_event as own_of};
ghost use Rattle.root_laws.specs.Slots.{slot_key as key_of_slot, slot_of as slot_of_key};
ghost use Rattle.replay.specs.WorldModel.{IsCutOff, Memory};
ghost use Rattle.root.specs.Hashed.{routed_hashed};

use ens_base::{Bytes, Command, Key, LengthError, Value, View};
use fields::put_view;
use hash_book::{HashError, Hasher16};
use replay::WorldError;
use schedule_text::ScheduleEvent;
use scripts::{Ensemble, RootEvent};
use std::alloc::Global;

/// Returns the slot of a key: the first six bits of its MD5. The hasher takes the key.
fn slot_of<H: Hasher16>(alloc: Global, key: &Key, hasher: &mut H) -> Result<u8, WorldError>
    ensures slot { IfOk result (λ slot. slot ≡ slot_of_key key.now) }
    ensures hashed { OnOk result (HasHashed (key.now ∷ []) (account H.kept H.clashes H.fulls hasher.old) (account H.kept H.clashes H.fulls hasher.new)) }
    ensures error { IfErr result (IsCutOff (key.now ∷ []) (account H.kept H.clashes H.fulls hasher.old) (account H.kept H.clashes H.fulls hasher.new)) }
{
    match hasher.digest(alloc, key.bytes()) {
        Ok(digest) => Ok(digest.0[0] / 4),
        Err(HashError::Clash { first, second }) => Err(WorldError::Clash {
            first: Bytes::new(first),
            second: Bytes::new(second),
        }),
        Err(HashError::BookFull(kept)) => Err(WorldError::BookFull(kept)),
        Err(HashError::Memory) => Err(WorldError::Memory),
    }
}

/// Returns the ensemble on which an event acts. The hasher takes the key of a routed call.
pub(crate) fn ensemble_of<H: Hasher16>(
    alloc: Global,
    event: &RootEvent,
    hasher: &mut H,
) -> Result<Ensemble, WorldError>
    ensures ensemble { IfOk result (λ e. e ≡ ensemble_in event.now) }
    ensures hashed { OnOk result (HasHashed (routed_hashed event.now) (account H.kept H.clashes H.fulls hasher.old) (account H.kept H.clashes H.fulls hasher.new)) }
    ensures error { IfErr result (IsCutOff (routed_hashed event.now) (account H.kept H.clashes H.fulls hasher.old) (account H.kept H.clashes H.fulls hasher.new)) }
{
    match event {
        RootEvent::At { ensemble, .. } => Ok(*ensemble),
        RootEvent::Open { .. } | RootEvent::Look { .. } => Ok(Ensemble::Root),
        RootEvent::Route { key, .. } => Ok(Ensemble::Slot(slot_of(alloc, key, hasher)?)),
    }
}

/// Returns the key of a slot in the root: one byte. Fails only when out of memory.
fn slot_key(alloc: Global, slot: u8) -> Result<Key, WorldError>
    ensures key { IfOk result (λ key. key ≡ key_of_slot slot) }
    ensures memory { IfErr result (λ e. e ≡ Memory) }
{
    match Key::new(alloc, &[slot]) {
        Ok(key) => Ok(key),
        Err(LengthError::Memory) => Err(WorldError::Memory),
        Err(LengthError::Length(_)) => unreachable!(),
    }
}

/// Returns the bytes that spell a view. Fails only when out of memory.
fn spelling(alloc: Global, view: &View) -> Result<Vec<u8>, WorldError>
    ensures spelled { IfOk result (λ bytes. bytes.items ≡ view_spelling view.now) }
    ensures valid { IsView view.now }
    ensures memory { IfErr result (λ e. e ≡ Memory) }
{
    let mut bytes = Vec::new(alloc);
    match put_view(view, &mut bytes) {
        Ok(()) => Ok(bytes),
        Err(_) => Err(WorldError::Memory),
    }
}

/// Returns the command that opens a slot with a view, unless it is open: it puts the spelled view. Fails only
/// when out of memory.
fn opening_command(alloc: Global, view: &View) -> Result<Command, WorldError>
    ensures command { IfOk result (λ command. command ≡ commands.PutOnce (view_spelling view.now)) }
    ensures memory { IfErr result (λ e. e ≡ Memory) }
{
    let bytes = spelling(alloc, view)?;
    match Value::new(alloc, &bytes) {
        Ok(value) => Ok(Command::PutOnce(value)),
        Err(LengthError::Memory) => Err(WorldError::Memory),
        Err(LengthError::Length(_)) => unreachable!(),
    }
}

/// Returns what an event is in its ensemble. Fails only when out of memory.
pub(crate) fn own_event(alloc: Global, event: &RootEvent) -> Result<ScheduleEvent, WorldError>
    ensures event { IfOk result (λ own. own ≡ own_of event.now) }
    ensures memory { IfErr result (λ e. e ≡ Memory) }
{
    match event {
        RootEvent::At { event, .. } => Ok(event.copy(alloc)?),
        RootEvent::Open {
            peer,
            id,
            slot,
            view,
        } => Ok(ScheduleEvent::Call {
            peer: *peer,
            id: *id,
            key: slot_key(alloc, *slot)?,
            command: opening_command(alloc, view)?,
        }),
        RootEvent::Look { peer, id, slot } => Ok(ScheduleEvent::Call {
            peer: *peer,
            id: *id,
            key: slot_key(alloc, *slot)?,
            command: Command::Get,
        }),
        RootEvent::Route {
            peer,
            id,
            key,
            command,
        } => Ok(ScheduleEvent::Call {
            peer: *peer,
            id: *id,
            key: key.copy(alloc)?,
            command: command.copy(alloc)?,
        }),
    }
}
