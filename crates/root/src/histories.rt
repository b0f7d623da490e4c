ghost use Rattle.std.specs.Prelude.{◌≡◌, IfOk, OnOk, List, [], ◌∷◌, ◌++◌, None, map};
ghost use Rattle.std.specs.BTreeMap.{IsOrdered, get};
ghost use Rattle.std.specs.Ordering.{nat_cmp};
ghost use Rattle.ens_base.specs.Lists.{bytes_cmp};
ghost use Rattle.register_model.specs.declared.history.History.{History as AHistory};
ghost use Rattle.root_laws.specs.Text.{keys_in};
ghost use Rattle.root.specs.Histories.{AreCalls, AreEmptyHistories, calls_in, filled, order_by, orders_by};

use ens_base::{Key, Seq};
use history_scribe::Scribe;
use register_model::History;
use replay::World;
use scripts::{RootEvent, RootScript};
use std::alloc::{AllocError, Global};
use std::collections::BTreeMap;

/// Appends the key of a routed call, and nothing for another event.
fn push_key(alloc: Global, keys: &mut Vec<Key>, event: &RootEvent) -> Result<(), AllocError>
    ensures { OnOk result (keys.new.items ≡ keys.old.items ++ keys_in (event.now ∷ [])) }
{
    match event {
        RootEvent::Route { key, .. } => {
            keys.push(key.copy(alloc)?)?;
            Ok(())
        }
        _ => Ok(()),
    }
}

/// Returns the keys of the routed calls, in the order of the script.
fn routed_keys(alloc: Global, script: &RootScript) -> Result<Vec<Key>, AllocError>
    ensures { IfOk result (λ keys. keys.items ≡ keys_in script.now.events) }
{
    let mut keys = Vec::new(alloc);
    for event in script.events.as_slice() {
        push_key(alloc, &mut keys, event)?;
    }
    Ok(keys)
}

/// Returns an empty history for each routed key, the keys ascending.
fn empty_histories(alloc: Global, script: &RootScript) -> Result<Vec<History>, AllocError>
    ensures { IfOk result (λ v. AreEmptyHistories (keys_in script.now.events) v.items) }
{
    let keys = routed_keys(alloc, script)?;
    Scribe::new(alloc).histories(alloc, &keys)
}

/// Keeps the calls of these histories, by their keys.
fn keep_calls(
    calls: &mut BTreeMap<Key, Seq<u64>>,
    histories: Vec<History>,
) -> Result<(), AllocError>
    ensures { OnOk result (AreCalls calls.new (λ key. calls_in histories.items key (get bytes_cmp calls.old key))) }
{
    for history in histories {
        let History { key, calls: ids } = history;
        calls.insert(key, ids)?;
    }
    Ok(())
}

/// Keeps the calls on each key that a world knows, in the order of its history.
fn keep_orders(
    alloc: Global,
    calls: &mut BTreeMap<Key, Seq<u64>>,
    world: &World,
) -> Result<(), AllocError>
    ensures { OnOk result (AreCalls calls.new (λ key. order_by world.now key (get bytes_cmp calls.old key))) }
{
    keep_calls(calls, world.histories(alloc)?)
}

/// Returns the calls on each key that a world knows, in the order of its history.
fn orders_of(
    alloc: Global,
    slots: &BTreeMap<u8, World>,
) -> Result<BTreeMap<Key, Seq<u64>>, AllocError>
    ensures calls { IfOk result (λ calls. AreCalls calls (λ key. orders_by slots.now.entries key None)) }
    ensures ordered { OnOk result (IsOrdered nat_cmp slots.now) }
{
    let mut calls = BTreeMap::new(alloc);
    for (_slot, world) in slots {
        keep_orders(alloc, &mut calls, world)?;
    }
    Ok(calls)
}

/// Returns the history of a key with these calls.
fn fill(
    alloc: Global,
    calls: &BTreeMap<Key, Seq<u64>>,
    history: &History,
) -> Result<History, AllocError>
    ensures { IfOk result (λ h. h ≡ filled (get bytes_cmp calls.now) history.now) }
{
    let key = history.key.copy(alloc)?;
    let ids = match calls.get(&history.key) {
        Some(ids) => Vec::from_slice(alloc, ids.as_slice())?,
        None => Vec::from_slice(alloc, history.calls.as_slice())?,
    };
    Ok(History {
        key,
        calls: Seq::new(ids),
    })
}

/// Returns a history for each routed key, the keys ascending: that of the world of its slot, and no call if none
/// on the key came to that world.
pub(crate) fn key_histories(
    alloc: Global,
    script: &RootScript,
    slots: &BTreeMap<u8, World>,
) -> Result<Vec<History>, AllocError>
    ensures histories { IfOk result (λ v. (empty : List AHistory)
        × AreEmptyHistories (keys_in script.now.events) empty
        × (v.items ≡ map (filled (λ key. orders_by slots.now.entries key None)) empty)) }
    ensures ordered { OnOk result (IsOrdered nat_cmp slots.now) }
{
    let calls = orders_of(alloc, slots)?;
    let empty = empty_histories(alloc, script)?;
    let mut histories = Vec::new(alloc);
    for history in &empty {
        histories.push(fill(alloc, &calls, history)?)?;
    }
    Ok(histories)
}
