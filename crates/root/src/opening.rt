ghost use Rattle.std.specs.Prelude.{◌≡◌, IfOk};
ghost use Rattle.root_laws.specs.Openings.{of_slot, told as told_of};
ghost use Rattle.root_laws.specs.Slots.{view_of_bytes as view_spelled};
ghost use Rattle.root.specs.Standing.{ArePlaces, told_in};

use ens_base::{Reply, View};
use fields::take_view;
use register_model::Printed;
use scripts::{RootEvent, RootScript};
use std::alloc::{AllocError, Global};
use std::collections::BTreeMap;

/// Returns the place of each call of the script, by its id.
pub(crate) fn places_of(
    alloc: Global,
    script: &RootScript,
) -> Result<BTreeMap<u64, usize>, AllocError>
    ensures { IfOk result (ArePlaces script.now.events) }
{
    let mut places = BTreeMap::new(alloc);
    let events = script.events.as_slice();
    let mut place = events.len();
    while place > 0 {
        place -= 1;
        if let Some(id) = events[place].id() {
            places.insert(id, place)?;
        }
    }
    Ok(places)
}

/// Returns the view that bytes spell, if they spell one.
fn view_of_bytes(bytes: &[u8]) -> Option<View>
    ensures { result ≡ view_spelled bytes.now }
{
    match take_view(bytes, 0) {
        Ok((view, end)) => if end == bytes.len() { Some(view) } else { None },
        Err(_) => None,
    }
}

/// Returns a slot with the view that bytes spell, if they spell one.
fn look_told(slot: u8, bytes: &[u8]) -> Option<(u8, View)>
    ensures { result ≡ of_slot slot (view_spelled bytes.now) }
{
    match view_of_bytes(bytes) {
        Some(view) => Some((slot, view)),
        None => None,
    }
}

/// Returns the slot that is open, as the reply to an event says, and the view with which it is.
fn told(event: &RootEvent, reply: &Reply) -> Option<(u8, View)>
    ensures { result ≡ told_of event.now reply.now }
{
    match event {
        RootEvent::Open { slot, view, .. } => match reply {
            Reply::Ok(_stamp) => Some((*slot, *view)),
            _ => None,
        },
        RootEvent::Look { slot, .. } => match reply {
            Reply::Value(_stamp, value) => look_told(*slot, value.bytes()),
            _ => None,
        },
        _ => None,
    }
}

/// Returns the same of a line that the root printed.
pub(crate) fn told_by(
    script: &RootScript,
    places: &BTreeMap<u64, usize>,
    line: &Printed,
) -> Option<(u8, View)>
    requires { ArePlaces script.now.events places.now }
    ensures { result ≡ told_in script.now.events line.now }
{
    match line {
        Printed::Answer(answer) => {
            let place = places.get(&answer.id)?;
            told(script.events.as_slice().get(*place)?, &answer.reply)
        }
        Printed::Change { .. } => None,
    }
}
