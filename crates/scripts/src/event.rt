ghost use Rattle.std.specs.Prelude.{◌≡◌};
ghost use Rattle.scripts.specs.Progress.{id_of};

use crate::slots::Ensemble;
use ens_base::{Command, Key, PeerId, View};
use schedule_text::ScheduleEvent;

/// An event of a script: one line.
#[derive(Debug, Drop)]
pub enum RootEvent {
    /// An event of one ensemble, which is no call. Nothing happens if the slot is not open.
    At {
        ensemble: Ensemble,
        event: ScheduleEvent,
    },
    /// A client asks a peer of the root to open the ensemble of a slot with this view.
    Open {
        peer: PeerId,
        id: u64,
        slot: u8,
        view: View,
    },
    /// A client asks a peer of the root for the view with which a slot is open.
    Look {
        peer: PeerId,
        id: u64,
        slot: u8,
    },
    /// A client calls a peer of the ensemble of the key's slot.
    Route {
        peer: PeerId,
        id: u64,
        key: Key,
        command: Command,
    },
}

impl RootEvent {
    /// The id of the call that the event is, if it is one. The ids of a script are distinct.
    pub fn id(&self) -> Option<u64>
        ensures { result ≡ id_of self.now }
    {
        match self {
            RootEvent::At { .. } => None,
            RootEvent::Open { id, .. } | RootEvent::Look { id, .. } | RootEvent::Route { id, .. } =>
                { Some(*id) }
        }
    }
}
