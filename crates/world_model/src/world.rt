ghost use Rattle.std.specs.Prelude.{◌≤◌, length};
ghost use Rattle.network.specs.Mail.{most_messages};
ghost use Rattle.world_model.specs.Peers.{AreNumbered};

use crate::peer::WorldPeer;
use ens_base::{Key, PeerSet, View};
use history_scribe::Scribe;
use network::Network;
use register_model::Printed;
use schedule_text::Form;
use tree_node::TreeVersion;

/// Several peers over stores in memory, all messages sent between them, and their answers and
/// notes. At most 500,000 messages are sent.
#[derive(Drop)]
pub struct World {
    /// The view in which the ensemble of the peers opens.
    pub(crate) opening: View,
    /// The form of the ensemble, which says how its peers start before the first line.
    pub(crate) form: Form,
    /// The peers whose starts have sealing on.
    pub(crate) sealing: PeerSet,
    /// The version of the trees of the peers that start.
    pub(crate) tree: TreeVersion,
    /// The number, counted from 0, of the first message that is still given to its receiver.
    pub(crate) first_alive: usize,
    pub(crate) peers: Vec<WorldPeer>,
    pub(crate) network: Network,
    pub(crate) printed: Vec<Printed>,
    pub(crate) scribe: Scribe,
    /// The number of events applied.
    pub(crate) events: u64,
    /// The keys of the call lines applied.
    pub(crate) called: Vec<Key>,
    ghost numbered: { AreNumbered peers.items },
    ghost few: { length peers.items ≤ 31 },
    ghost within: { length network.sent ≤ most_messages },
}
