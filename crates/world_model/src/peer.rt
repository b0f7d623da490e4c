ghost use Rattle.ens_base.specs.View.{IsPeer};
ghost use Rattle.world_model.specs.MemNodes.{RunsAs};

use crate::node::MemNode;
use ens_base::PeerId;

/// A peer of a world.
#[derive(Drop)]
pub(crate) struct WorldPeer {
    pub(crate) me: PeerId,
    pub(crate) node: MemNode,
    ghost is_peer: { IsPeer me },
    ghost own: { RunsAs me node },
}
