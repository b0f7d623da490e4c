ghost use Rattle.std.specs.Prelude.{◌≡◌, ◌⊎◌, ◌<◌, ◌≤◌, ◌+◌, map, length, All, OnOk, IfErr, IsErrOf};
ghost use Rattle.ens_base.specs.View.{IsPeer};
ghost use Rattle.world_spec.specs.Held.{StartsWith};
ghost use Rattle.world_spec.specs.PeerSpec.{MaySend};
ghost use Rattle.network.specs.Mail.{most_messages};
ghost use Rattle.world_spec.specs.Runs.{frame_from, posted_all};

use crate::error::WorldError;
use ens_base::PeerId;
use network::Network;
use step_plans::Outgoing;
use wire_frames::Frame;

/// Sends the messages of the peer `from` in order, and stops at the first that cannot be sent.
pub(crate) fn post_all(
    network: &mut Network,
    from: PeerId,
    sends: Vec<Outgoing>,
) -> Result<(), WorldError>
    requires from { IsPeer from }
    requires sends { All (MaySend from) sends.items }
    ensures ok { OnOk result (network.new ≡ posted_all (map (frame_from from) sends.items) network.old) }
    ensures limit { IsErrOf result WorldError.MessageLimit → most_messages < length network.old.sent + length sends.items }
    ensures within { length network.old.sent ≤ most_messages → length network.new.sent ≤ most_messages }
    ensures begins { StartsWith network.old.sent network.new.sent }
    ensures error { IfErr result (λ e. (e ≡ WorldError.MessageLimit) ⊎ (e ≡ WorldError.Memory)) }
{
    for outgoing in sends {
        let Outgoing { to, message } = outgoing;
        network.send(Frame {
            from: from.0,
            to: to.0,
            message,
        })?;
    }
    Ok(())
}
