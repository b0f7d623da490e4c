ghost use Rattle.std.specs.Prelude.{◌≡◌, IfOk, IfErr};
ghost use Rattle.ens_base.specs.View.{IsPeer};
ghost use Rattle.tree_node.specs.Positions.{IsPosition};
ghost use Rattle.peer_spec.specs.Drives.{after_put};
ghost use Rattle.peer_spec.specs.Owns.{found_at};
ghost use Rattle.peer_spec.specs.Syncs.{reached, body_of};

use ens_base::{Bytes, Entry, Epoch, PeerId};
use peer_state::{AskError, Question, given, tell_damage};
use phase_rows::{PhaseOut, Seen};
use std::alloc::Global;
use step_plans::{PeerError, Walked};
use tree_node::{TreeBody, TreeVersion};
use wire_frames::{Message, NackCause};

/// What rule 22 is shown of the entry of a key.
pub fn seen_at(walked: Walked<Option<Entry>>) -> Seen
    ensures { result ≡ found_at walked }
{
    match walked {
        Walked::Reached(entry) => Seen::Held {
            entry,
            object: None,
        },
        Walked::Broken(at) => Seen::Damaged(at),
    }
}

/// The answer to a put after the object was written, or damage was found on its path.
pub fn after_put(from: PeerId, ballot: Epoch, row: PhaseOut, seen: Seen) -> PhaseOut
    requires { IsPeer from }
    ensures { result ≡ after_put from ballot row seen }
{
    match seen {
        Seen::Damaged(at) => tell_damage(from, Message::Nack(ballot, NackCause::Damaged(at))),
        _ => row,
    }
}

/// The node, if the walk reached its position.
pub fn reached_node(walked: Walked<Option<Bytes>>) -> Option<Bytes>
    ensures { result ≡ reached walked }
{
    match walked {
        Walked::Reached(node) => node,
        Walked::Broken(_) => None,
    }
}

/// What a peer with a tree of this version sends of a node that it was asked for. Fails only when out of
/// memory.
pub fn body_given(
    alloc: Global,
    tree: TreeVersion,
    question: &Question,
    walked: Walked<Option<Bytes>>,
) -> Result<TreeBody, PeerError>
    requires { IsPosition tree question.now.position }
    ensures ok { IfOk result (λ b. b ≡ body_of tree question.now walked) }
    ensures memory { IfErr result (λ e. e ≡ PeerError.Memory) }
{
    match walked {
        Walked::Broken(at) => Ok(TreeBody::Damaged(at)),
        Walked::Reached(node) => match given(alloc, tree, &node, question) {
            Ok(body) => Ok(body),
            Err(_) => Err(PeerError::Memory),
        },
    }
}
