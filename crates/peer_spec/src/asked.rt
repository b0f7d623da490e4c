ghost use Rattle.std.specs.Prelude.{◌≡◌, true, IfOk, IfErr};
ghost use Rattle.tree_node.specs.declared.version.TreeVersion.TheVariants.{Two};
ghost use Rattle.tree_node.specs.Positions.{IsPosition};
ghost use Rattle.peer_spec.specs.Drives.{own_key};
ghost use Rattle.peer_spec.specs.Syncs.{needs_node};
ghost use Rattle.peer_spec.specs.TreeCalls.{has_position};

use ens_base::{Epoch, Key, PeerId, copy_key};
use leader_output::Own;
use peer_state::{Give, Question, State};
use std::alloc::Global;
use step_plans::PeerError;
use tree_node::{Position, TreeBody, TreeVersion};

/// The key that a rule asks about.
pub fn own_key(own: &Own) -> &Key
    ensures { result.now ≡ own_key own.now }
{
    match own {
        Own::Fetch(key) | Own::Look(key) => key,
        Own::Put(object) => &object.key,
    }
}

/// Whether a tree of this version has the position.
pub fn has_position(tree: TreeVersion, at: Position) -> bool
    ensures is { result ≡ has_position tree at }
    ensures inside { result ≡ true → IsPosition Two at → IsPosition tree at }
{
    at.level <= tree.levels()
}

/// Whether the own node at the position must be read to take this answer.
pub fn needs_node(state: &State, from: PeerId, give: &Give) -> bool
    ensures { result ≡ needs_node state.now.mode.tree from give.now state.now.sync }
{
    match &state.sync {
        None => false,
        Some(running) => running.needs_own(state.mode.tree, from, give),
    }
}

/// The question for a node of the tree. Fails only when out of memory.
pub fn question_of(alloc: Global, at: Position, after: &Option<Key>) -> Result<Question, PeerError>
    ensures ok { IfOk result (λ q. q ≡ record { position = at; after = after.now }) }
    ensures memory { IfErr result (λ e. e ≡ PeerError.Memory) }
{
    Ok(Question {
        position: at,
        after: copy_key(alloc, after)?,
    })
}

/// The answer of a source, from its message. Fails only when out of memory.
pub fn give_of(
    alloc: Global,
    ballot: Epoch,
    at: Position,
    after: &Option<Key>,
    trusted: bool,
    body: &TreeBody,
) -> Result<Give, PeerError>
    ensures ok { IfOk result (λ g. g ≡ record { ballot = ballot; question = record { position = at; after = after.now }; trusted = trusted; body = body.now }) }
    ensures memory { IfErr result (λ e. e ≡ PeerError.Memory) }
{
    Ok(Give {
        ballot,
        question: question_of(alloc, at, after)?,
        trusted,
        body: copy_body(alloc, body)?,
    })
}

/// Copies the body. Fails only when out of memory.
fn copy_body(alloc: Global, body: &TreeBody) -> Result<TreeBody, PeerError>
    ensures ok { IfOk result (λ b. b ≡ body.now) }
    ensures memory { IfErr result (λ e. e ≡ PeerError.Memory) }
{
    Ok(body.copy(alloc)?)
}
