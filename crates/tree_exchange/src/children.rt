ghost use Rattle.std.specs.Prelude.{◌≡◌, ◌≤◌, ◌<◌, ◌++◌, length, get_or, None, IfOk, IfErr, OnOk};
ghost use Rattle.std.specs.List.{AllByRecursion};
ghost use Rattle.tree_node.specs.declared.version.TreeVersion.{TreeVersion};
ghost use Rattle.tree_node.specs.declared.version.TreeVersion.TheVariants.{Two};
ghost use Rattle.tree_node.specs.TreeVersions.{levels};
ghost use Rattle.tree_node.specs.Positions.{IsPosition};
ghost use Rattle.tree_exchange.specs.Asks.{if_unknown, to_ask};
ghost use Rattle.tree_exchange.specs.declared.error.AskError.TheVariants.{Memory};

use crate::error::AskError;
use ens_base::Digest;
use std::alloc::Global;
use synctree::child;
use tree_node::Position;

/// Returns the index of the node so many levels above the node of this index.
fn up(levels: u8, index: u32) -> u32
    ensures { result ≡ Rattle.tree_exchange.specs.Asks.up 16 levels index }
{
    if levels == 0 {
        index
    } else {
        up(levels - 1, index / 16)
    }
}

/// Tests whether a position lies at another or under it.
fn lies_in(p: Position, q: Position) -> bool
    ensures { result ≡ Rattle.tree_exchange.specs.Asks.lies_in p q }
{
    q.level <= p.level && up(p.level - q.level, p.index) == q.index
}

/// Tests whether one of the positions lies at `at`, under it or above it.
fn meets(positions: &[Position], at: Position) -> bool
    ensures { result ≡ Rattle.tree_exchange.specs.Asks.meets positions.now at }
{
    for position in positions {
        if lies_in(*position, at) || lies_in(at, *position) {
            return true;
        }
    }
    false
}

/// Tests whether a child need not be asked for.
fn is_known(damaged: &[Position], at: Position, own: Option<Digest>, digest: Digest) -> bool
    ensures { result ≡ Rattle.tree_exchange.specs.Asks.is_known damaged.now at own digest }
{
    match own {
        None => false,
        Some(own) => own == digest && !meets(damaged, at),
    }
}

/// Returns the digest that the own node names for a child.
fn name_of(own: &[Option<Digest>], digit: usize) -> Option<Digest>
    ensures { result ≡ get_or own.now digit None }
{
    match own.get(digit) {
        Some(name) => *name,
        None => None,
    }
}

/// Appends the position of a child, if the child is there and must be asked for. Fails only when out
/// of memory.
fn push_unknown(
    asked: &mut Vec<Position>,
    damaged: &[Position],
    at: Position,
    own: Option<Digest>,
    name: Option<Digest>,
) -> Result<(), AskError>
    ensures ok { OnOk result (asked.new.items ≡ asked.old.items ++ if_unknown damaged.now at own name) }
    ensures memory { IfErr result (λ e. e ≡ Memory) }
{
    match name {
        None => Ok(()),
        Some(digest) => {
            if is_known(damaged, at, own, digest) {
                Ok(())
            } else {
                asked.push(at)?;
                Ok(())
            }
        }
    }
}

/// Returns the children to ask for, in ascending order; they are the same in the tree of each version.
/// Fails only when out of memory.
pub(crate) fn children_to_ask(
    alloc: Global,
    damaged: &[Position],
    at: Position,
    own: &[Option<Digest>],
    names: &[Option<Digest>],
) -> Result<Vec<Position>, AskError>
    requires position { IsPosition Two at }
    requires above { at.level < levels Two }
    requires width { length names.now ≤ 16 }
    ensures ok { IfOk result (λ v. (tree : TreeVersion) → v.items ≡ to_ask tree damaged.now at own.now 0 names.now) }
    ensures positions { IfOk result (λ v. AllByRecursion (IsPosition Two) v.items) }
    ensures memory { IfErr result (λ e. e ≡ Memory) }
{
    let mut asked = Vec::new(alloc);
    for i in 0..names.len() {
        let place = child(at, i as u8);
        push_unknown(&mut asked, damaged, place, name_of(own, i), names[i])?;
    }
    Ok(asked)
}
