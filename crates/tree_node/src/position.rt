ghost use Rattle.std.specs.Prelude.{◌≡◌, ◌≤◌, ◌++◌, length, IfOk, IfErr, OnOk, OnErr, ◌^◌};
ghost use Rattle.fields.specs.Faults.{BreaksNoRule};
ghost use Rattle.tree_node.specs.TreeVersions.{levels};
ghost use Rattle.tree_node.specs.Positions.{level_at, index_at, position_at, any_position_at, position_spelling};

use crate::version::TreeVersion;
use fields::{FieldError, take_u8, take_u32};

/// The position of a node: its level, from 0 at the root to that of the segments, which is 3 or 5 by the
/// version of the tree, and its index among the nodes of that level, which is below 16 to the power of
/// the level.
#[derive(Clone, Copy, Debug, PartialEq, Eq, PartialOrd, Ord, Hash)]
pub struct Position {
    pub level: u8,
    pub index: u32,
}

/// How many nodes a level has.
fn width(level: u8) -> u32
    requires { level ≤ 5 }
    ensures { result ≡ 16 ^ level }
{
    match level {
        0 => 1,
        1 => 16,
        2 => 256,
        3 => 4_096,
        4 => 65_536,
        _ => 1_048_576,
    }
}

#[tactic(auto, unfolding(crate::specs::Positions::level_at))]
fn take_level(version: TreeVersion, bytes: &[u8], at: usize) -> Result<(u8, usize), FieldError>
    requires { at ≤ length bytes.now }
    ensures exact { level_at version bytes.now at ≡ result }
    ensures within { IfOk result (λ x. x.1 ≤ length bytes.now) }
    ensures level { IfOk result (λ x. x.0 ≤ levels version) }
{
    let (level, after) = take_u8(bytes, at)?;
    if level > version.levels() {
        return Err(FieldError::Rule(at));
    }
    Ok((level, after))
}

#[tactic(auto, unfolding(crate::specs::Positions::index_at))]
fn take_index(level: u8, bytes: &[u8], at: usize) -> Result<(u32, usize), FieldError>
    requires level { level ≤ 5 }
    requires inside { at ≤ length bytes.now }
    ensures exact { index_at level bytes.now at ≡ result }
    ensures within { IfOk result (λ x. x.1 ≤ length bytes.now) }
{
    let (index, after) = take_u32(bytes, at)?;
    if index >= width(level) {
        return Err(FieldError::Rule(at));
    }
    Ok((index, after))
}

/// Reads the five bytes of a position of the tree of this version at `at`. Returns it and the place after
/// it.
#[tactic(auto, unfolding(crate::specs::Positions::position_at))]
pub fn take_position(
    bytes: &[u8],
    at: usize,
    version: TreeVersion,
) -> Result<(Position, usize), FieldError>
    requires { at ≤ length bytes.now }
    ensures exact { position_at version bytes.now at ≡ result }
    ensures within { IfOk result (λ x. x.1 ≤ length bytes.now) }
{
    let (level, at) = take_level(version, bytes, at)?;
    let (index, at) = take_index(level, bytes, at)?;
    Ok((Position { level, index }, at))
}

/// Reads a level and an index at `at`, in range or not. Returns them and the place after them.
#[tactic(auto, unfolding(crate::specs::Positions::any_position_at))]
pub fn take_any_position(bytes: &[u8], at: usize) -> Result<(Position, usize), FieldError>
    requires { at ≤ length bytes.now }
    ensures exact { any_position_at bytes.now at ≡ result }
    ensures unruled { BreaksNoRule result }
    ensures within { IfOk result (λ x. x.1 ≤ length bytes.now) }
{
    let (level, at) = take_u8(bytes, at)?;
    let (index, at) = take_u32(bytes, at)?;
    Ok((Position { level, index }, at))
}

/// Appends the five bytes of the position, or leaves `out` as it was.
pub fn put_position(x: &Position, out: &mut Vec<u8>) -> Result<(), FieldError>
    ensures ok { OnOk result (out.new.items ≡ out.old.items ++ position_spelling x.now) }
    ensures err { OnErr result (out.new.items ≡ out.old.items) }
    ensures memory { IfErr result (λ e. e ≡ FieldError.Memory) }
{
    let index = x.index.to_be_bytes();
    let spelling = [x.level, index[0], index[1], index[2], index[3]];
    out.extend_from_slice(&spelling)?;
    Ok(())
}
