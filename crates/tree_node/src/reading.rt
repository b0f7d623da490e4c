ghost use Rattle.std.specs.Prelude.{◌≡◌, ◌≤◌, length, count_ones, Ok, IfOk};
ghost use Rattle.fields.specs.Faults.{BreaksNoRule};
ghost use Rattle.tree_node.specs.declared.node.InnerNode.{InnerNode};
ghost use Rattle.tree_node.specs.declared.node.Segment.{Segment};
ghost use Rattle.tree_node.specs.TreeVersions.{inner_tag, segment_tag};
ghost use Rattle.tree_node.specs.Positions.{IsPosition};
ghost use Rattle.tree_node.specs.Entries.{entries_at, digests_at};
ghost use Rattle.tree_node.specs.Nodes.{
  IsInner,
  inner_spelling,
  IsSegment,
  segment_spelling,
  ended as unruled,
  ordered as by_order,
  asked_at,
  inner_fields_at,
  inner_at,
  segment_fields_at,
  segment_at,
  all_of,
  inner_of,
  segment_of,
  Answers,
};

use crate::entries::{take_digests, take_entries};
use crate::error::NodeError;
use crate::node::{InnerNode, Segment};
use crate::position::{Position, take_any_position};
use crate::version::TreeVersion;
use ens_base::{Digest, Entry, Seq};
use fields::{FieldError, take_u8, take_u16, take_u32};
use std::alloc::Global;

/// Turns the answer of a field that has no rule into that of a node. A broken rule would be reported as
/// an early end, so the field must break none.
fn ended<T>(read: Result<T, FieldError>) -> Result<T, NodeError>
    requires { BreaksNoRule read }
    ensures { result ≡ unruled read }
{
    match read {
        Ok(value) => Ok(value),
        Err(FieldError::Short(_)) => Err(NodeError::Short),
        Err(FieldError::Rule(_)) => unreachable!(),
        Err(FieldError::Memory) => Err(NodeError::Memory),
    }
}

/// Turns the answer of entries into that of a node: each of their rules is one of order.
fn ordered<T>(read: Result<T, FieldError>) -> Result<T, NodeError>
    ensures { result ≡ by_order read }
{
    match read {
        Ok(value) => Ok(value),
        Err(FieldError::Short(_)) => Err(NodeError::Short),
        Err(FieldError::Rule(_)) => Err(NodeError::Order),
        Err(FieldError::Memory) => Err(NodeError::Memory),
    }
}

#[tactic(auto, unfolding(crate::specs::Nodes::asked_at))]
fn read_position(asked: Position, bytes: &[u8], at: usize) -> Result<(Position, usize), NodeError>
    requires { at ≤ length bytes.now }
    ensures exact { asked_at asked bytes.now at ≡ result }
    ensures within { IfOk result (λ x. x.1 ≤ length bytes.now) }
{
    let (position, after) = ended(take_any_position(bytes, at))?;
    if position.level == asked.level && position.index == asked.index {
        Ok((position, after))
    } else {
        Err(NodeError::Position)
    }
}

fn read_digests(
    alloc: Global,
    count: u32,
    bytes: &[u8],
    at: usize,
) -> Result<(Seq<Digest>, usize), NodeError>
    requires { at ≤ length bytes.now }
    ensures exact { Answers result (unruled (digests_at count bytes.now at)) }
    ensures within { IfOk result (λ x. x.1 ≤ length bytes.now) }
{
    ended(take_digests(alloc, count, bytes, at))
}

fn read_entries(
    alloc: Global,
    count: u32,
    bytes: &[u8],
    at: usize,
) -> Result<(Seq<Entry>, usize), NodeError>
    requires { at ≤ length bytes.now }
    ensures exact { Answers result (by_order (entries_at count bytes.now at)) }
    ensures within { IfOk result (λ x. x.1 ≤ length bytes.now) }
{
    ordered(take_entries(alloc, count, bytes, at))
}

#[tactic(auto, unfolding(crate::specs::Nodes::inner_fields_at))]
fn read_inner_fields(
    alloc: Global,
    version: TreeVersion,
    asked: Position,
    bytes: &[u8],
    at: usize,
) -> Result<(InnerNode, usize), NodeError>
    requires { at ≤ length bytes.now }
    ensures exact { Answers result (inner_fields_at version asked bytes.now at) }
    ensures within { IfOk result (λ x. x.1 ≤ length bytes.now) }
{
    let (position, at) = read_position(asked, bytes, at)?;
    let (mask, at) = ended(take_u16(bytes, at))?;
    let (digests, at) = read_digests(alloc, mask.count_ones(), bytes, at)?;
    Ok((
        InnerNode {
            version,
            position,
            mask,
            digests,
        },
        at,
    ))
}

#[tactic(auto, unfolding(crate::specs::Nodes::inner_at))]
fn read_inner(
    alloc: Global,
    version: TreeVersion,
    asked: Position,
    bytes: &[u8],
) -> Result<(InnerNode, usize), NodeError>
    ensures exact { Answers result (inner_at version asked bytes.now 0) }
{
    let (tag, at) = ended(take_u8(bytes, 0))?;
    if tag == version.inner_tag() {
        read_inner_fields(alloc, version, asked, bytes, at)
    } else {
        Err(NodeError::BadTag)
    }
}

#[tactic(auto, unfolding(crate::specs::Nodes::segment_fields_at))]
fn read_segment_fields(
    alloc: Global,
    version: TreeVersion,
    asked: Position,
    bytes: &[u8],
    at: usize,
) -> Result<(Segment, usize), NodeError>
    requires { at ≤ length bytes.now }
    ensures exact { Answers result (segment_fields_at version asked bytes.now at) }
    ensures within { IfOk result (λ x. x.1 ≤ length bytes.now) }
{
    let (position, at) = read_position(asked, bytes, at)?;
    let (count, at) = ended(take_u32(bytes, at))?;
    let (entries, at) = read_entries(alloc, count, bytes, at)?;
    Ok((
        Segment {
            version,
            position,
            entries,
        },
        at,
    ))
}

#[tactic(auto, unfolding(crate::specs::Nodes::segment_at))]
fn read_segment(
    alloc: Global,
    version: TreeVersion,
    asked: Position,
    bytes: &[u8],
) -> Result<(Segment, usize), NodeError>
    ensures exact { Answers result (segment_at version asked bytes.now 0) }
{
    let (tag, at) = ended(take_u8(bytes, 0))?;
    if tag == version.segment_tag() {
        read_segment_fields(alloc, version, asked, bytes, at)
    } else {
        Err(NodeError::BadTag)
    }
}

/// Returns what was read, if it takes all `size` bytes.
fn if_all<T: Drop>(read: Result<(T, usize), NodeError>, size: usize) -> Result<T, NodeError>
    ensures { result ≡ all_of read size }
{
    match read {
        Ok((node, end)) => {
            if end == size {
                Ok(node)
            } else {
                Err(NodeError::Trailing)
            }
        }
        Err(e) => Err(e),
    }
}

/// Returns the inner node at position `at` of the tree of this version that the bytes spell, all of them,
/// or the first fault from the left. A node of the other version has another tag.
pub fn decode_inner(
    alloc: Global,
    bytes: &[u8],
    at: Position,
    version: TreeVersion,
) -> Result<InnerNode, NodeError>
    requires { IsPosition version at }
    // What is read was spelled so.
    ensures found { IfOk result (λ n. IsInner n × (n.version ≡ version) × (n.position ≡ at) × (bytes.now ≡ inner_spelling n)) }
    // What is spelled so is read, unless memory runs out.
    ensures only { (n : InnerNode) → IsInner n → n.version ≡ version → n.position ≡ at → bytes.now ≡ inner_spelling n → Answers result (Ok n) }
    // Which fault it is.
    ensures exact { Answers result (inner_of version at bytes.now) }
{
    let read = read_inner(alloc, version, at, bytes);
    if_all(read, bytes.len())
}

/// Returns the segment at position `at` of the tree of this version that the bytes spell, all of them, or
/// the first fault from the left. A node of the other version has another tag.
pub fn decode_segment(
    alloc: Global,
    bytes: &[u8],
    at: Position,
    version: TreeVersion,
) -> Result<Segment, NodeError>
    requires { IsPosition version at }
    // What is read was spelled so.
    ensures found { IfOk result (λ s. IsSegment s × (s.version ≡ version) × (s.position ≡ at) × (bytes.now ≡ segment_spelling s)) }
    // What is spelled so is read, unless memory runs out.
    ensures only { (s : Segment) → IsSegment s → s.version ≡ version → s.position ≡ at → bytes.now ≡ segment_spelling s → Answers result (Ok s) }
    // Which fault it is.
    ensures exact { Answers result (segment_of version at bytes.now) }
{
    let read = read_segment(alloc, version, at, bytes);
    if_all(read, bytes.len())
}
