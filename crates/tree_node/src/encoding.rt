ghost use Rattle.std.specs.Prelude.{◌≡◌, ◌<◌, ◌^◌, ◌++◌, length, [], count_ones, Ok, IfOk, IfErr, OnOk};
ghost use Rattle.std.specs.List.{AllByRecursion};
ghost use Rattle.fields.specs.Entries.{IsEntry};
ghost use Rattle.tree_node.specs.Positions.{IsPosition};
ghost use Rattle.tree_node.specs.Entries.{AreAbove, AreDigests};
ghost use Rattle.tree_node.specs.Nodes.{inner_spelling, segment_spelling, inner_of, segment_of};

use crate::entries::{append_digests, append_entries};
use crate::error::NodeError;
use crate::node::{InnerNode, Segment};
use crate::position::put_position;
use fields::{FieldError, put_u8, put_u16, put_u32};
use std::alloc::Global;

/// The number of bytes of an inner node with 16 children.
const WIDEST_INNER: usize = 264;

/// Room for the bytes of a segment with one entry.
const USUAL_SEGMENT: usize = 64;

/// Makes an empty list of bytes with room for `room` bytes. Fails only when out of memory.
fn with_room(alloc: Global, room: usize) -> Result<Vec<u8>, NodeError>
    ensures ok { IfOk result (λ v. v.items ≡ []) }
    ensures memory { IfErr result (λ e. e ≡ NodeError.Memory) }
{
    match Vec::with_capacity(alloc, room) {
        Ok(bytes) => Ok(bytes),
        Err(_) => Err(NodeError::Memory),
    }
}

fn append_inner(x: &InnerNode, out: &mut Vec<u8>) -> Result<(), FieldError>
    requires { IsPosition x.now.version x.now.position }
    ensures ok { OnOk result (out.new.items ≡ out.old.items ++ inner_spelling x.now) }
    ensures valid { OnOk result ((x.now.mask < 2 ^ 16) × AreDigests x.now.digests) }
    ensures memory { IfErr result (λ e. e ≡ FieldError.Memory) }
{
    put_u8(x.version.inner_tag(), out)?;
    put_position(&x.position, out)?;
    put_u16(x.mask, out)?;
    append_digests(x.digests.as_slice(), out)
}

fn append_segment(x: &Segment, out: &mut Vec<u8>) -> Result<(), FieldError>
    requires position { IsPosition x.now.version x.now.position }
    requires few { length x.now.entries < 2 ^ 32 }
    ensures ok { OnOk result (out.new.items ≡ out.old.items ++ segment_spelling x.now) }
    ensures valid { OnOk result (AllByRecursion IsEntry x.now.entries) }
    ensures memory { IfErr result (λ e. e ≡ FieldError.Memory) }
{
    let entries = x.entries.as_slice();
    put_u8(x.version.segment_tag(), out)?;
    put_position(&x.position, out)?;
    put_u32(entries.len() as u32, out)?;
    append_entries(entries, out)
}

impl InnerNode {
    /// The spelling of the node, which has one digest for each set bit of its mask. [`decode_inner`]
    /// reads it again.
    pub fn encode(&self, alloc: Global) -> Result<Vec<u8>, NodeError>
        requires position { IsPosition self.now.version self.now.position }
        requires each { length self.now.digests ≡ count_ones self.now.mask }
        ensures ok { IfOk result (λ v. v.items ≡ inner_spelling self.now) }
        ensures again { IfOk result (λ v. inner_of self.now.version self.now.position v.items ≡ Ok self.now) }
        ensures memory { IfErr result (λ e. e ≡ NodeError.Memory) }
    {
        let mut out = with_room(alloc, WIDEST_INNER)?;
        match append_inner(self, &mut out) {
            Ok(()) => Ok(out),
            Err(_) => Err(NodeError::Memory),
        }
    }
}

impl Segment {
    /// The spelling of the segment, whose keys strictly ascend. [`decode_segment`] reads it again.
    pub fn encode(&self, alloc: Global) -> Result<Vec<u8>, NodeError>
        requires position { IsPosition self.now.version self.now.position }
        requires few { length self.now.entries < 2 ^ 32 }
        requires ascending { AreAbove [] self.now.entries }
        ensures ok { IfOk result (λ v. v.items ≡ segment_spelling self.now) }
        ensures again { IfOk result (λ v. segment_of self.now.version self.now.position v.items ≡ Ok self.now) }
        ensures memory { IfErr result (λ e. e ≡ NodeError.Memory) }
    {
        let mut out = with_room(alloc, USUAL_SEGMENT)?;
        match append_segment(self, &mut out) {
            Ok(()) => Ok(out),
            Err(_) => Err(NodeError::Memory),
        }
    }
}
