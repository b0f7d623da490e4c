ghost use Rattle.std.specs.Prelude.{◌≡◌, ◌≤◌, length, Some, IfOk};
ghost use Rattle.fields.specs.Reading.{Gives};
ghost use Rattle.fields.specs.Entries.{entry_at};
ghost use Rattle.wire_frames.specs.Readers.{made};
ghost use Rattle.wire_frames.specs.Messages.{any_object_at};
ghost use Rattle.wire_frames.specs.Parts.{flag_at, optional_at, option_key_at, children_at, page_at, inner_body_at, page_body_at, damaged_body_at, body_at, greater_at, damaged_at, cause_at};

use crate::message::NackCause;
use ens_base::{Digest, Entry, Key, Seq};
use fields::{FieldError, take_entry, take_epoch, take_key, take_u8, take_u16};
use std::alloc::Global;
use stored_formats::{BoxedObject, take_object};
use tree_node::{TreeBody, TreeVersion, take_digests, take_entries, take_position};

/// Reads a flag of one byte at `at`. Returns it and the place after it.
#[tactic(auto, unfolding(crate::specs::Parts::flag_at))]
pub fn take_flag(bytes: &[u8], at: usize) -> Result<(bool, usize), FieldError>
    requires { at ≤ length bytes.now }
    ensures exact { flag_at bytes.now at ≡ result }
    ensures within { IfOk result (λ x. x.1 ≤ length bytes.now) }
{
    let (flag, after) = take_u8(bytes, at)?;
    match flag {
        0 => Ok((false, after)),
        1 => Ok((true, after)),
        _ => Err(FieldError::Rule(at)),
    }
}

fn take_some_entry(
    alloc: Global,
    bytes: &[u8],
    at: usize,
) -> Result<(Option<Entry>, usize), FieldError>
    requires { at ≤ length bytes.now }
    ensures exact { Gives result (made Some entry_at bytes.now at) }
    ensures within { IfOk result (λ x. x.1 ≤ length bytes.now) }
{
    let (entry, after) = take_entry(alloc, bytes, at)?;
    Ok((Some(entry), after))
}

/// Reads a flag at `at`, and an entry if it is 1. Returns the entry and the place after it.
#[tactic(auto, unfolding(crate::specs::Parts::optional_at))]
pub fn take_optional_entry(
    alloc: Global,
    bytes: &[u8],
    at: usize,
) -> Result<(Option<Entry>, usize), FieldError>
    requires { at ≤ length bytes.now }
    ensures exact { Gives result (optional_at entry_at bytes.now at) }
    ensures within { IfOk result (λ x. x.1 ≤ length bytes.now) }
{
    let (flag, start) = take_u8(bytes, at)?;
    match flag {
        0 => Ok((None, start)),
        1 => take_some_entry(alloc, bytes, start),
        _ => Err(FieldError::Rule(at)),
    }
}

fn take_some_object(
    alloc: Global,
    bytes: &[u8],
    at: usize,
) -> Result<(Option<BoxedObject>, usize), FieldError>
    requires { at ≤ length bytes.now }
    ensures exact { Gives result (made Some any_object_at bytes.now at) }
    ensures within { IfOk result (λ x. x.1 ≤ length bytes.now) }
{
    let (object, after) = take_object(alloc, bytes, at)?;
    Ok((Some(BoxedObject::new(alloc, object)?), after))
}

/// Reads a flag at `at`, and an object if it is 1. Returns the object and the place after it.
#[tactic(auto, unfolding(crate::specs::Parts::optional_at))]
pub fn take_optional_object(
    alloc: Global,
    bytes: &[u8],
    at: usize,
) -> Result<(Option<BoxedObject>, usize), FieldError>
    requires { at ≤ length bytes.now }
    ensures exact { Gives result (optional_at any_object_at bytes.now at) }
    ensures within { IfOk result (λ x. x.1 ≤ length bytes.now) }
{
    let (flag, start) = take_u8(bytes, at)?;
    match flag {
        0 => Ok((None, start)),
        1 => take_some_object(alloc, bytes, start),
        _ => Err(FieldError::Rule(at)),
    }
}

/// Reads a zero byte or a key at `at`. Returns the key and the place after it.
#[tactic(auto, unfolding(crate::specs::Parts::option_key_at))]
pub fn take_option_key(
    alloc: Global,
    bytes: &[u8],
    at: usize,
) -> Result<(Option<Key>, usize), FieldError>
    requires { at ≤ length bytes.now }
    ensures exact { Gives result (option_key_at bytes.now at) }
    ensures within { IfOk result (λ x. x.1 ≤ length bytes.now) }
{
    let (size, after) = take_u8(bytes, at)?;
    if size == 0 {
        return Ok((None, after));
    }
    let (key, after) = take_key(alloc, bytes, at)?;
    Ok((Some(key), after))
}

#[tactic(auto, unfolding(crate::specs::Parts::children_at))]
fn take_children(
    alloc: Global,
    bytes: &[u8],
    at: usize,
) -> Result<((u16, Seq<Digest>), usize), FieldError>
    requires { at ≤ length bytes.now }
    ensures exact { Gives result (children_at bytes.now at) }
    ensures within { IfOk result (λ x. x.1 ≤ length bytes.now) }
{
    let (mask, at) = take_u16(bytes, at)?;
    let (digests, at) = take_digests(alloc, mask.count_ones(), bytes, at)?;
    Ok(((mask, digests), at))
}

#[tactic(auto, unfolding(crate::specs::Parts::page_at))]
fn take_page(
    alloc: Global,
    bytes: &[u8],
    at: usize,
) -> Result<((Seq<Entry>, bool), usize), FieldError>
    requires { at ≤ length bytes.now }
    ensures exact { Gives result (page_at bytes.now at) }
    ensures within { IfOk result (λ x. x.1 ≤ length bytes.now) }
{
    let (count, start) = take_u8(bytes, at)?;
    if count > 32 {
        return Err(FieldError::Rule(at));
    }
    let (entries, at) = take_entries(alloc, count as u32, bytes, start)?;
    let (more, at) = take_flag(bytes, at)?;
    Ok(((entries, more), at))
}

#[tactic(auto, unfolding(crate::specs::Parts::inner_body_at))]
fn take_inner_body(alloc: Global, bytes: &[u8], at: usize) -> Result<(TreeBody, usize), FieldError>
    requires { at ≤ length bytes.now }
    ensures exact { Gives result (inner_body_at bytes.now at) }
    ensures within { IfOk result (λ x. x.1 ≤ length bytes.now) }
{
    let ((mask, digests), at) = take_children(alloc, bytes, at)?;
    Ok((TreeBody::Inner { mask, digests }, at))
}

#[tactic(auto, unfolding(crate::specs::Parts::page_body_at))]
fn take_page_body(alloc: Global, bytes: &[u8], at: usize) -> Result<(TreeBody, usize), FieldError>
    requires { at ≤ length bytes.now }
    ensures exact { Gives result (page_body_at bytes.now at) }
    ensures within { IfOk result (λ x. x.1 ≤ length bytes.now) }
{
    let ((entries, more), at) = take_page(alloc, bytes, at)?;
    Ok((TreeBody::Page { entries, more }, at))
}

#[tactic(auto, unfolding(crate::specs::Parts::damaged_body_at))]
fn take_damaged_body(bytes: &[u8], at: usize) -> Result<(TreeBody, usize), FieldError>
    requires { at ≤ length bytes.now }
    ensures exact { damaged_body_at bytes.now at ≡ result }
    ensures within { IfOk result (λ x. x.1 ≤ length bytes.now) }
{
    let (position, at) = take_position(bytes, at, TreeVersion::Two)?;
    Ok((TreeBody::Damaged(position), at))
}

/// Reads what a peer sends of a node at `at`. Returns it and the place after it.
#[tactic(auto, unfolding(crate::specs::Parts::body_at))]
pub fn take_body(alloc: Global, bytes: &[u8], at: usize) -> Result<(TreeBody, usize), FieldError>
    requires { at ≤ length bytes.now }
    ensures exact { Gives result (body_at bytes.now at) }
    ensures within { IfOk result (λ x. x.1 ≤ length bytes.now) }
{
    let (tag, start) = take_u8(bytes, at)?;
    match tag {
        1 => take_inner_body(alloc, bytes, start),
        2 => take_page_body(alloc, bytes, start),
        3 => take_damaged_body(bytes, start),
        _ => Err(FieldError::Rule(at)),
    }
}

#[tactic(auto, unfolding(crate::specs::Parts::greater_at))]
fn take_greater(bytes: &[u8], at: usize) -> Result<(NackCause, usize), FieldError>
    requires { at ≤ length bytes.now }
    ensures exact { greater_at bytes.now at ≡ result }
    ensures within { IfOk result (λ x. x.1 ≤ length bytes.now) }
{
    let (ballot, at) = take_epoch(bytes, at)?;
    Ok((NackCause::Greater(ballot), at))
}

#[tactic(auto, unfolding(crate::specs::Parts::damaged_at))]
fn take_damaged(bytes: &[u8], at: usize) -> Result<(NackCause, usize), FieldError>
    requires { at ≤ length bytes.now }
    ensures exact { damaged_at bytes.now at ≡ result }
    ensures within { IfOk result (λ x. x.1 ≤ length bytes.now) }
{
    let (position, at) = take_position(bytes, at, TreeVersion::Two)?;
    Ok((NackCause::Damaged(position), at))
}

/// Reads the cause of a refusal at `at`. Returns it and the place after it.
#[tactic(auto, unfolding(crate::specs::Parts::cause_at))]
pub fn take_cause(bytes: &[u8], at: usize) -> Result<(NackCause, usize), FieldError>
    requires { at ≤ length bytes.now }
    ensures exact { cause_at bytes.now at ≡ result }
    ensures within { IfOk result (λ x. x.1 ≤ length bytes.now) }
{
    let (tag, start) = take_u8(bytes, at)?;
    match tag {
        1 => take_greater(bytes, start),
        2 => Ok((NackCause::Untrusted, start)),
        3 => take_damaged(bytes, start),
        _ => Err(FieldError::Rule(at)),
    }
}
