ghost use Rattle.std.specs.Prelude.{◌≡◌, ◌≤◌, ◌<◌, ◌++◌, [], length, count_ones, IfErr, OnOk};
ghost use Rattle.ens_base.specs.Limits.{IsKey};
ghost use Rattle.fields.specs.Entries.{IsEntry, entry_spelling};
ghost use Rattle.stored_formats.specs.Objects.{IsObject, object_spelling};
ghost use Rattle.tree_node.specs.Entries.{AreAbove};
ghost use Rattle.wire_frames.specs.Messages.{ObeysCause, ObeysBody};
ghost use Rattle.wire_frames.specs.Parts.{flag_spelling, IsOptional, optional_spelling, option_key_spelling, AreChildren, IsPage, IsBody, body_spelling, IsCause, cause_spelling};

use crate::message::NackCause;
use ens_base::{Digest, Entry, Key, Seq};
use fields::{FieldError, put_entry, put_epoch, put_key, put_u8, put_u16};
use stored_formats::{BoxedObject, put_object};
use tree_node::{TreeBody, append_digests, append_entries, put_position};

/// Appends the flag.
pub fn append_flag(x: bool, out: &mut Vec<u8>) -> Result<(), FieldError>
    ensures ok { OnOk result (out.new.items ≡ out.old.items ++ flag_spelling x) }
    ensures memory { IfErr result (λ e. e ≡ FieldError.Memory) }
{
    if x { put_u8(1, out) } else { put_u8(0, out) }
}

/// Appends a flag, and the entry if there is one. Out of memory leaves a part of them.
pub fn append_optional_entry(x: &Option<Entry>, out: &mut Vec<u8>) -> Result<(), FieldError>
    ensures ok { OnOk result (out.new.items ≡ out.old.items ++ optional_spelling entry_spelling x.now) }
    ensures valid { OnOk result (IsOptional IsEntry x.now) }
    ensures memory { IfErr result (λ e. e ≡ FieldError.Memory) }
{
    match x {
        None => put_u8(0, out),
        Some(entry) => {
            put_u8(1, out)?;
            put_entry(entry, out)
        }
    }
}

/// Appends a flag, and the object if there is one. Out of memory leaves a part of them.
pub fn append_optional_object(x: &Option<BoxedObject>, out: &mut Vec<u8>) -> Result<(), FieldError>
    ensures ok { OnOk result (out.new.items ≡ out.old.items ++ optional_spelling object_spelling x.now) }
    ensures valid { OnOk result (IsOptional IsObject x.now) }
    ensures memory { IfErr result (λ e. e ≡ FieldError.Memory) }
{
    match x {
        None => put_u8(0, out),
        Some(object) => {
            put_u8(1, out)?;
            put_object(object.get(), out)
        }
    }
}

/// Appends the key, or a zero byte if there is none.
pub fn append_option_key(x: &Option<Key>, out: &mut Vec<u8>) -> Result<(), FieldError>
    ensures ok { OnOk result (out.new.items ≡ out.old.items ++ option_key_spelling x.now) }
    ensures valid { OnOk result (IsOptional IsKey x.now) }
    ensures memory { IfErr result (λ e. e ≡ FieldError.Memory) }
{
    match x {
        None => put_u8(0, out),
        Some(key) => put_key(key, out),
    }
}

fn append_children(mask: u16, digests: &Seq<Digest>, out: &mut Vec<u8>) -> Result<(), FieldError>
    requires { length digests.now ≡ count_ones mask }
    ensures ok { OnOk result (out.new.items ≡ out.old.items ++ body_spelling (TreeBody.Inner mask digests.now)) }
    ensures valid { OnOk result (AreChildren (mask, digests.now)) }
    ensures memory { IfErr result (λ e. e ≡ FieldError.Memory) }
{
    put_u8(1, out)?;
    put_u16(mask, out)?;
    append_digests(digests.as_slice(), out)
}

fn append_page(entries: &Seq<Entry>, more: bool, out: &mut Vec<u8>) -> Result<(), FieldError>
    requires few { length entries.now ≤ 32 }
    requires ascending { AreAbove [] entries.now }
    ensures ok { OnOk result (out.new.items ≡ out.old.items ++ body_spelling (TreeBody.Page entries.now more)) }
    ensures valid { OnOk result (IsPage (entries.now, more)) }
    ensures memory { IfErr result (λ e. e ≡ FieldError.Memory) }
{
    let entries = entries.as_slice();
    put_u8(2, out)?;
    put_u8(entries.len() as u8, out)?;
    append_entries(entries, out)?;
    append_flag(more, out)
}

/// Appends what a peer sends of a node. Out of memory leaves a part of it.
pub fn append_body(x: &TreeBody, out: &mut Vec<u8>) -> Result<(), FieldError>
    requires { ObeysBody x.now }
    ensures ok { OnOk result (out.new.items ≡ out.old.items ++ body_spelling x.now) }
    ensures valid { OnOk result (IsBody x.now) }
    ensures memory { IfErr result (λ e. e ≡ FieldError.Memory) }
{
    match x {
        TreeBody::Inner { mask, digests } => append_children(*mask, digests, out),
        TreeBody::Page { entries, more } => append_page(entries, *more, out),
        TreeBody::Damaged(position) => {
            put_u8(3, out)?;
            put_position(position, out)
        }
    }
}

/// Appends the cause of a refusal. Out of memory leaves a part of it.
pub fn append_cause(x: &NackCause, out: &mut Vec<u8>) -> Result<(), FieldError>
    requires { ObeysCause x.now }
    ensures ok { OnOk result (out.new.items ≡ out.old.items ++ cause_spelling x.now) }
    ensures valid { OnOk result (IsCause x.now) }
    ensures memory { IfErr result (λ e. e ≡ FieldError.Memory) }
{
    match x {
        NackCause::Greater(ballot) => {
            put_u8(1, out)?;
            put_epoch(ballot, out)
        }
        NackCause::Untrusted => put_u8(2, out),
        NackCause::Damaged(position) => {
            put_u8(3, out)?;
            put_position(position, out)
        }
    }
}
