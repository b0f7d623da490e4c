ghost use Rattle.std.specs.Prelude.{◌≡◌, ◌≤◌, length, IfOk};
ghost use Rattle.fields.specs.Faults.{BreaksNoRule};
ghost use Rattle.fields.specs.Strings.{key_at};
ghost use Rattle.tree_node.specs.Entries.{rest_at};
ghost use Rattle.tree_backup.specs.Items.{IsBackup, backup_spelling};
ghost use Rattle.tree_backup.specs.Readings.{
  ended as unruled,
  keyed as key_ruled,
  magic_at,
  tag_at,
  tags_at,
  entry_at,
  object_behind,
  held_at,
  item_at,
  items_at,
  backup_at,
  all_of,
  backup_of,
  last_key,
  Answers,
};

use crate::error::BackupError;
use crate::item::{Backup, Item};
use crate::objects::read_object;
use ens_base::{Entry, Key, Seq};
use fields::{FieldError, take_digest, take_key, take_u8, take_u16, take_u32, take_version};
use std::alloc::Global;
use std::cmp::Ordering;
use stored_formats::BoxedObject;

/// The magic number with which a backup begins: the bytes 52 42.
pub(crate) const MAGIC: u16 = 0x5242;

/// The version of the format.
pub(crate) const FORMAT: u8 = 1;

/// The version of the tree whose top record is named.
pub(crate) const TREE: u8 = 2;

/// The fewest bytes of an item: of its key one byte and the length, then a version, a digest and a flag.
const FEWEST_BYTES: usize = 39;

/// Turns the answer of a field that has no rule into that of a backup. A broken rule would be reported
/// as an early end, so the field must break none.
fn ended<T>(read: Result<T, FieldError>) -> Result<T, BackupError>
    requires { BreaksNoRule read }
    ensures { result ≡ unruled read }
{
    match read {
        Ok(value) => Ok(value),
        Err(FieldError::Short(_)) => Err(BackupError::Short),
        Err(FieldError::Rule(_)) => unreachable!(),
        Err(FieldError::Memory) => Err(BackupError::Memory),
    }
}

/// Turns the answer of a key into that of a backup.
fn keyed<T>(read: Result<T, FieldError>) -> Result<T, BackupError>
    ensures { result ≡ key_ruled read }
{
    match read {
        Ok(value) => Ok(value),
        Err(FieldError::Short(_)) => Err(BackupError::Short),
        Err(FieldError::Rule(_)) => Err(BackupError::Length),
        Err(FieldError::Memory) => Err(BackupError::Memory),
    }
}

#[tactic(auto, unfolding(crate::specs::Readings::magic_at))]
fn read_magic(bytes: &[u8], at: usize) -> Result<(u16, usize), BackupError>
    requires { at ≤ length bytes.now }
    ensures exact { magic_at bytes.now at ≡ result }
    ensures within { IfOk result (λ x. x.1 ≤ length bytes.now) }
{
    let (magic, after) = ended(take_u16(bytes, at))?;
    if magic == MAGIC {
        Ok((magic, after))
    } else {
        Err(BackupError::BadTag)
    }
}

#[tactic(auto, unfolding(crate::specs::Readings::tag_at))]
fn read_tag(tag: u8, bytes: &[u8], at: usize) -> Result<(u8, usize), BackupError>
    requires { at ≤ length bytes.now }
    ensures exact { tag_at tag bytes.now at ≡ result }
    ensures within { IfOk result (λ x. x.1 ≤ length bytes.now) }
{
    let (byte, after) = ended(take_u8(bytes, at))?;
    if byte == tag {
        Ok((byte, after))
    } else {
        Err(BackupError::BadTag)
    }
}

#[tactic(auto, unfolding(crate::specs::Readings::tags_at))]
fn read_tags(bytes: &[u8], at: usize) -> Result<(u8, usize), BackupError>
    requires { at ≤ length bytes.now }
    ensures exact { tags_at bytes.now at ≡ result }
    ensures within { IfOk result (λ x. x.1 ≤ length bytes.now) }
{
    let (_magic, at) = read_magic(bytes, at)?;
    let (_format, at) = read_tag(FORMAT, bytes, at)?;
    read_tag(TREE, bytes, at)
}

fn read_key(alloc: Global, bytes: &[u8], at: usize) -> Result<(Key, usize), BackupError>
    requires { at ≤ length bytes.now }
    ensures exact { Answers result (key_ruled (key_at bytes.now at)) }
    ensures within { IfOk result (λ x. x.1 ≤ length bytes.now) }
{
    keyed(take_key(alloc, bytes, at))
}

#[tactic(auto, unfolding(tree_node::specs::Entries::rest_at))]
fn take_rest(key: Key, bytes: &[u8], at: usize) -> Result<(Entry, usize), FieldError>
    requires { at ≤ length bytes.now }
    ensures exact { rest_at key bytes.now at ≡ result }
    ensures unruled { BreaksNoRule result }
    ensures within { IfOk result (λ x. x.1 ≤ length bytes.now) }
{
    let (version, at) = take_version(bytes, at)?;
    let (digest, at) = take_digest(bytes, at)?;
    Ok((
        Entry {
            key,
            version,
            digest,
        },
        at,
    ))
}

/// Reads an entry at `at` whose key is above `low`.
#[tactic(auto, unfolding(crate::specs::Readings::entry_at))]
fn read_entry(
    alloc: Global,
    low: &[u8],
    bytes: &[u8],
    at: usize,
) -> Result<(Entry, usize), BackupError>
    requires { at ≤ length bytes.now }
    ensures exact { Answers result (entry_at low.now bytes.now at) }
    ensures within { IfOk result (λ x. x.1 ≤ length bytes.now) }
{
    let (key, after) = read_key(alloc, bytes, at)?;
    match low.cmp(key.bytes()) {
        Ordering::Less => ended(take_rest(key, bytes, after)),
        Ordering::Equal => Err(BackupError::Order),
        Ordering::Greater => Err(BackupError::Order),
    }
}

#[tactic(auto, unfolding(crate::specs::Readings::object_behind))]
fn read_behind(
    alloc: Global,
    bytes: &[u8],
    at: usize,
) -> Result<(Option<BoxedObject>, usize), BackupError>
    requires { at ≤ length bytes.now }
    ensures exact { Answers result (object_behind bytes.now at) }
    ensures within { IfOk result (λ x. x.1 ≤ length bytes.now) }
{
    let (object, at) = read_object(alloc, bytes, at)?;
    Ok((Some(BoxedObject::new(alloc, object)?), at))
}

#[tactic(auto, unfolding(crate::specs::Readings::held_at))]
fn read_held(
    alloc: Global,
    bytes: &[u8],
    at: usize,
) -> Result<(Option<BoxedObject>, usize), BackupError>
    requires { at ≤ length bytes.now }
    ensures exact { Answers result (held_at bytes.now at) }
    ensures within { IfOk result (λ x. x.1 ≤ length bytes.now) }
{
    let (flag, at) = ended(take_u8(bytes, at))?;
    match flag {
        0 => Ok((None, at)),
        1 => read_behind(alloc, bytes, at),
        _ => Err(BackupError::BadTag),
    }
}

#[tactic(auto, unfolding(crate::specs::Readings::item_at))]
fn read_item(
    alloc: Global,
    low: &[u8],
    bytes: &[u8],
    at: usize,
) -> Result<(Item, usize), BackupError>
    requires { at ≤ length bytes.now }
    ensures exact { Answers result (item_at low.now bytes.now at) }
    ensures within { IfOk result (λ x. x.1 ≤ length bytes.now) }
{
    let (entry, at) = read_entry(alloc, low, bytes, at)?;
    let (object, at) = read_held(alloc, bytes, at)?;
    Ok((Item { entry, object }, at))
}

/// The key of the last item, and no bytes where there is none.
fn key_of_last(items: &[Item]) -> &[u8]
    ensures { result.now ≡ last_key items.now }
{
    match items.last() {
        None => &[],
        Some(item) => item.entry.key.bytes(),
    }
}

/// Reads `count` items at `at`, whose keys strictly ascend. Memory is taken for no more items than there
/// are bytes for.
fn read_items(
    alloc: Global,
    count: u32,
    bytes: &[u8],
    at: usize,
) -> Result<(Seq<Item>, usize), BackupError>
    requires { at ≤ length bytes.now }
    ensures exact { Answers result (items_at count bytes.now at) }
    ensures within { IfOk result (λ x. x.1 ≤ length bytes.now) }
{
    let most = (bytes.len() - at) / FEWEST_BYTES;
    let mut items = Vec::with_capacity(alloc, most.min(count as usize))?;
    let mut place = at;
    for _ in 0..count {
        let (item, after) = read_item(alloc, key_of_last(&items), bytes, place)?;
        items.push(item)?;
        place = after;
    }
    Ok((Seq::new(items), place))
}

#[tactic(auto, unfolding(crate::specs::Readings::backup_at))]
fn read_backup(alloc: Global, bytes: &[u8]) -> Result<(Backup, usize), BackupError>
    ensures exact { Answers result (backup_at bytes.now 0) }
{
    let (_tree, at) = read_tags(bytes, 0)?;
    let (top, at) = ended(take_digest(bytes, at))?;
    let (count, at) = ended(take_u32(bytes, at))?;
    let (items, at) = read_items(alloc, count, bytes, at)?;
    Ok((Backup { top, items }, at))
}

/// Returns what was read, if it takes all `size` bytes.
fn if_all(read: Result<(Backup, usize), BackupError>, size: usize) -> Result<Backup, BackupError>
    ensures { result ≡ all_of read size }
{
    match read {
        Ok((backup, end)) => {
            if end == size {
                Ok(backup)
            } else {
                Err(BackupError::Trailing)
            }
        }
        Err(e) => Err(e),
    }
}

/// Returns the backup that the bytes spell, all of them, or the first fault from the left.
pub(crate) fn decode(alloc: Global, bytes: &[u8]) -> Result<Backup, BackupError>
    // What is read was spelled so.
    ensures found { IfOk result (λ b. IsBackup b × (bytes.now ≡ backup_spelling b)) }
    // Which fault it is.
    ensures exact { Answers result (backup_of bytes.now) }
{
    let read = read_backup(alloc, bytes);
    if_all(read, bytes.len())
}
