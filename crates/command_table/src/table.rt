use crate::cell::{object, push_cell, value, version};
use ens_base::{Command, Value};
use std::alloc::Global;

/// Appends a line with the outcome of the command on each kind of register.
fn push_row(alloc: Global, text: &mut String, name: &str, command: Command) -> Option<()> {
    write!(text, "{name}: absent ").ok()?;
    push_cell(alloc, text, &command, None)?;
    text.push_str("; tombstone ").ok()?;
    push_held(alloc, text, &command, None)?;
    text.push_str("; 76 ").ok()?;
    let content = value(alloc, b"v")?;
    push_held(alloc, text, &command, Some(content))?;
    text.push_str("\n").ok()
}

/// Appends the outcome of the command on an object with this content.
fn push_held(
    alloc: Global,
    text: &mut String,
    command: &Command,
    content: Option<Value>,
) -> Option<()> {
    let held = object(alloc, content)?;
    push_cell(alloc, text, command, Some(&held))
}

/// Appends a line with the outcome of the command on this value.
fn push_bound(
    alloc: Global,
    text: &mut String,
    name: &str,
    command: Command,
    content: Value,
) -> Option<()> {
    write!(text, "{name}: ").ok()?;
    push_held(alloc, text, &command, Some(content))?;
    text.push_str("\n").ok()
}

/// Makes a value of `length` bytes.
fn long(alloc: Global, length: usize) -> Option<Value> {
    let mut bytes = Vec::new(alloc);
    bytes.resize(length, b'a').ok()?;
    value(alloc, &bytes)
}

fn push_once(alloc: Global, text: &mut String) -> Option<()> {
    push_row(alloc, text, "get", Command::Get)?;
    let once = Command::PutOnce(value(alloc, b"w")?);
    push_row(alloc, text, "once 77", once)
}

fn push_update(alloc: Global, text: &mut String) -> Option<()> {
    let by_stamp = Command::Update(version(1, 2), value(alloc, b"w")?);
    push_row(alloc, text, "update 1.1.2 77", by_stamp)?;
    let by_version = Command::Update(version(2, 1), value(alloc, b"w")?);
    push_row(alloc, text, "update 2.1.1 77", by_version)
}

fn push_append(alloc: Global, text: &mut String) -> Option<()> {
    let append = Command::Append(value(alloc, b"b")?);
    push_row(alloc, text, "append 62", append)?;
    push_row(alloc, text, "add 1", Command::Add(1))
}

fn push_swap(alloc: Global, text: &mut String, name: &str, old: &[u8], new: &[u8]) -> Option<()> {
    let old = value(alloc, old)?;
    let new = value(alloc, new)?;
    push_row(alloc, text, name, Command::Swap(old, new))
}

fn push_over(alloc: Global, text: &mut String) -> Option<()> {
    let over = Command::Over(value(alloc, b"w")?);
    push_row(alloc, text, "over 77", over)?;
    push_row(alloc, text, "delete", Command::Delete)
}

fn push_length(
    alloc: Global,
    text: &mut String,
    name: &str,
    more: &[u8],
    length: usize,
) -> Option<()> {
    let append = Command::Append(value(alloc, more)?);
    let content = long(alloc, length)?;
    push_bound(alloc, text, name, append, content)
}

fn push_sum(alloc: Global, text: &mut String, name: &str, number: u64, bytes: &[u8]) -> Option<()> {
    let content = value(alloc, bytes)?;
    push_bound(alloc, text, name, Command::Add(number), content)
}

fn push_sums(alloc: Global, text: &mut String) -> Option<()> {
    let byte = [0, 0, 0, 0, 0, 0, 0, 255];
    let below = [255, 255, 255, 255, 255, 255, 255, 254];
    push_sum(alloc, text, "add 1 to 7 bytes", 1, &[0; 7])?;
    push_sum(alloc, text, "add 1 to 9 bytes", 1, &[0; 9])?;
    push_sum(alloc, text, "add 1 to 00000000000000ff", 1, &byte)?;
    push_sum(alloc, text, "add 1 to fffffffffffffffe", 1, &below)?;
    push_sum(alloc, text, "add 2 to fffffffffffffffe", 2, &below)?;
    push_sum(alloc, text, "add 0 to ffffffffffffffff", 0, &[255; 8])
}

/// Returns the whole table, or `None` when out of memory.
pub fn table(alloc: Global) -> Option<String> {
    let mut text = String::new(alloc);
    push_once(alloc, &mut text)?;
    push_update(alloc, &mut text)?;
    push_append(alloc, &mut text)?;
    push_swap(alloc, &mut text, "swap 76 77", b"v", b"w")?;
    push_swap(alloc, &mut text, "swap 77 76", b"w", b"v")?;
    push_over(alloc, &mut text)?;
    push_length(alloc, &mut text, "append 62 to 1023 bytes", b"b", 1_023)?;
    push_length(alloc, &mut text, "append 62 to 1024 bytes", b"b", 1_024)?;
    push_length(alloc, &mut text, "append - to 1024 bytes", b"", 1_024)?;
    push_length(alloc, &mut text, "append - to -", b"", 0)?;
    push_sums(alloc, &mut text)?;
    Some(text)
}
