use ens_base::{Command, Epoch, Key, Reply, Value, Version, push_value};
use object_commands::{Verdict, apply};
use std::alloc::Global;
use stored_formats::Object;

/// The length in bytes up to which a value is printed in full.
const PRINTED: usize = 16;

/// Returns the version `count.1.seq`.
pub fn version(count: u64, seq: u64) -> Version {
    Version {
        epoch: Epoch { count, proposer: 1 },
        seq,
    }
}

/// Makes a value of these bytes.
pub fn value(alloc: Global, bytes: &[u8]) -> Option<Value> {
    Value::new(alloc, bytes).ok()
}

/// Makes an object with this content; none is a tombstone.
pub fn object(alloc: Global, content: Option<Value>) -> Option<Object> {
    Some(Object {
        version: version(2, 1),
        stamp: version(1, 2),
        key: Key::new(alloc, b"k").ok()?,
        value: content,
    })
}

fn push_reply(alloc: Global, text: &mut String, reply: &Reply) -> Option<()> {
    match reply {
        Reply::Value(stamp, value) => {
            write!(text, "value {stamp} ").ok()?;
            push_value(alloc, text, value.bytes()).ok()
        }
        Reply::NotFound => text.push_str("notfound").ok(),
        Reply::Failed => text.push_str("failed").ok(),
        _ => text.push_str("another reply").ok(),
    }
}

fn push_content(alloc: Global, text: &mut String, bytes: &[u8]) -> Option<()> {
    if bytes.len() > PRINTED {
        let length = bytes.len();
        return write!(text, "writes {length} bytes").ok();
    }
    text.push_str("writes ").ok()?;
    push_value(alloc, text, bytes).ok()
}

/// Appends the outcome of the command on the object, or on an absent register if there is none.
pub fn push_cell(
    alloc: Global,
    text: &mut String,
    command: &Command,
    held: Option<&Object>,
) -> Option<()> {
    match apply(alloc, command, held).ok()? {
        Verdict::Answer(reply) => push_reply(alloc, text, &reply),
        Verdict::Write(None) => text.push_str("writes a tombstone").ok(),
        Verdict::Write(Some(value)) => push_content(alloc, text, value.bytes()),
    }
}
