ghost use Rattle.std.specs.Prelude.{◌≡◌, ◌+◌, ◌<◌, ◌≤◌, ◌^◌, ◌++◌, length, OnOk};
ghost use Rattle.commit_frames.specs.Records.{kind_byte, kind_in, record_bytes, shape_in};

use std::alloc::AllocError;

/// The length in bytes of a record without its name and its content.
pub const RECORD_BYTES: usize = 6;

/// What a record is.
#[derive(Clone, Copy, Debug, PartialEq, Eq)]
pub enum RecordKind {
    /// A node of the tree, by its digest.
    Node,
    /// The digest at the top of the tree.
    Top,
    /// An object, by its key.
    Object,
    /// The fact of the peer. Each payload begins with one.
    Fact,
    /// Who the peer is.
    Host,
}

/// A record: what it is, and the lengths of its name and its content, which follow its first six bytes.
#[derive(Clone, Copy, Debug, PartialEq, Eq)]
pub struct Shape {
    pub kind: RecordKind,
    pub name: usize,
    pub content: usize,
}

impl RecordKind {
    /// Returns the first byte of such a record.
    pub fn byte(self) -> u8
        ensures { result ≡ kind_byte self }
    {
        match self {
            RecordKind::Node => 1,
            RecordKind::Top => 2,
            RecordKind::Object => 3,
            RecordKind::Fact => 4,
            RecordKind::Host => 5,
        }
    }

    /// Returns what a record with this first byte is.
    fn of(byte: u8) -> Option<RecordKind>
        ensures { result ≡ kind_in byte }
    {
        match byte {
            1 => Some(RecordKind::Node),
            2 => Some(RecordKind::Top),
            3 => Some(RecordKind::Object),
            4 => Some(RecordKind::Fact),
            5 => Some(RecordKind::Host),
            _ => None,
        }
    }
}

/// Appends a record to a payload. When out of memory, a part of it.
pub fn put_record(
    out: &mut Vec<u8>,
    kind: RecordKind,
    name: &[u8],
    content: &[u8],
) -> Result<(), AllocError>
    requires name { length name.now ≤ 255 }
    requires content { length content.now < 2 ^ 32 }
    ensures { OnOk result (out.new.items ≡ out.old.items ++ record_bytes kind name.now content.now) }
{
    out.extend_from_slice(&[kind.byte(), name.len() as u8])?;
    out.extend_from_slice(&(content.len() as u32).to_be_bytes())?;
    out.extend_from_slice(name)?;
    out.extend_from_slice(content)
}

/// Returns the record at the front of the bytes, if there is a whole one.
pub fn shape_of(bytes: &[u8]) -> Option<Shape>
    ensures { result ≡ shape_in bytes.now }
{
    let [kind, name, a, b, c, d, rest @ ..] = bytes else {
        return None;
    };
    let kind = RecordKind::of(*kind)?;
    let name = usize::from(*name);
    let content = u32::from_be_bytes([*a, *b, *c, *d]) as usize;
    if name + content > rest.len() {
        return None;
    }
    Some(Shape {
        kind,
        name,
        content,
    })
}
