use std::alloc::Global;
use stored_formats::{Fact, Object};
use tree_node::{Position, TreeVersion, decode_inner, decode_segment};
use wire_frames::decode_frame;

/// The position of the root.
const ROOT: Position = Position { level: 0, index: 0 };

/// The position of the segment of the key `abc`, whose MD5 begins with 900.
const SEGMENT: Position = Position {
    level: 3,
    index: 0x900,
};

/// A format of bytes.
#[derive(Clone, Copy)]
pub enum Format {
    Frame,
    Fact,
    Object,
    Root,
    Segment,
}

fn frame(alloc: Global, bytes: &[u8]) -> Option<String> {
    match decode_frame(alloc, bytes) {
        Ok(frame) => format!(in alloc; "{frame:?}").ok(),
        Err(fault) => format!(in alloc; "{fault:?}").ok(),
    }
}

fn fact(alloc: Global, bytes: &[u8]) -> Option<String> {
    match Fact::decode(bytes) {
        Ok(fact) => format!(in alloc; "{fact:?}").ok(),
        Err(fault) => format!(in alloc; "{fault:?}").ok(),
    }
}

fn object(alloc: Global, bytes: &[u8]) -> Option<String> {
    match Object::decode(alloc, bytes) {
        Ok(object) => format!(in alloc; "{object:?}").ok(),
        Err(fault) => format!(in alloc; "{fault:?}").ok(),
    }
}

fn root(alloc: Global, bytes: &[u8]) -> Option<String> {
    match decode_inner(alloc, bytes, ROOT, TreeVersion::One) {
        Ok(node) => {
            let (position, mask, digests) = (node.position, node.mask, &node.digests);
            format!(in alloc;
                "InnerNode {{ position: {position:?}, mask: {mask:?}, digests: {digests:?} }}"
            ).ok()
        }
        Err(fault) => format!(in alloc; "{fault:?}").ok(),
    }
}

fn segment(alloc: Global, bytes: &[u8]) -> Option<String> {
    match decode_segment(alloc, bytes, SEGMENT, TreeVersion::One) {
        Ok(segment) => {
            let (position, entries) = (segment.position, &segment.entries);
            format!(in alloc; "Segment {{ position: {position:?}, entries: {entries:?} }}").ok()
        }
        Err(fault) => format!(in alloc; "{fault:?}").ok(),
    }
}

impl Format {
    /// Returns the value that the bytes spell in this format, or the fault of the bytes, as text.
    /// `None` when out of memory.
    pub fn read(self, alloc: Global, bytes: &[u8]) -> Option<String> {
        match self {
            Format::Frame => frame(alloc, bytes),
            Format::Fact => fact(alloc, bytes),
            Format::Object => object(alloc, bytes),
            Format::Root => root(alloc, bytes),
            Format::Segment => segment(alloc, bytes),
        }
    }
}
