use crate::format::Format;
use std::alloc::Global;

/// The bytes that the last line with a format named.
#[derive(Drop)]
pub struct Sample {
    format: Format,
    bytes: Vec<u8>,
}

fn bytes_of(alloc: Global, digits: &str) -> Option<Vec<u8>> {
    hex::decode(alloc, digits.as_bytes()).ok()
}

fn byte_of(digits: &str) -> Option<u8> {
    u8::from_str_radix(digits, 16).ok()
}

fn format_of(word: &str) -> Option<Format> {
    match word {
        "frame" => Some(Format::Frame),
        "fact" => Some(Format::Fact),
        "object" => Some(Format::Object),
        "root" => Some(Format::Root),
        "segment" => Some(Format::Segment),
        _ => None,
    }
}

impl Sample {
    /// A frame of no bytes.
    pub fn empty(alloc: Global) -> Sample {
        Sample {
            format: Format::Frame,
            bytes: Vec::new(alloc),
        }
    }

    fn named(&mut self, alloc: Global, format: Format, digits: &str) -> Option<String> {
        self.format = format;
        self.bytes = bytes_of(alloc, digits)?;
        format.read(alloc, &self.bytes)
    }

    fn set(&self, alloc: Global, place: usize, byte: u8) -> Option<String> {
        let mut bytes = self.bytes.as_slice().to_vec(alloc).ok()?;
        if place >= bytes.len() {
            return None;
        }
        bytes[place] = byte;
        self.format.read(alloc, &bytes)
    }

    fn more(&self, alloc: Global, byte: u8) -> Option<String> {
        let mut bytes = self.bytes.as_slice().to_vec(alloc).ok()?;
        bytes.push(byte).ok()?;
        self.format.read(alloc, &bytes)
    }

    /// Returns what the bytes of this line are, or `None` where the line cannot be read or memory runs
    /// out.
    pub fn line(&mut self, alloc: Global, line: &str) -> Option<String> {
        let (word, rest) = line.split_once(' ')?;
        match word {
            "set" => {
                let (place, byte) = rest.split_once(' ')?;
                self.set(alloc, place.parse::<usize>().ok()?, byte_of(byte)?)
            }
            "cut" => {
                let bytes = self.bytes.get(..rest.parse::<usize>().ok()?)?;
                self.format.read(alloc, bytes)
            }
            "more" => self.more(alloc, byte_of(rest)?),
            _ => self.named(alloc, format_of(word)?, rest),
        }
    }
}
