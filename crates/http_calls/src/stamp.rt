ghost use Rattle.std.specs.Prelude.{◌≡◌, ◌≤◌, length, drop, take, IfOk};
ghost use Rattle.http_calls.specs.Stamps.{stamp_bytes, stamp_at, tag_text, stamp_of};

use byteorder::{BigEndian, ByteOrder};
use ens_base::{Epoch, Version};

/// The length of an entity tag: two quotes, and two digits for each of the 20 bytes of a stamp.
pub const TAG: usize = 42;

fn stamp_bytes(stamp: Version) -> [u8; 20]
    ensures { result ≡ stamp_bytes stamp }
{
    let mut bytes = [0u8; 20];
    BigEndian::write_u64(&mut bytes, stamp.epoch.count);
    BigEndian::write_u32(&mut bytes[8..], stamp.epoch.proposer);
    BigEndian::write_u64(&mut bytes[12..], stamp.seq);
    bytes
}

fn stamp_at(bytes: &[u8; 20]) -> Version
    ensures { result ≡ stamp_at bytes.now }
{
    Version {
        epoch: Epoch {
            count: BigEndian::read_u64(bytes),
            proposer: BigEndian::read_u32(&bytes[8..]),
        },
        seq: BigEndian::read_u64(&bytes[12..]),
    }
}

/// The entity tag of a stamp (RFC 9110, section 8.8.3): 40 lower-case hexadecimal digits in quotes.
pub fn stamp_text(stamp: Version) -> [u8; TAG]
    ensures { result ≡ tag_text stamp }
{
    let mut text = [b'"'; TAG];
    // The digits have just their room.
    let _written = hex::encode_to_slice(stamp_bytes(stamp), &mut text[1..41]);
    text
}

/// The stamp of an entity tag, if it is one.
pub fn stamp_of(text: &[u8]) -> Option<Version>
    ensures { result ≡ stamp_of text.now }
{
    if text.len() != TAG {
        return None;
    }
    let mut bytes = [0u8; 20];
    hex::decode_to_slice(&text[1..41], &mut bytes).ok()?;
    let stamp = stamp_at(&bytes);
    if text != stamp_text(stamp).as_slice() {
        return None;
    }
    Some(stamp)
}
