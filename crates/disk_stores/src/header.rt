ghost use Rattle.std.specs.Prelude.{◌≡◌, ◌≤◌, ◌<◌, length, IfOk, OnOk};
ghost use Rattle.disk_stores.specs.Records.{record_bytes, header_in, is_marked};

use ens_base::Bytes;
use std::alloc::{AllocError, Global};

/// The first byte and the last of each record.
const MARK: u8 = 1;

/// The length in bytes of the longest header with its name.
pub(crate) const HEADER_ROOM: usize = 265;

/// The name of a record, and the length of its content.
#[derive(Debug, Drop)]
pub(crate) struct Header {
    pub(crate) name: Bytes,
    pub(crate) len: u64,
}

/// Decodes the header and the name at the front of the bytes, if they are there.
pub(crate) fn header_of(alloc: Global, bytes: &[u8]) -> Result<Option<Header>, AllocError>
    ensures { IfOk result (λ o. o ≡ header_in bytes.now) }
{
    let [mark, size, a, b, c, d, e, f, g, h, rest @ ..] = bytes else {
        return Ok(None);
    };
    let size = usize::from(*size);
    if *mark != MARK || size > rest.len() {
        return Ok(None);
    }
    let name = Bytes::from_slice(alloc, &rest[..size])?;
    let len = u64::from_be_bytes([*a, *b, *c, *d, *e, *f, *g, *h]);
    Ok(Some(Header { name, len }))
}

/// Returns whether the bytes begin with the one that ends a record.
pub(crate) fn is_marked(bytes: &[u8]) -> bool
    ensures { result ≡ is_marked bytes.now }
{
    match bytes {
        [mark, ..] => *mark == MARK,
        [] => false,
    }
}

/// Replaces the bytes by those of a record. When out of memory, leaves other bytes.
pub(crate) fn spell(out: &mut Vec<u8>, name: &[u8], content: &[u8]) -> Result<(), AllocError>
    requires { length name.now ≤ 255 }
    ensures { OnOk result (out.new.items ≡ record_bytes name.now content.now) }
{
    out.clear();
    out.extend_from_slice(&[MARK, name.len() as u8])?;
    out.extend_from_slice(&(content.len() as u64).to_be_bytes())?;
    out.extend_from_slice(name)?;
    out.extend_from_slice(content)?;
    out.push(MARK)?;
    Ok(())
}
