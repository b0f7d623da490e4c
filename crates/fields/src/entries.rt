ghost use Rattle.std.specs.Prelude.{◌≡◌, ◌≤◌, ◌++◌, take, length, IfOk, IfErr, OnOk, OnErr};
ghost use Rattle.fields.specs.Reading.{Gives};
ghost use Rattle.fields.specs.Faults.{BreaksNoRule};
ghost use Rattle.fields.specs.Numbers.{run_at, IsRun};
ghost use Rattle.fields.specs.Entries.{IsEntry, entry_spelling, entry_at};

use crate::field_error::FieldError;
use crate::strings::{put_key, take_key};
use crate::versions::{put_version, take_version};
use ens_base::{Digest, Entry};
use std::alloc::Global;

/// Reads the 16 bytes of a digest at `at`. Returns it and the place after it.
pub fn take_digest(bytes: &[u8], at: usize) -> Result<(Digest, usize), FieldError>
    requires { at ≤ length bytes.now }
    ensures exact { run_at 16 bytes.now at ≡ result }
    ensures unruled { BreaksNoRule result }
    ensures within { IfOk result (λ x. x.1 ≤ length bytes.now) }
{
    if bytes.len() - at < 16 {
        return Err(FieldError::Short(at));
    }
    let mut digest = [0u8; 16];
    digest.copy_from_slice(&bytes[at..at + 16]);
    Ok((Digest(digest), at + 16))
}

/// Reads an entry at `at`. Returns it and the place after it.
#[tactic(auto, unfolding(crate::specs::Entries::entry_at))]
pub fn take_entry(alloc: Global, bytes: &[u8], at: usize) -> Result<(Entry, usize), FieldError>
    requires { at ≤ length bytes.now }
    ensures exact { Gives result (entry_at bytes.now at) }
    ensures within { IfOk result (λ x. x.1 ≤ length bytes.now) }
{
    let (key, at) = take_key(alloc, bytes, at)?;
    let (version, at) = take_version(bytes, at)?;
    let (digest, at) = take_digest(bytes, at)?;
    Ok((
        Entry {
            key,
            version,
            digest,
        },
        at,
    ))
}

/// The 16 bytes of the digest.
fn digest_bytes(x: Digest) -> [u8; 16]
    ensures spelled { result ≡ x }
    ensures valid { IsRun 16 x }
{
    let Digest(bytes) = x;
    bytes
}

/// Appends the spelling of the digest, or leaves `out` as it was.
pub fn put_digest(x: &Digest, out: &mut Vec<u8>) -> Result<(), FieldError>
    ensures ok { OnOk result (out.new.items ≡ out.old.items ++ x.now) }
    ensures valid { IsRun 16 x.now }
    ensures err { OnErr result (out.new.items ≡ out.old.items) }
    ensures memory { IfErr result (λ e. e ≡ FieldError.Memory) }
{
    let bytes = digest_bytes(*x);
    out.extend_from_slice(&bytes)?;
    Ok(())
}

/// Appends the spelling of the entry. Out of memory leaves a part of it behind what `out` held.
fn append_entry(x: &Entry, out: &mut Vec<u8>) -> Result<(), FieldError>
    ensures ok { OnOk result (out.new.items ≡ out.old.items ++ entry_spelling x.now) }
    ensures valid { OnOk result (IsEntry x.now) }
    ensures kept { take (length out.old.items) out.new.items ≡ out.old.items }
    ensures memory { IfErr result (λ e. e ≡ FieldError.Memory) }
{
    put_key(&x.key, out)?;
    put_version(&x.version, out)?;
    put_digest(&x.digest, out)
}

/// Appends the spelling of the entry, or leaves `out` as it was.
pub fn put_entry(x: &Entry, out: &mut Vec<u8>) -> Result<(), FieldError>
    ensures ok { OnOk result (out.new.items ≡ out.old.items ++ entry_spelling x.now) }
    ensures valid { OnOk result (IsEntry x.now) }
    ensures err { OnErr result (out.new.items ≡ out.old.items) }
    ensures memory { IfErr result (λ e. e ≡ FieldError.Memory) }
{
    let size = out.len();
    match append_entry(x, out) {
        Ok(()) => Ok(()),
        Err(e) => {
            out.truncate(size);
            Err(e)
        }
    }
}
