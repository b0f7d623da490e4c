ghost use Rattle.std.specs.Prelude.{◌≡◌, ◌+◌, ◌≤◌, ◌++◌, length, IfOk, IfErr, OnOk, OnErr};
ghost use Rattle.fields.specs.Places.{Writes};
ghost use Rattle.fields.specs.Faults.{BreaksNoRule};
ghost use Rattle.ens_base.specs.Limits.{IsEpoch, IsVersion};
ghost use Rattle.fields.specs.Versions.{epoch_spelling, epoch_at, version_spelling, version_at};

use crate::field_error::FieldError;
use crate::numbers::{take_u32, take_u64, write_bytes};
use byteorder::{BigEndian, ByteOrder};
use ens_base::{Epoch, Version};

/// Reads the 12 bytes of an epoch at `at`. Returns it and the place after it.
#[tactic(auto, unfolding(crate::specs::Versions::epoch_at))]
pub fn take_epoch(bytes: &[u8], at: usize) -> Result<(Epoch, usize), FieldError>
    requires { at ≤ length bytes.now }
    ensures exact { epoch_at bytes.now at ≡ result }
    ensures unruled { BreaksNoRule result }
    ensures within { IfOk result (λ x. x.1 ≤ length bytes.now) }
{
    let (count, at) = take_u64(bytes, at)?;
    let (proposer, at) = take_u32(bytes, at)?;
    Ok((Epoch { count, proposer }, at))
}

/// Reads the 20 bytes of a version at `at`. Returns it and the place after it.
#[tactic(auto, unfolding(crate::specs::Versions::version_at))]
pub fn take_version(bytes: &[u8], at: usize) -> Result<(Version, usize), FieldError>
    requires { at ≤ length bytes.now }
    ensures exact { version_at bytes.now at ≡ result }
    ensures unruled { BreaksNoRule result }
    ensures within { IfOk result (λ x. x.1 ≤ length bytes.now) }
{
    let (epoch, at) = take_epoch(bytes, at)?;
    let (seq, at) = take_u64(bytes, at)?;
    Ok((Version { epoch, seq }, at))
}

/// The spelling of the epoch.
fn epoch_bytes(x: Epoch) -> [u8; 12]
    ensures spelled { result ≡ epoch_spelling x }
    ensures valid { IsEpoch x }
{
    let mut spelling = [0u8; 12];
    BigEndian::write_u64(&mut spelling, x.count);
    BigEndian::write_u32(&mut spelling[8..], x.proposer);
    spelling
}

/// The spelling of the version.
fn version_bytes(x: Version) -> [u8; 20]
    ensures spelled { result ≡ version_spelling x }
    ensures valid { IsVersion x }
{
    let mut spelling = [0u8; 20];
    BigEndian::write_u64(&mut spelling, x.epoch.count);
    BigEndian::write_u32(&mut spelling[8..], x.epoch.proposer);
    BigEndian::write_u64(&mut spelling[12..], x.seq);
    spelling
}

/// Appends the spelling of the epoch, or leaves `out` as it was.
pub fn put_epoch(x: &Epoch, out: &mut Vec<u8>) -> Result<(), FieldError>
    ensures ok { OnOk result (out.new.items ≡ out.old.items ++ epoch_spelling x.now) }
    ensures valid { IsEpoch x.now }
    ensures err { OnErr result (out.new.items ≡ out.old.items) }
    ensures memory { IfErr result (λ e. e ≡ FieldError.Memory) }
{
    let spelling = epoch_bytes(*x);
    out.extend_from_slice(&spelling)?;
    Ok(())
}

/// Appends the spelling of the version, or leaves `out` as it was.
pub fn put_version(x: &Version, out: &mut Vec<u8>) -> Result<(), FieldError>
    ensures ok { OnOk result (out.new.items ≡ out.old.items ++ version_spelling x.now) }
    ensures valid { IsVersion x.now }
    ensures err { OnErr result (out.new.items ≡ out.old.items) }
    ensures memory { IfErr result (λ e. e ≡ FieldError.Memory) }
{
    let spelling = version_bytes(*x);
    out.extend_from_slice(&spelling)?;
    Ok(())
}

/// Writes the 12 bytes of the epoch at `at` and returns the place after them.
pub fn write_epoch(x: &Epoch, out: &mut [u8], at: usize) -> usize
    requires { at + 12 ≤ length out.old }
    ensures written { Writes out.old out.new at (epoch_spelling x.now) result }
    ensures valid { IsEpoch x.now }
{
    let spelling = epoch_bytes(*x);
    write_bytes(&spelling, out, at)
}
