ghost use Rattle.std.specs.Prelude.{◌≡◌, ◌+◌, ◌≤◌, ◌++◌, ◌∷◌, [], length, IfOk, IfErr, OnOk, OnErr};
ghost use Rattle.fields.specs.Places.{Writes};
ghost use Rattle.byteorder.specs.Endian.{big_bytes};
ghost use Rattle.fields.specs.Numbers.{byte_at, number_at};
ghost use Rattle.fields.specs.Faults.{BreaksNoRule};

use crate::field_error::FieldError;
use byteorder::{BigEndian, ByteOrder};

/// Reads the byte at `at`. Returns it and the place after it.
pub fn take_u8(bytes: &[u8], at: usize) -> Result<(u8, usize), FieldError>
    requires { at ≤ length bytes.now }
    ensures exact { byte_at bytes.now at ≡ result }
    ensures unruled { BreaksNoRule result }
    ensures within { IfOk result (λ x. x.1 ≤ length bytes.now) }
{
    if at == bytes.len() {
        return Err(FieldError::Short(at));
    }
    Ok((bytes[at], at + 1))
}

/// Reads a number of two bytes at `at`, the high byte first. Returns it and the place after it.
pub fn take_u16(bytes: &[u8], at: usize) -> Result<(u16, usize), FieldError>
    requires { at ≤ length bytes.now }
    ensures exact { number_at 2 bytes.now at ≡ result }
    ensures unruled { BreaksNoRule result }
    ensures within { IfOk result (λ x. x.1 ≤ length bytes.now) }
{
    if bytes.len() - at < 2 {
        return Err(FieldError::Short(at));
    }
    Ok((BigEndian::read_u16(&bytes[at..]), at + 2))
}

/// Reads a number of four bytes at `at`, the highest byte first. Returns it and the place after it.
pub fn take_u32(bytes: &[u8], at: usize) -> Result<(u32, usize), FieldError>
    requires { at ≤ length bytes.now }
    ensures exact { number_at 4 bytes.now at ≡ result }
    ensures unruled { BreaksNoRule result }
    ensures within { IfOk result (λ x. x.1 ≤ length bytes.now) }
{
    if bytes.len() - at < 4 {
        return Err(FieldError::Short(at));
    }
    Ok((BigEndian::read_u32(&bytes[at..]), at + 4))
}

/// Reads a number of eight bytes at `at`, the highest byte first. Returns it and the place after it.
pub fn take_u64(bytes: &[u8], at: usize) -> Result<(u64, usize), FieldError>
    requires { at ≤ length bytes.now }
    ensures exact { number_at 8 bytes.now at ≡ result }
    ensures unruled { BreaksNoRule result }
    ensures within { IfOk result (λ x. x.1 ≤ length bytes.now) }
{
    if bytes.len() - at < 8 {
        return Err(FieldError::Short(at));
    }
    Ok((BigEndian::read_u64(&bytes[at..]), at + 8))
}

/// Appends the byte, or leaves `out` as it was.
pub fn put_u8(x: u8, out: &mut Vec<u8>) -> Result<(), FieldError>
    ensures ok { OnOk result (out.new.items ≡ out.old.items ++ x ∷ []) }
    ensures err { OnErr result (out.new.items ≡ out.old.items) }
    ensures memory { IfErr result (λ e. e ≡ FieldError.Memory) }
{
    out.push(x)?;
    Ok(())
}

/// Appends the number in two bytes, the high byte first, or leaves `out` as it was.
pub fn put_u16(x: u16, out: &mut Vec<u8>) -> Result<(), FieldError>
    ensures ok { OnOk result (out.new.items ≡ out.old.items ++ big_bytes 2 x) }
    ensures err { OnErr result (out.new.items ≡ out.old.items) }
    ensures memory { IfErr result (λ e. e ≡ FieldError.Memory) }
{
    let mut spelling = [0u8; 2];
    BigEndian::write_u16(&mut spelling, x);
    out.extend_from_slice(&spelling)?;
    Ok(())
}

/// Appends the number in four bytes, the highest byte first, or leaves `out` as it was.
pub fn put_u32(x: u32, out: &mut Vec<u8>) -> Result<(), FieldError>
    ensures ok { OnOk result (out.new.items ≡ out.old.items ++ big_bytes 4 x) }
    ensures err { OnErr result (out.new.items ≡ out.old.items) }
    ensures memory { IfErr result (λ e. e ≡ FieldError.Memory) }
{
    let mut spelling = [0u8; 4];
    BigEndian::write_u32(&mut spelling, x);
    out.extend_from_slice(&spelling)?;
    Ok(())
}

/// Appends the number in eight bytes, the highest byte first, or leaves `out` as it was.
pub fn put_u64(x: u64, out: &mut Vec<u8>) -> Result<(), FieldError>
    ensures ok { OnOk result (out.new.items ≡ out.old.items ++ big_bytes 8 x) }
    ensures err { OnErr result (out.new.items ≡ out.old.items) }
    ensures memory { IfErr result (λ e. e ≡ FieldError.Memory) }
{
    let mut spelling = [0u8; 8];
    BigEndian::write_u64(&mut spelling, x);
    out.extend_from_slice(&spelling)?;
    Ok(())
}

/// Writes the byte at `at` and returns the place after it.
pub fn write_u8(x: u8, out: &mut [u8], at: usize) -> usize
    requires { at + 1 ≤ length out.old }
    ensures { Writes out.old out.new at (x ∷ []) result }
{
    out[at] = x;
    at + 1
}

/// Writes the number in four bytes at `at`, the highest byte first, and returns the place after it.
pub fn write_u32(x: u32, out: &mut [u8], at: usize) -> usize
    requires { at + 4 ≤ length out.old }
    ensures { Writes out.old out.new at (big_bytes 4 x) result }
{
    out[at..at + 4].copy_from_slice(&x.to_be_bytes());
    at + 4
}

/// Writes the bytes at `at` and returns the place after them.
pub fn write_bytes(x: &[u8], out: &mut [u8], at: usize) -> usize
    requires { at + length x.now ≤ length out.old }
    ensures { Writes out.old out.new at x.now result }
{
    let end = at + x.len();
    out[at..end].copy_from_slice(x);
    end
}

/// Writes the number in eight bytes at `at`, the highest byte first, and returns the place after it.
pub fn write_u64(x: u64, out: &mut [u8], at: usize) -> usize
    requires { at + 8 ≤ length out.old }
    ensures { Writes out.old out.new at (big_bytes 8 x) result }
{
    out[at..at + 8].copy_from_slice(&x.to_be_bytes());
    at + 8
}
