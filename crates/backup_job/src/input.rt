ghost use Rattle.std.specs.Prelude.{◌≡◌, ◌≢◌, ◌≤◌, ◌<◌, ◌+◌, length, true, false, vec_len, vec_capacity, IfOk, IfErr, OnOk, OnErr, IsErrOf};
ghost use Rattle.std.specs.Io.KnownBytes.{prepend_known, Keeps, IsAtEnd};
ghost use Rattle.ens_base.specs.Causes.{Rose};
ghost use Rattle.backup_job.specs.Printed.{GaveAtMost, IsTooLong};

use ens_base::Failed;
use environment::Source;
use std::alloc::{AllocError, Global};

/// The most bytes that a backup may have.
pub(crate) const MOST_BYTES: usize = 268_435_456;

/// The most bytes that are read at once.
const PIECE: usize = 4_096;

/// Why the input was not read to its end.
#[derive(Clone, Copy, Debug, PartialEq, Eq)]
pub(crate) enum InputError {
    /// The input failed. Its fault count has risen.
    Failed,
    /// It has more bytes than a backup may have.
    TooLong,
    /// Out of memory.
    Memory,
}

/// Makes room for `size` bytes more. The capacity doubles, but not beyond what is read at most.
fn make_room(bytes: &mut Vec<u8>, size: usize) -> Result<(), AllocError>
    requires some { vec_len bytes.old ≤ 268435456 }
    requires fits { vec_len bytes.old + size ≤ 268435457 }
    ensures kept { bytes.new.items ≡ bytes.old.items }
    ensures same { vec_len bytes.new ≡ vec_len bytes.old }
    ensures room { OnOk result (vec_len bytes.new + size ≤ vec_capacity bytes.new) }
{
    if bytes.capacity() < MOST_BYTES / 2 {
        bytes.reserve(size)
    } else {
        bytes.reserve_exact(MOST_BYTES + 1 - bytes.len())
    }
}

/// Reads one piece behind the bytes. Returns whether there was any.
fn fill<S: Source>(bytes: &mut Vec<u8>, input: &mut S) -> Result<bool, InputError>
    requires { vec_len bytes.old ≤ 268435456 }
    ensures kept { Keeps (prepend_known bytes.old.items (S.left input.old)) (prepend_known bytes.new.items (S.left input.new)) }
    ensures end { IfOk result (λ more. more ≡ false → (bytes.new.items ≡ bytes.old.items) × IsAtEnd (S.left input.new)) }
    ensures grows { IfOk result (λ more. more ≡ true → vec_len bytes.old < vec_len bytes.new) }
    ensures most { vec_len bytes.new ≤ 268435457 }
    ensures later { S.fault_count input.old ≤ S.fault_count input.new }
    ensures failed { IsErrOf result InputError.Failed → Rose (S.fault_count input.old) (S.fault_count input.new) }
    ensures short { IfErr result (λ e. e ≢ InputError.TooLong) }
    ensures err { OnErr result (vec_len bytes.new ≡ vec_len bytes.old) }
{
    let size = (MOST_BYTES + 1 - bytes.len()).min(PIECE);
    if make_room(bytes, size).is_err() {
        return Err(InputError::Memory);
    }
    let mut piece = [0u8; PIECE];
    match input.read_some(&mut piece[..size]) {
        Ok(n) => {
            bytes.extend_from_slice(&piece[..n]).unwrap();
            Ok(n > 0)
        }
        Err(Failed) => Err(InputError::Failed),
    }
}

/// Reads the input to its end, or to the first byte that a backup may not have. However it ends, it takes no more
/// bytes than these; if the input failed, none of those that it gave was one too many.
pub(crate) fn read_all<S: Source>(alloc: Global, input: &mut S) -> Result<Vec<u8>, InputError>
    ensures read { IfOk result (λ v. Keeps (S.left input.old) (prepend_known v.items (S.left input.new))) }
    ensures end { IfOk result (λ v. IsAtEnd (S.left input.new)) }
    ensures most { IfOk result (λ v. length v.items ≤ 268435456) }
    ensures long { IsErrOf result InputError.TooLong → IsTooLong (S.left input.old) }
    ensures taken { GaveAtMost 268435457 (S.left input.old) (S.left input.new) }
    ensures cut { IsErrOf result InputError.Failed → GaveAtMost 268435456 (S.left input.old) (S.left input.new) }
    ensures later { S.fault_count input.old ≤ S.fault_count input.new }
    ensures failed { IsErrOf result InputError.Failed → Rose (S.fault_count input.old) (S.fault_count input.new) }
{
    let mut bytes = Vec::new(alloc);
    while bytes.len() <= MOST_BYTES {
        if !fill(&mut bytes, input)? {
            return Ok(bytes);
        }
    }
    Err(InputError::TooLong)
}
