ghost use Rattle.std.specs.Prelude.{◌≡◌, ◌+◌, ◌*◌, ◌<◌, ◌≤◌, ◌^◌, ◌++◌, length, OnOk, IfSome, IsSomeAnd, IsTrue, ◌↔◌, ◌-◌, ℕ};
ghost use Rattle.commit_frames.specs.Digits.{digits, either, number_in};
ghost use Rattle.commit_frames.specs.Headers.{rest_of};
ghost use Rattle.commit_frames.specs.Frames.{IsLostFrom};

use std::alloc::AllocError;

/// Appends the digits of a number, so many. When out of memory, some of them.
pub(crate) fn put_digits(out: &mut Vec<u8>, count: usize, number: u64) -> Result<(), AllocError>
    ensures { OnOk result (out.new.items ≡ out.old.items ++ digits count number) }
{
    let mut rest = number;
    for _place in 0..count {
        out.push(128 + (rest % 128) as u8)?;
        rest /= 128;
    }
    Ok(())
}

/// Returns the number of at most nine digits, or `None` if a byte is no digit. The digit `lost` stands
/// for each one that is 0.
pub(crate) fn number_of(bytes: &[u8], lost: u8) -> Option<u64>
    requires { length bytes.now ≤ 9 }
    ensures value { result ≡ number_in lost bytes.now }
    ensures below { IfSome result (λ n. n < 128 ^ length bytes.now) }
{
    let [byte, rest @ ..] = bytes else {
        return Some(0);
    };
    let digit = if *byte == 0 { lost } else { *byte };
    let higher = number_of(rest, lost)?;
    if digit < 128 {
        return None;
    }
    Some(u64::from(digit - 128) + 128 * higher)
}

/// Returns whether each byte is 0 or that digit of a number.
pub(crate) fn may_be(bytes: &[u8], number: u64) -> bool
    ensures { IsTrue result ↔ IsLostFrom (digits (length bytes.now) number) bytes.now }
{
    let [byte, rest @ ..] = bytes else {
        return true;
    };
    let digit = 128 + (number % 128) as u8;
    (*byte == 0 || *byte == digit) && may_be(rest, number / 128)
}

/// Returns the digit that is spelled twice by these bytes, the second time as 383 less it; 0 if both are
/// 0, and `None` if they tell no digit or two.
fn either(byte: u8, twin: u8) -> Option<u8>
    ensures { result ≡ either byte twin }
{
    if twin == 0 {
        return Some(byte);
    }
    if twin < 128 {
        return None;
    }
    let digit = 255 - (twin - 128);
    if byte == 0 || byte == digit {
        Some(digit)
    } else {
        None
    }
}

/// Returns the five digits of a number that these bytes spell, and then what is left of it; 0 stands for
/// each that was lost twice. `None` if they are not left of one number.
pub(crate) fn merged(bytes: &[u8], twins: &[u8]) -> Option<[u8; 5]>
    requires bytes { length bytes.now ≡ 5 }
    requires twins { length twins.now ≡ 5 }
    ensures size { IfSome result (λ m. length m ≡ 5) }
    ensures there { IfSome result (λ m. (n : ℕ) → n < 2 ^ 35 → IsLostFrom (digits 5 n) m → IsLostFrom (digits 5 n) bytes.now × IsLostFrom (digits 5 (rest_of n)) twins.now) }
    ensures each { (n : ℕ) → n < 2 ^ 35 → IsLostFrom (digits 5 n) bytes.now → IsLostFrom (digits 5 (rest_of n)) twins.now → IsSomeAnd result (λ m. IsLostFrom (digits 5 n) m) }
{
    Some([
        either(bytes[0], twins[0])?,
        either(bytes[1], twins[1])?,
        either(bytes[2], twins[2])?,
        either(bytes[3], twins[3])?,
        either(bytes[4], twins[4])?,
    ])
}
