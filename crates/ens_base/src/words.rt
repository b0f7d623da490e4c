ghost use Rattle.std.specs.Prelude.{◌≡◌, ◌++◌, OnOk, OnErr, string_bytes};
ghost use Rattle.ens_base.specs.Words.{bytes_word, value_word};

use std::alloc::{AllocError, Global};

/// Appends bytes as pairs of lower-case hexadecimal digits. When out of memory, leaves the text
/// unchanged.
pub fn push_bytes(alloc: Global, out: &mut String, bytes: &[u8]) -> Result<(), AllocError>
    ensures ok { OnOk result (string_bytes out.new ≡ string_bytes out.old ++ bytes_word bytes.now) }
    ensures err { OnErr result (string_bytes out.new ≡ string_bytes out.old) }
{
    let digits = hex::encode(alloc, bytes)?;
    out.push_str(digits.as_str())
}

/// Appends a value as a word: its bytes in hexadecimal, or a dash if it is empty. When out of
/// memory, leaves the text unchanged.
pub fn push_value(alloc: Global, out: &mut String, bytes: &[u8]) -> Result<(), AllocError>
    ensures ok { OnOk result (string_bytes out.new ≡ string_bytes out.old ++ value_word bytes.now) }
    ensures err { OnErr result (string_bytes out.new ≡ string_bytes out.old) }
{
    if bytes.is_empty() {
        return out.push_str("-");
    }
    push_bytes(alloc, out, bytes)
}
