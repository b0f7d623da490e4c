ghost use Rattle.std.specs.Prelude.{◌≡◌, ◌≤◌, ◌<◌, ◌^◌, length, option_map, IfSome};
ghost use Rattle.http_calls.specs.Targets.{path_len, path_of, query_of, number_of};
ghost use Rattle.std.specs.List.{prefix_len};

fn path_len(target: &[u8]) -> usize
    ensures value { result ≡ path_len target.now }
    ensures within { result ≤ length target.now }
{
    target.iter().take_while(|b| **b != b'?').count()
}

/// The path of a target: what comes before the first `?`.
pub(crate) fn path(target: &[u8]) -> &[u8]
    ensures { result.now ≡ path_of target.now }
{
    &target[..path_len(target)]
}

/// The query of a target, if it has one: what follows the first `?`.
pub(crate) fn query(target: &[u8]) -> Option<&[u8]>
    ensures { option_map (λ q. q.now) result ≡ query_of target.now }
{
    let len = path_len(target);
    if len == target.len() {
        return None;
    }
    Some(&target[len + 1..])
}

/// The number that the digits write, below 2^64.
pub(crate) fn number(mut digits: &[u8]) -> Option<u64>
    ensures { result ≡ number_of digits.entry.now }
{
    if digits.is_empty() {
        return None;
    }
    let mut number = 0u64;
    while let [digit, rest @ ..] = digits {
        if !digit.is_ascii_digit() {
            return None;
        }
        number = number.checked_mul(10)?.checked_add((*digit - b'0') as u64)?;
        digits = rest;
    }
    Some(number)
}
