ghost use Rattle.std.specs.Prelude.{◌≡◌, option_map};
ghost use Rattle.http1.specs.Head.{pairs};
ghost use Rattle.http_calls.specs.Conditions.{condition_of, tag_condition, none_condition, has_date, chosen};

use crate::problem::Problem;
use crate::request_fields::field;
use crate::stamp::stamp_of;
use ens_base::Version;
use http1::Header;

/// The condition of a request (RFC 9110, section 13.1).
#[derive(Clone, Copy)]
pub enum Condition {
    /// None.
    Always,
    /// `If-Match: "STAMP"`: the value has this stamp.
    IfMatch(Version),
    /// `If-None-Match: *`: there is no value.
    IfAbsent,
    /// `If-None-Match: "STAMP"`: the value has another stamp, or there is none.
    IfNoneMatch(Version),
}

fn tag_condition(value: &[u8]) -> Result<Condition, Problem>
    ensures { result ≡ tag_condition value.now }
{
    match stamp_of(value) {
        Some(stamp) => Ok(Condition::IfMatch(stamp)),
        None => Err(Problem::BadCondition),
    }
}

fn none_condition(value: &[u8]) -> Result<Condition, Problem>
    ensures { result ≡ none_condition value.now }
{
    if value == b"*".as_slice() {
        return Ok(Condition::IfAbsent);
    }
    match stamp_of(value) {
        Some(stamp) => Ok(Condition::IfNoneMatch(stamp)),
        None => Err(Problem::BadCondition),
    }
}

/// Whether there is a condition on dates or ranges, which no request here may have.
fn has_date(headers: &[Header<'_>]) -> Result<bool, Problem>
    ensures { result ≡ has_date (pairs headers.now) }
{
    Ok(
        field(headers, b"if-modified-since")?.is_some()
            || field(headers, b"if-unmodified-since")?.is_some()
            || field(headers, b"if-range")?.is_some(),
    )
}

/// The condition that the fields state.
///
/// # Errors
/// `RepeatedField`, `BadCondition` or `UnknownCondition`.
pub(crate) fn read_condition(headers: &[Header<'_>]) -> Result<Condition, Problem>
    ensures { result ≡ condition_of (pairs headers.now) }
{
    if has_date(headers)? {
        return Err(Problem::UnknownCondition);
    }
    match (
        field(headers, b"if-match")?,
        field(headers, b"if-none-match")?,
    ) {
        (None, None) => Ok(Condition::Always),
        (Some(tag), None) => tag_condition(tag),
        (None, Some(tag)) => none_condition(tag),
        (Some(_), Some(_)) => Err(Problem::UnknownCondition),
    }
}
