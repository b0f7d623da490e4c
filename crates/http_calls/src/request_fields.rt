ghost use Rattle.std.specs.Prelude.{◌≡◌, option_map};
ghost use Rattle.http1.specs.Head.{pairs};
ghost use Rattle.http_calls.specs.Fields.{field_of, seen};

use crate::problem::Problem;
use http1::Header;
use http1::text::eq_ignore_case;

/// The value of the field with this name, if there is one.
///
/// # Errors
/// `RepeatedField` if there are several.
pub(crate) fn field<'a>(headers: &[Header<'a>], name: &[u8]) -> Result<Option<&'a [u8]>, Problem>
    ensures { seen result ≡ field_of name.now (pairs headers.now) }
{
    let mut found = None;
    for header in headers {
        if eq_ignore_case(header.name, name) {
            if found.is_some() {
                return Err(Problem::RepeatedField);
            }
            found = Some(header.value);
        }
    }
    Ok(found)
}
