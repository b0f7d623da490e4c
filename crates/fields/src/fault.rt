ghost use Rattle.std.specs.Prelude.{◌≡◌};
ghost use Rattle.fields.specs.Faults.{with_rule as named, plain as unruled, without_rule as unnamed, BreaksNoRule};

use crate::field_error::FieldError;

/// The first fault of a value that is made of several fields, with the name of the rule that is broken.
/// Places are those of [`FieldError`].
#[derive(Clone, Copy, Debug, PartialEq, Eq)]
pub enum Fault<R> {
    /// The bytes end before the part at this place does.
    Ended(usize),
    /// The part at this place breaks this rule.
    Broken(R, usize),
    /// Memory ran out.
    NoMemory,
}

/// Names the rule that a broken field breaks.
pub fn with_rule<T, R: Copy>(read: Result<T, FieldError>, rule: R) -> Result<T, Fault<R>>
    ensures { result ≡ named rule read }
{
    match read {
        Ok(value) => Ok(value),
        Err(FieldError::Short(at)) => Err(Fault::Ended(at)),
        Err(FieldError::Rule(at)) => Err(Fault::Broken(rule, at)),
        Err(FieldError::Memory) => Err(Fault::NoMemory),
    }
}

/// Turns the answer of a field that has no rule into that of a value made of fields. A broken rule
/// would be reported as an early end, so the field must break none.
pub fn plain<T, R: Copy>(read: Result<T, FieldError>) -> Result<T, Fault<R>>
    requires { BreaksNoRule read }
    ensures { result ≡ unruled read }
{
    match read {
        Ok(value) => Ok(value),
        Err(FieldError::Short(at)) => Err(Fault::Ended(at)),
        Err(FieldError::Rule(_)) => unreachable!(),
        Err(FieldError::Memory) => Err(Fault::NoMemory),
    }
}

/// Drops the name of the rule.
pub fn without_rule<T, R: Copy>(read: Result<T, Fault<R>>) -> Result<T, FieldError>
    ensures { result ≡ unnamed read }
{
    match read {
        Ok(value) => Ok(value),
        Err(Fault::Ended(at)) => Err(FieldError::Short(at)),
        Err(Fault::Broken(_rule, at)) => Err(FieldError::Rule(at)),
        Err(Fault::NoMemory) => Err(FieldError::Memory),
    }
}
