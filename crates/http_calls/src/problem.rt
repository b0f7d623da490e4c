ghost use Rattle.std.specs.Prelude.{◌≡◌};
ghost use Rattle.http_calls.specs.declared.problem.CallError.TheVariants.{Memory, Refused};
ghost use Rattle.http_calls.specs.Problems.{problem_status, problem_text, allowed_methods};

use std::alloc::AllocError;

/// The methods that a path allows.
#[derive(Clone, Copy, Debug, PartialEq, Eq)]
pub enum Allowed {
    /// Those of a key: GET, HEAD, PUT, DELETE and POST.
    Keys,
    /// GET and HEAD.
    Reads,
    /// POST.
    Posts,
    /// PUT.
    Puts,
}

impl Allowed {
    /// The value of the field `allow`.
    pub fn methods(self) -> &'static [u8]
        ensures { result.now ≡ allowed_methods self }
    {
        match self {
            Allowed::Keys => b"GET, HEAD, PUT, DELETE, POST",
            Allowed::Reads => b"GET, HEAD",
            Allowed::Posts => b"POST",
            Allowed::Puts => b"PUT",
        }
    }
}

/// Why a request is no call, or why its call was given up. Each but `Silent` had no effect.
#[derive(Clone, Copy, Debug, PartialEq, Eq)]
pub enum Problem {
    /// The target is no path with a query. 400.
    BadTarget,
    /// The key is not 1 to 64 bytes, or is spelled with a `/` or a `%` without two digits. 400.
    BadKey,
    /// A parameter that this method of this path does not have, or one that is spelled wrong. 400.
    BadParameter,
    /// A condition whose value is no stamp. 400.
    BadCondition,
    /// The body of an addition is no decimal number below 2^64. 400.
    BadNumber,
    /// A body where none is taken. 400.
    BadBody,
    /// A field that stands several times, and may not. 400.
    RepeatedField,
    /// A write that a page of another origin sent. 403.
    ForeignOrigin,
    /// A path that names nothing here. 404.
    UnknownPath,
    /// A method that the path does not allow. 405.
    UnknownMethod(Allowed),
    /// A value of more than 1,024 bytes. 413.
    TooLong,
    /// A host that is neither an address nor a name of a peer. 421.
    UnknownHost,
    /// A condition that this method does not have. 501.
    UnknownCondition,
    /// The call waited too long for its turn, and was not begun. 503.
    Late,
    /// The peer has no room for the write, and did not begin it. 507.
    Full,
    /// The call was begun, and no reply came in time. 504.
    Silent,
}

impl Problem {
    /// The status, from 400 to 507.
    pub fn status(self) -> u16
        ensures { result ≡ problem_status self }
    {
        match self {
            Problem::ForeignOrigin => 403,
            Problem::UnknownPath => 404,
            Problem::UnknownMethod(_) => 405,
            Problem::TooLong => 413,
            Problem::UnknownHost => 421,
            Problem::UnknownCondition => 501,
            Problem::Late => 503,
            Problem::Silent => 504,
            Problem::Full => 507,
            _ => 400,
        }
    }

    /// A line for people.
    pub fn text(self) -> &'static [u8]
        ensures { result.now ≡ problem_text self }
    {
        match self {
            Problem::BadTarget => b"the target is not a path\n",
            Problem::BadKey => b"a key is one segment of 1 to 64 bytes\n",
            Problem::BadParameter => b"unknown parameter\n",
            Problem::BadCondition => b"the condition is not a stamp\n",
            Problem::BadNumber => b"the body is not a number below 2^64\n",
            Problem::BadBody => b"this request has no body\n",
            Problem::RepeatedField => b"a field stands twice\n",
            Problem::ForeignOrigin => b"foreign origin\n",
            Problem::UnknownPath => b"unknown path\n",
            Problem::UnknownMethod(_) => b"method not allowed\n",
            Problem::TooLong => b"a value has at most 1024 bytes\n",
            Problem::UnknownHost => b"unknown host\n",
            Problem::UnknownCondition => b"unknown condition\n",
            Problem::Late => b"no effect: the call waited too long for its turn\n",
            Problem::Full => b"no effect: no room for the write\n",
            Problem::Silent => b"unknown: it may have taken effect, or may yet\n",
        }
    }
}

/// Why there is no call.
#[derive(Clone, Copy, Debug, PartialEq, Eq)]
pub enum CallError {
    Refused(Problem),
    /// Out of memory.
    Memory,
}

impl From<Problem> for CallError {
    ghost from_gives = { λ p e. e ≡ Refused p };

    fn from(problem: Problem) -> CallError {
        CallError::Refused(problem)
    }
}

impl From<AllocError> for CallError {
    ghost from_gives = { λ _ e. e ≡ Memory };

    fn from(_e: AllocError) -> CallError {
        CallError::Memory
    }
}
