ghost use Rattle.std.specs.Prelude.{◌≡◌};
ghost use Rattle.http_calls.specs.Methods.{method_of, is_unknown, is_write};

/// The method of a request (RFC 9110, section 9), whose case counts.
#[derive(Clone, Copy)]
pub enum Method {
    Get,
    Head,
    Put,
    Delete,
    Post,
    /// Any other one.
    Other,
}

impl Method {
    pub fn of(method: &[u8]) -> Method
        ensures { result ≡ method_of method.now }
    {
        if method == b"GET".as_slice() {
            Method::Get
        } else if method == b"HEAD".as_slice() {
            Method::Head
        } else if method == b"PUT".as_slice() {
            Method::Put
        } else if method == b"DELETE".as_slice() {
            Method::Delete
        } else if method == b"POST".as_slice() {
            Method::Post
        } else {
            Method::Other
        }
    }

    /// Whether no path has this method.
    pub fn is_unknown(self) -> bool
        ensures { result ≡ is_unknown self }
    {
        matches!(self, Method::Other)
    }

    /// Whether a request with this method may change something: any but GET and HEAD.
    pub fn is_write(self) -> bool
        ensures { result ≡ is_write self }
    {
        !matches!(self, Method::Get | Method::Head)
    }
}
