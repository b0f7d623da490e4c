ghost use Rattle.std.specs.Prelude.{◌≡◌};
ghost use Rattle.http_exchange.specs.Refusals.{refusal_text};

use http1::{ReadError, WriteError};

/// Why a connection ends with an error of its own.
#[derive(Clone, Copy, Debug, PartialEq, Eq)]
pub enum Refusal {
    /// What came is no request within the limits of its parts. The status is 414 if the request line is
    /// too long, 431 if the head or the trailers are, or have too many fields, and else 400.
    Unreadable(ReadError),
    /// The body has more than 1,024 bytes. The status is 413.
    BodyTooLong,
    /// The text of the request is longer than 32 KiB. The status is 413.
    TextTooLong,
    /// The body has a transfer coding other than `chunked` (RFC 9112, section 6.1). The status is 501.
    UnknownCoding,
    /// The answer is none that may be sent. The status is 500.
    InvalidAnswer(WriteError),
}

const BAD_REQUEST: &[u8] =
    b"HTTP/1.1 400 Bad Request\r\nconnection: close\r\ncontent-length: 0\r\n\r\n";

const TOO_LARGE: &[u8] =
    b"HTTP/1.1 413 Content Too Large\r\nconnection: close\r\ncontent-length: 0\r\n\r\n";

const URI_TOO_LONG: &[u8] =
    b"HTTP/1.1 414 URI Too Long\r\nconnection: close\r\ncontent-length: 0\r\n\r\n";

const FIELDS_TOO_LARGE: &[u8] =
    b"HTTP/1.1 431 Request Header Fields Too Large\r\nconnection: close\r\ncontent-length: 0\r\n\r\n";

const SERVER_ERROR: &[u8] =
    b"HTTP/1.1 500 Internal Server Error\r\nconnection: close\r\ncontent-length: 0\r\n\r\n";

const NOT_IMPLEMENTED: &[u8] =
    b"HTTP/1.1 501 Not Implemented\r\nconnection: close\r\ncontent-length: 0\r\n\r\n";

impl Refusal {
    /// The answer that says so: a status, no body, and that the connection ends.
    pub fn text(self) -> &'static [u8]
        ensures { result.now ≡ refusal_text self }
    {
        match self {
            Refusal::Unreadable(ReadError::UriTooLong) => URI_TOO_LONG,
            Refusal::Unreadable(e) if e.status() == 431 => FIELDS_TOO_LARGE,
            Refusal::Unreadable(_) => BAD_REQUEST,
            Refusal::BodyTooLong => TOO_LARGE,
            Refusal::TextTooLong => TOO_LARGE,
            Refusal::UnknownCoding => NOT_IMPLEMENTED,
            Refusal::InvalidAnswer(_) => SERVER_ERROR,
        }
    }
}
