//! The request at the front of what was received.
ghost use Rattle.std.specs.Prelude.{◌≡◌, ◌≤◌, length, drop, IfOk};
ghost use Rattle.httparse.specs.Spans.{IsRequestWithin};
ghost use Rattle.http1.specs.Framing.{method_kind};
ghost use Rattle.http1.specs.Server as http1;
ghost use Rattle.http1.specs.Conn.{unread_size};
ghost use Rattle.http_exchange.specs.Fronts.{IsFront, IsContent, EndsWithin, is_long};

use crate::limits::{LIMITS, MAX_BODY, MAX_FIELDS};
use crate::refusal::Refusal;
use crate::request::Request;
use http1::framing::MethodKind;
use http1::{BodySize, Event, Server};
use httparse::spans::EMPTY_HEADER_SPAN;
use std::alloc::{AllocError, Global};

/// What the bytes begin with.
#[derive(Drop)]
pub(crate) enum Front {
    Whole(Whole),
    /// No whole request. Holds whether there is a head whose sender waits for `100 Continue`, and nothing more.
    Partial(bool),
    Refused(Refusal),
}

/// A whole request, and what its answer depends on.
#[derive(Drop)]
pub(crate) struct Whole {
    pub(crate) request: Request,
    /// The length of its text.
    pub(crate) len: usize,
    pub(crate) server: Server,
    pub(crate) bodiless: bool,
}

/// What follows a head.
#[derive(Drop)]
pub(crate) enum Content {
    /// A whole body, and the length of its text.
    Whole(Vec<u8>, usize),
    Partial,
    Refused(Refusal),
}

fn is_head(method: &[u8]) -> bool
    ensures { result ≡ http1.is_head (method_kind method.now) }
{
    matches!(MethodKind::of(method), MethodKind::Head)
}

/// Whether the body is announced to be longer than the limit.
fn is_long(server: &Server) -> bool
    ensures { result ≡ is_long (unread_size (http1.reading server.now)) }
{
    match server.unread_size() {
        BodySize::Known(len) => len > MAX_BODY as u64,
        _ => false,
    }
}

/// Reads the body at the front of the bytes.
fn read_content(alloc: Global, server: &mut Server, input: &[u8]) -> Result<Content, AllocError>
    ensures within { IfOk result (EndsWithin input.now) }
    ensures content { IfOk result (IsContent server.old input.now server.new) }
{
    let mut trailers = [EMPTY_HEADER_SPAN; MAX_FIELDS];
    let mut body = Vec::new(alloc);
    let mut used = 0;
    loop {
        let left = &input[used..];
        let read = match server.read(left, &mut trailers) {
            Ok(read) => read,
            Err(e) => return Ok(Content::Refused(Refusal::Unreadable(e))),
        };
        match read.event {
            Event::Data(piece) => {
                if piece.end - piece.start > MAX_BODY.saturating_sub(body.len()) {
                    return Ok(Content::Refused(Refusal::BodyTooLong));
                }
                body.extend_from_slice(piece.of(left))?;
                used += read.consumed;
            }
            Event::End(_) => return Ok(Content::Whole(body, used + read.consumed)),
            _ => return Ok(Content::Partial),
        }
    }
}

/// Reads the request at the front of the bytes.
pub(crate) fn read_front(alloc: Global, input: &[u8]) -> Result<Front, AllocError>
    ensures { IfOk result (IsFront input.now) }
{
    let mut server = Server::new(LIMITS);
    let mut spans = [EMPTY_HEADER_SPAN; MAX_FIELDS];
    let read = match server.read(input, &mut spans) {
        Ok(read) => read,
        Err(e) => return Ok(Front::Refused(Refusal::Unreadable(e))),
    };
    let Event::Head(head) = read.event else {
        return Ok(Front::Partial(false));
    };
    if server.has_codings() {
        return Ok(Front::Refused(Refusal::UnknownCoding));
    }
    if is_long(&server) {
        return Ok(Front::Refused(Refusal::BodyTooLong));
    }
    let waits = server.expects_continue() && head.len == input.len();
    match read_content(alloc, &mut server, &input[head.len..])? {
        Content::Whole(body, len) => Ok(Front::Whole(Whole {
            request: Request::new(alloc, input, &head, &spans, body)?,
            len: head.len + len,
            server,
            bodiless: is_head(head.method.of(input)),
        })),
        Content::Partial => Ok(Front::Partial(waits)),
        Content::Refused(why) => Ok(Front::Refused(why)),
    }
}
