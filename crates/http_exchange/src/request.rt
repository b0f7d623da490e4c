ghost use Rattle.std.specs.Prelude.{◌≡◌, length, map, take, IfOk, ◌≤◌};
ghost use Rattle.http1.specs.Head.{pairs};
ghost use Rattle.httparse.specs.Spans.{span_bytes, header_bytes, IsRequestWithin};

use http1::Header;
use httparse::spans::{HeaderSpan, RequestSpans, Span};
use std::alloc::{AllocError, Global};
use std::marker::Model;

/// A whole request. Contracts see its method, its target, its fields and its body.
#[derive(Drop)]
pub struct Request {
    head: Vec<u8>,
    method: Span,
    target: Span,
    fields: Vec<HeaderSpan>,
    body: Vec<u8>,
}

impl Model for Request {
    ghost use Rattle.std.specs.Prelude.{map, length, All};
    ghost use Rattle.httparse.specs.Spans.{span_bytes, header_bytes, IsWithin, IsHeaderWithin};
    ghost use Rattle.http_exchange.specs.Requests.{RequestParts};

    ghost Value = { RequestParts };

    ghost view = { λ r. record {
      method = span_bytes r.head.items r.method;
      target = span_bytes r.head.items r.target;
      fields = map (header_bytes r.head.items) r.fields.items;
      body = r.body.items;
    } };

    ghost invariant = { λ r. IsWithin (length r.head.items) r.method × IsWithin (length r.head.items) r.target
        × All (IsHeaderWithin (length r.head.items)) r.fields.items };
}

impl Request {
    /// Makes a request of copies of the parts of a head, and of its body.
    pub(crate) fn new(
        alloc: Global,
        input: &[u8],
        head: &RequestSpans,
        spans: &[HeaderSpan],
        body: Vec<u8>,
    ) -> Result<Request, AllocError>
        requires { IsRequestWithin input.now spans.now head.now }
        ensures { IfOk result (λ r. r ≡ record {
          method = span_bytes input.now head.now.method;
          target = span_bytes input.now head.now.path;
          fields = map (header_bytes input.now) (take head.now.headers spans.now);
          body = body.items;
        }) }
    {
        Ok(Request {
            head: Vec::from_slice(alloc, &input[..head.len])?,
            method: head.method,
            target: head.path,
            fields: Vec::from_slice(alloc, &spans[..head.headers])?,
            body,
        })
    }

    /// The method, such as `GET`.
    pub fn method(&self) -> &[u8]
        ensures { result.now ≡ self.now.method }
    {
        self.method.of(&self.head)
    }

    /// The target as it was sent, such as `/v1/keys/a%20b`.
    pub fn target(&self) -> &[u8]
        ensures { result.now ≡ self.now.target }
    {
        self.target.of(&self.head)
    }

    /// The header fields in the order in which they were sent, each value without the white space around it.
    pub fn headers(&self, alloc: Global) -> Result<Vec<Header<'_>>, AllocError>
        ensures { IfOk result (λ v. pairs v.items ≡ self.now.fields) }
    {
        let mut headers = Vec::new(alloc);
        for span in &self.fields {
            headers.push(Header {
                name: span.name.of(&self.head),
                value: span.value.of(&self.head),
            })?;
        }
        Ok(headers)
    }

    /// The body, at most 1,024 bytes where the request is one of an exchange.
    pub fn body(&self) -> &[u8]
        ensures { result.now ≡ self.now.body }
    {
        &self.body
    }
}
