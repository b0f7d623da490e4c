ghost use Rattle.std.specs.Prelude.{◌≡◌, ◌++◌, ◌∷◌, [], map, IfOk, OnOk, option_map};
ghost use Rattle.http1.specs.Head.{pairs};
ghost use Rattle.http_calls.specs.Answers.{Answered, answer_of, seen_answer, field_parts, problem_word, value_answer, at_leader, reason_of};
ghost use Rattle.http_calls.specs.Answers as table;

use crate::call::Call;
use crate::problem::Problem;
use crate::stamp::stamp_text;
use ens_base::{Bytes, Command, PeerId, Reply, Value, Version};
use http1::Header;
use std::alloc::{AllocError, Global};

/// A header field of an answer.
#[derive(Drop)]
pub struct Field {
    pub name: &'static [u8],
    pub value: Bytes,
}

/// An answer: its status, its header fields and its body. A server adds the fields of the framing, and
/// leaves the body out where the method is HEAD.
#[derive(Drop)]
pub struct Answer {
    pub status: u16,
    pub fields: Vec<Field>,
    pub body: Bytes,
}

/// The peer that leads, as far as this peer knows.
#[derive(Drop)]
pub struct Leader {
    pub peer: PeerId,
    /// Where it takes requests, such as `http://10.0.0.1:8001`, with no slash at its end.
    pub url: Option<Bytes>,
}

impl Answer {
    fn new(alloc: Global, status: u16, word: &[u8]) -> Result<Answer, AllocError>
        ensures { IfOk result (λ a. seen_answer a ≡ record { status = status; fields = table.reply_field word.now ∷ []; body = [] }) }
    {
        let mut answer = Answer {
            status,
            fields: Vec::new(alloc),
            body: Bytes::new(Vec::new(alloc)),
        };
        answer.add(alloc, b"ensemble-reply", word)?;
        Ok(answer)
    }

    fn add(&mut self, alloc: Global, name: &'static [u8], value: &[u8]) -> Result<(), AllocError>
        ensures { OnOk result (seen_answer self.new ≡ record (seen_answer self.old) {
          fields = map field_parts self.old.fields.items ++ (name.entry.now, value.now) ∷ [];
        }) }
    {
        let value = Bytes::from_slice(alloc, value)?;
        self.fields.push(Field { name, value })?;
        Ok(())
    }

    fn set_body(&mut self, alloc: Global, body: &[u8]) -> Result<(), AllocError>
        ensures { OnOk result (seen_answer self.new ≡ record (seen_answer self.old) { body = body.now }) }
    {
        self.body = Bytes::from_slice(alloc, body)?;
        Ok(())
    }

    /// The reason phrase of the status (RFC 9110, section 15).
    pub fn reason(&self) -> &'static [u8]
        ensures { result.now ≡ reason_of self.now.status }
    {
        match self.status {
            200 => b"OK",
            201 => b"Created",
            204 => b"No Content",
            304 => b"Not Modified",
            307 => b"Temporary Redirect",
            400 => b"Bad Request",
            403 => b"Forbidden",
            404 => b"Not Found",
            405 => b"Method Not Allowed",
            409 => b"Conflict",
            412 => b"Precondition Failed",
            413 => b"Content Too Large",
            421 => b"Misdirected Request",
            500 => b"Internal Server Error",
            501 => b"Not Implemented",
            503 => b"Service Unavailable",
            504 => b"Gateway Timeout",
            507 => b"Insufficient Storage",
            _ => b"",
        }
    }

    /// The header fields, as a server takes them.
    pub fn headers(&self, alloc: Global) -> Result<Vec<Header<'_>>, AllocError>
        ensures { IfOk result (λ v. pairs v.items ≡ map field_parts self.now.fields.items) }
    {
        let mut headers = Vec::new(alloc);
        for field in &self.fields {
            headers.push(Header {
                name: field.name,
                value: field.value.as_slice(),
            })?;
        }
        Ok(headers)
    }
}

fn is_known(known: Option<Version>, stamp: Version) -> bool
    ensures { result ≡ table.is_known known stamp }
{
    match known {
        Some(known) => known == stamp,
        None => false,
    }
}

fn value_answer(
    alloc: Global,
    known: Option<Version>,
    stamp: Version,
    value: &Value,
) -> Result<Answer, AllocError>
    ensures { IfOk result (λ a. seen_answer a ≡ value_answer known stamp value.now) }
{
    if is_known(known, stamp) {
        let mut answer = Answer::new(alloc, 304, b"value")?;
        answer.add(alloc, b"etag", &stamp_text(stamp))?;
        return Ok(answer);
    }
    let mut answer = Answer::new(alloc, 200, b"value")?;
    answer.add(alloc, b"etag", &stamp_text(stamp))?;
    answer.add(alloc, b"content-type", b"application/octet-stream")?;
    answer.set_body(alloc, value.bytes())?;
    Ok(answer)
}

fn done_status(command: &Command) -> u16
    ensures { result ≡ table.done_status command.now }
{
    match command {
        Command::PutOnce(_) => 201,
        Command::Update(_, _) => 204,
        Command::Over(_) => 204,
        Command::Delete => 204,
        _ => 200,
    }
}

fn done_answer(alloc: Global, command: &Command, stamp: Version) -> Result<Answer, AllocError>
    ensures { IfOk result (λ a. seen_answer a ≡ table.done_answer command.now stamp) }
{
    let mut answer = Answer::new(alloc, done_status(command), b"ok")?;
    answer.add(alloc, b"etag", &stamp_text(stamp))?;
    Ok(answer)
}

fn failed_status(command: &Command) -> u16
    ensures { result ≡ table.failed_status command.now }
{
    match command {
        Command::PutOnce(_) => 412,
        Command::Update(_, _) => 412,
        _ => 409,
    }
}

/// The URL of a target at a peer.
fn location(alloc: Global, url: &Bytes, target: &[u8]) -> Result<Vec<u8>, AllocError>
    ensures { IfOk result (λ v. v.items ≡ url.now ++ target.now) }
{
    let mut location = Vec::from_slice(alloc, url.as_slice())?;
    location.extend_from_slice(target)?;
    Ok(location)
}

fn at_leader(alloc: Global, target: &[u8], leader: &Leader) -> Result<Answer, AllocError>
    ensures { IfOk result (λ a. seen_answer a ≡ at_leader target.now leader.now.peer leader.now.url) }
{
    let PeerId(number) = leader.peer;
    let peer = format!(in alloc; "{number}")?;
    match &leader.url {
        None => {
            let mut answer = Answer::new(alloc, 503, b"unavailable")?;
            answer.add(alloc, b"ensemble-leader", peer.as_bytes())?;
            answer.add(alloc, b"retry-after", b"1")?;
            Ok(answer)
        }
        Some(url) => {
            let mut answer = Answer::new(alloc, 307, b"unavailable")?;
            answer.add(alloc, b"ensemble-leader", peer.as_bytes())?;
            let location = location(alloc, url, target)?;
            answer.add(alloc, b"location", &location)?;
            Ok(answer)
        }
    }
}

fn busy_answer(alloc: Global, word: &[u8]) -> Result<Answer, AllocError>
    ensures { IfOk result (λ a. seen_answer a ≡ table.busy_answer word.now) }
{
    let mut answer = Answer::new(alloc, 503, word)?;
    answer.add(alloc, b"retry-after", b"1")?;
    Ok(answer)
}

fn silent_answer(alloc: Global) -> Result<Answer, AllocError>
    ensures { IfOk result (λ a. seen_answer a ≡ table.silent_answer) }
{
    let mut answer = Answer::new(alloc, 504, b"timeout")?;
    answer.add(alloc, b"content-type", b"text/plain")?;
    answer.set_body(alloc, Problem::Silent.text())?;
    Ok(answer)
}

/// The answer to the reply to a call. `target` is that of the request, and `leader` a peer that may lead
/// where this one does not: never this one. Fails only when out of memory.
pub fn reply_answer(
    alloc: Global,
    call: &Call,
    target: &[u8],
    reply: &Reply,
    leader: Option<&Leader>,
) -> Result<Answer, AllocError>
    ensures { IfOk result (λ a. seen_answer a ≡ answer_of call.now target.now reply.now (option_map (λ l. l.now) leader.entry)) }
{
    match reply {
        Reply::Value(stamp, value) => value_answer(alloc, call.known, *stamp, value),
        Reply::NotFound => Answer::new(alloc, 404, b"notfound"),
        Reply::Ok(stamp) => done_answer(alloc, &call.command, *stamp),
        Reply::Failed => Answer::new(alloc, failed_status(&call.command), b"failed"),
        Reply::Unavailable => match leader {
            None => busy_answer(alloc, b"unavailable"),
            Some(leader) => at_leader(alloc, target, leader),
        },
        Reply::Busy => busy_answer(alloc, b"busy"),
        Reply::Lost => Answer::new(alloc, 500, b"lost"),
        Reply::Timeout => silent_answer(alloc),
    }
}

fn problem_word(problem: Problem) -> &'static [u8]
    ensures { result.now ≡ problem_word problem }
{
    match problem {
        Problem::Silent => b"timeout",
        _ => b"refused",
    }
}

/// The answer to a problem. Fails only when out of memory.
pub fn problem_answer(alloc: Global, problem: Problem) -> Result<Answer, AllocError>
    ensures { IfOk result (λ a. seen_answer a ≡ table.problem_answer problem) }
{
    let mut answer = Answer::new(alloc, problem.status(), problem_word(problem))?;
    answer.add(alloc, b"content-type", b"text/plain")?;
    answer.set_body(alloc, problem.text())?;
    match problem {
        Problem::UnknownMethod(allowed) => answer.add(alloc, b"allow", allowed.methods())?,
        Problem::Late => answer.add(alloc, b"retry-after", b"1")?,
        _ => {}
    }
    Ok(answer)
}
