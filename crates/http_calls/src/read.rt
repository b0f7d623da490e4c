ghost use Rattle.std.specs.Prelude.{◌≡◌, option_map};
ghost use Rattle.http1.specs.Head.{pairs};
ghost use Rattle.http_calls.specs.Methods.{method_of};
ghost use Rattle.http_calls.specs.Calls.{wait_of, swap_of, post_of, put_of, delete_of, known_of, get_of, command_of, call_of, asked_page, key_segment, path_problem, asked_by, Reads};
ghost use Rattle.http_calls.specs.Hosts.{ChecksSender};
ghost use Rattle.http_calls.specs.Outcomes.{Gives};

use crate::call::{Asked, Call};
use crate::condition::{Condition, read_condition};
use crate::key_text::{read_escaped, read_key, read_value};
use crate::method::Method;
use crate::page::Page;
use crate::problem::{Allowed, CallError, Problem};
use crate::request_fields::field;
use crate::request_host::{is_known_host, is_own_origin};
use crate::target::{number, path, query};
use ens_base::{Bytes, Command, Version};
use http1::Header;
use std::alloc::Global;

/// The longest wait of a get, in seconds.
const MAX_WAIT: u64 = 60;

/// For how long a get waits: `wait=` and a number from 1 to 60, of a client that knows a stamp.
fn read_wait(
    method: Method,
    known: Option<Version>,
    query: Option<&[u8]>,
) -> Result<Option<u64>, Problem>
    ensures { result ≡ wait_of method known (option_map (λ q. q.now) query.entry) }
{
    let Some(query) = query else {
        return Ok(None);
    };
    if !matches!(method, Method::Get)
        || known.is_none()
        || query.len() < 5
        || &query[..5] != b"wait=".as_slice()
    {
        return Err(Problem::BadParameter);
    }
    match number(&query[5..]) {
        Some(seconds) if seconds >= 1 && seconds <= MAX_WAIT => Ok(Some(seconds)),
        _ => Err(Problem::BadParameter),
    }
}

/// A swap: the old value stands in the query, and the new one is the body.
fn read_swap(alloc: Global, query: &[u8], body: &[u8]) -> Result<Command, CallError>
    ensures { Gives (swap_of query.now body.now) result }
{
    if query.len() < 12 || &query[..12] != b"do=swap&old=".as_slice() {
        return Err(CallError::Refused(Problem::BadParameter));
    }
    let old = read_escaped(alloc, &query[12..])?;
    Ok(Command::Swap(old, read_value(alloc, body)?))
}

/// What a POST asks for: its query names the command, and its body is what the command takes.
fn read_post(alloc: Global, query: Option<&[u8]>, body: &[u8]) -> Result<Command, CallError>
    ensures { Gives (post_of (option_map (λ q. q.now) query.entry) body.now) result }
{
    let Some(query) = query else {
        return Err(CallError::Refused(Problem::BadParameter));
    };
    if query == b"do=append".as_slice() {
        return Ok(Command::Append(read_value(alloc, body)?));
    }
    if query == b"do=add".as_slice() {
        return match number(body) {
            Some(number) => Ok(Command::Add(number)),
            None => Err(CallError::Refused(Problem::BadNumber)),
        };
    }
    read_swap(alloc, query, body)
}

/// What a PUT asks for.
fn read_put(
    alloc: Global,
    condition: Condition,
    query: Option<&[u8]>,
    body: &[u8],
) -> Result<Command, CallError>
    ensures { Gives (put_of condition (option_map (λ q. q.now) query.entry) body.now) result }
{
    if query.is_some() {
        return Err(CallError::Refused(Problem::BadParameter));
    }
    match condition {
        Condition::Always => Ok(Command::Over(read_value(alloc, body)?)),
        Condition::IfAbsent => Ok(Command::PutOnce(read_value(alloc, body)?)),
        Condition::IfMatch(stamp) => Ok(Command::Update(stamp, read_value(alloc, body)?)),
        Condition::IfNoneMatch(_) => Err(CallError::Refused(Problem::UnknownCondition)),
    }
}

/// What a DELETE asks for.
fn read_delete(condition: Condition, query: Option<&[u8]>, body: &[u8]) -> Result<Command, Problem>
    ensures { result ≡ delete_of condition (option_map (λ q. q.now) query.entry) body.now }
{
    if query.is_some() {
        return Err(Problem::BadParameter);
    }
    if !body.is_empty() {
        return Err(Problem::BadBody);
    }
    match condition {
        Condition::Always => Ok(Command::Delete),
        _ => Err(Problem::UnknownCondition),
    }
}

/// The stamp that the client of a get knows.
fn read_known(condition: Condition) -> Result<Option<Version>, Problem>
    ensures { result ≡ known_of condition }
{
    match condition {
        Condition::Always => Ok(None),
        Condition::IfNoneMatch(stamp) => Ok(Some(stamp)),
        _ => Err(Problem::UnknownCondition),
    }
}

/// What a GET or a HEAD knows, and for how long it waits.
fn read_get(
    method: Method,
    condition: Condition,
    query: Option<&[u8]>,
    body: &[u8],
) -> Result<(Option<Version>, Option<u64>), Problem>
    ensures { result ≡ get_of method condition (option_map (λ q. q.now) query.entry) body.now }
{
    if !body.is_empty() {
        return Err(Problem::BadBody);
    }
    let known = read_known(condition)?;
    Ok((known, read_wait(method, known, query)?))
}

/// The command of a method that writes.
fn read_command(
    alloc: Global,
    method: Method,
    condition: Condition,
    query: Option<&[u8]>,
    body: &[u8],
) -> Result<Command, CallError>
    ensures { Gives (command_of method condition (option_map (λ q. q.now) query.entry) body.now) result }
{
    match method {
        Method::Put => read_put(alloc, condition, query, body),
        Method::Delete => Ok(read_delete(condition, query, body)?),
        Method::Post => match condition {
            Condition::Always => read_post(alloc, query, body),
            _ => Err(CallError::Refused(Problem::UnknownCondition)),
        },
        _ => Err(CallError::Refused(Problem::UnknownMethod(Allowed::Keys))),
    }
}

/// The call of a key.
fn read_call(
    alloc: Global,
    segment: &[u8],
    method: Method,
    condition: Condition,
    query: Option<&[u8]>,
    body: &[u8],
) -> Result<Call, CallError>
    ensures { Gives (call_of segment.now method condition (option_map (λ q. q.now) query.entry) body.now) result }
{
    if method.is_write() {
        let key = read_key(alloc, segment)?;
        return Ok(Call {
            key,
            command: read_command(alloc, method, condition, query, body)?,
            known: None,
            wait: None,
        });
    }
    let (known, wait) = read_get(method, condition, query, body)?;
    Ok(Call {
        key: read_key(alloc, segment)?,
        command: Command::Get,
        known,
        wait,
    })
}

/// The page, if it has this method and, but for the list of keys, no query.
fn read_page(page: Page, method: Method, has_query: bool) -> Result<Page, Problem>
    ensures { result ≡ asked_page page method has_query }
{
    if !page.allows(method) {
        return Err(Problem::UnknownMethod(page.methods()));
    }
    if has_query && !matches!(page, Page::List) {
        return Err(Problem::BadParameter);
    }
    Ok(page)
}

/// The segment of a path that spells a key.
fn key_segment(path: &[u8]) -> Option<&[u8]>
    ensures { option_map (λ s. s.now) result ≡ key_segment path.now }
{
    if path.len() < 9 || &path[..9] != b"/v1/keys/".as_slice() {
        return None;
    }
    Some(&path[9..])
}

/// Why a path that is none of a page or a key is refused.
fn refuse_path(path: &[u8], method: Method) -> Problem
    ensures { result ≡ path_problem path.now method }
{
    if method.is_unknown() {
        return Problem::UnknownMethod(Allowed::Keys);
    }
    match path {
        [b'/', ..] => Problem::UnknownPath,
        _ => Problem::BadTarget,
    }
}

/// What a request of a known sender asks for.
fn read_asked(
    alloc: Global,
    method: Method,
    target: &[u8],
    headers: &[Header<'_>],
    body: &[u8],
) -> Result<Asked, CallError>
    ensures { Gives (asked_by method target.now (pairs headers.now) body.now) result }
{
    let path = path(target);
    let query = query(target);
    if let Some(page) = Page::of(path) {
        return Ok(Asked::Page(read_page(page, method, query.is_some())?));
    }
    let Some(segment) = key_segment(path) else {
        return Err(CallError::Refused(refuse_path(path, method)));
    };
    let condition = read_condition(headers)?;
    Ok(Asked::Call(read_call(alloc, segment, method, condition, query, body)?))
}

/// Tests the host and the origin, unless no path has the method: the host of a CONNECT is another one.
fn check_sender(names: &[Bytes], method: Method, headers: &[Header<'_>]) -> Result<(), Problem>
    ensures { ChecksSender names.now method (pairs headers.now) result }
{
    if method.is_unknown() {
        return Ok(());
    }
    let host = field(headers, b"host")?;
    if let Some(host) = host
        && !is_known_host(names, host)
    {
        return Err(Problem::UnknownHost);
    }
    if !method.is_write() {
        return Ok(());
    }
    let Some(origin) = field(headers, b"origin")? else {
        return Ok(());
    };
    match host {
        Some(host) if is_own_origin(origin, host) => Ok(()),
        _ => Err(Problem::ForeignOrigin),
    }
}

/// Reads what a request asks for. `names` are the names of hosts under which peers are known; addresses
/// are known without.
///
/// # Errors
/// `Refused` with the first problem: of the host and the origin, of the path, of the conditions, and of the
/// key, the query and the body. `Memory` when out of memory.
pub fn read_request(
    alloc: Global,
    names: &[Bytes],
    method: &[u8],
    target: &[u8],
    headers: &[Header<'_>],
    body: &[u8],
) -> Result<Asked, CallError>
    ensures { Reads names.now (method_of method.now) target.now (pairs headers.now) body.now result }
{
    let method = Method::of(method);
    check_sender(names, method, headers)?;
    read_asked(alloc, method, target, headers, body)
}
