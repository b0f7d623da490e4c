ghost use Rattle.std.specs.Prelude.{◌≡◌, ◌↔◌, ◌≤◌, length, map, option_map, IsTrue};
ghost use Rattle.std.specs.List.{prefix_len};
ghost use Rattle.std.specs.Char.{is_ascii_digit};
ghost use Rattle.http1.specs.Head.{pairs};
ghost use Rattle.http_calls.specs.Hosts.{is_port, name_len, literal_len, IsBracketedHost, IsNamedHost, IsKnownHost, is_origin, is_own_origin, is_known_name, IsIpv4};

use ens_base::Bytes;
use http1::text::eq_ignore_case;
use std::net::{Ipv4Addr, Ipv6Addr};

fn digits_len(text: &[u8]) -> usize
    ensures { result ≡ prefix_len is_ascii_digit text.now }
{
    text.iter().take_while(|b| b.is_ascii_digit()).count()
}

/// Nothing, or a colon and digits.
fn is_port(text: &[u8]) -> bool
    ensures { result ≡ is_port text.now }
{
    text.is_empty() || (text[0] == b':' && digits_len(&text[1..]) == text.len() - 1)
}

fn name_len(text: &[u8]) -> usize
    ensures value { result ≡ name_len text.now }
    ensures within { result ≤ length text.now }
{
    text.iter().take_while(|b| **b != b':').count()
}

fn literal_len(text: &[u8]) -> usize
    ensures value { result ≡ literal_len text.now }
    ensures within { result ≤ length text.now }
{
    text.iter().take_while(|b| **b != b']').count()
}

fn is_known_name(names: &[Bytes], name: &[u8]) -> bool
    ensures { result ≡ is_known_name names.now name.now }
{
    names
        .iter()
        .any(|known| eq_ignore_case(name, known.as_slice()))
}

fn is_bracketed_host(text: &[u8]) -> bool
    ensures { IsTrue result ↔ IsBracketedHost text.now }
{
    let end = literal_len(text);
    if end == text.len() || !is_port(&text[end + 1..]) {
        return false;
    }
    match Ipv6Addr::parse_ascii(&text[..end]) {
        Ok(_) => true,
        Err(_) => false,
    }
}

fn is_ipv4(text: &[u8]) -> bool
    ensures { IsTrue result ↔ IsIpv4 text.now }
{
    match Ipv4Addr::parse_ascii(text) {
        Ok(_) => true,
        Err(_) => false,
    }
}

fn is_named_host(names: &[Bytes], text: &[u8]) -> bool
    ensures { IsTrue result ↔ IsNamedHost names.now text.now }
{
    let len = name_len(text);
    if !is_port(&text[len..]) {
        return false;
    }
    is_known_name(names, &text[..len]) || is_ipv4(&text[..len])
}

/// Whether the host is an address, or one of the names, with a port or without.
pub(crate) fn is_known_host(names: &[Bytes], host: &[u8]) -> bool
    ensures { IsTrue result ↔ IsKnownHost names.now host.now }
{
    match host {
        [b'[', rest @ ..] => is_bracketed_host(rest),
        _ => is_named_host(names, host),
    }
}

/// Whether the origin is the scheme and then the host.
fn is_origin(origin: &[u8], scheme: &[u8], host: &[u8]) -> bool
    ensures { result ≡ is_origin origin.now scheme.now host.now }
{
    if origin.len() < scheme.len() || &origin[..scheme.len()] != scheme {
        return false;
    }
    eq_ignore_case(&origin[scheme.len()..], host)
}

/// Whether the origin is that of the host, by `http` or, behind a proxy, by `https`.
pub(crate) fn is_own_origin(origin: &[u8], host: &[u8]) -> bool
    ensures { result ≡ is_own_origin origin.now host.now }
{
    is_origin(origin, b"http://", host) || is_origin(origin, b"https://", host)
}
