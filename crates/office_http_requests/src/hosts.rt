//! Requests for another host than those by which a service is known.
ghost use Rattle.std.specs.Prelude.{◌≡◌, ◌||◌, not, List, ℕ, All, IfSome, length, map};
ghost use Rattle.std.specs.List.{list_all, list_any};
ghost use Rattle.std.specs.Char.{is_ascii_digit};
ghost use Rattle.httparse.specs.Grammar.{RequestHead};
ghost use Rattle.httparse.specs.Spans.{IsHeaderWithin, header_bytes};
ghost use Rattle.office_http_requests.specs.Hosts.{IsForOther, has_known_host, has_names, is_known_host, is_named, is_own, is_port};
ghost use Rattle.office_http_requests.specs.steps.Hosts.{IsBeside, method_if, other_method};
ghost use Rattle.office_http_requests.specs.Request.{BeginsWith};

use crate::head::{FIELD_ROOM, HEAD_ROOM};
use crate::request::{is_head_method, is_word};
use httparse::Status;
use httparse::spans::{EMPTY_HEADER_SPAN, HeaderSpan, parse_request};
use std::cmp::min;

fn are_digits(text: &[u8]) -> bool
    ensures { result ≡ list_all is_ascii_digit text.now }
{
    text.iter().all(|c| c.is_ascii_digit())
}

/// Whether a text is nothing, or a colon and digits.
fn is_port(text: &[u8]) -> bool
    ensures { result ≡ is_port text.now }
{
    match text {
        [colon, digits @ ..] => *colon == b':' && are_digits(digits),
        [] => true,
    }
}

/// Whether a value of Host is this name, with or without a port.
fn is_named(value: &[u8], name: &[u8]) -> bool
    ensures { result ≡ is_named value.now name.now }
{
    let (front, rest) = value.split_at(min(name.len(), value.len()));
    is_word(front, name) && is_port(rest)
}

/// Whether it names the machine itself.
fn is_own(value: &[u8]) -> bool
    ensures { result ≡ is_own value.now }
{
    is_named(value, b"127.0.0.1") || is_named(value, b"localhost") || is_named(value, b"[::1]")
}

/// Whether a value is one of these names.
fn is_one_of(hosts: &[&str], value: &[u8]) -> bool
    ensures { result ≡ list_any (is_named value.now) (map (λ host. host.now) hosts.now) }
{
    hosts.iter().any(|host| is_named(value, host.as_bytes()))
}

/// Whether a known host was named, or this field names one.
fn known_with(known: bool, hosts: &[&str], name: &[u8], value: &[u8]) -> bool
    ensures { result ≡ (known || is_known_host (map (λ host. host.now) hosts.now) (name.now, value.now)) }
{
    known || (is_word(name, b"host") && (is_own(value) || is_one_of(hosts, value)))
}

/// Whether one of these fields names a known host.
fn has_known_host(hosts: &[&str], seen: &[u8], headers: &[HeaderSpan]) -> bool
    requires { All (IsHeaderWithin (length seen.now)) headers.now }
    ensures { result ≡ list_any (is_known_host (map (λ host. host.now) hosts.now)) (map (header_bytes seen.now) headers.now) }
{
    let mut known = false;
    for header in headers {
        known = known_with(known, hosts, header.name.of(seen), header.value.of(seen));
    }
    known
}

/// Whether any name is given.
fn has_names(hosts: &[&str]) -> bool
    ensures { result ≡ has_names (map (λ host. host.now) hosts.now) }
{
    match hosts {
        [_, ..] => true,
        [] => false,
    }
}

/// Whether a request that names none of these hosts is a HEAD, or of another method. None if it names one, and of bytes
/// that don't begin with a head.
fn method_beside(hosts: &[&str], request: &[u8]) -> Option<bool>
    ensures exact { (head : RequestHead) (rest : List ℕ) → BeginsWith request.now head rest → result ≡ method_if (not (has_known_host (map (λ host. host.now) hosts.now) head)) head }
    ensures only { IfSome result (λ is_head. IsBeside (map (λ host. host.now) hosts.now) request.now) }
{
    let mut headers = [EMPTY_HEADER_SPAN; FIELD_ROOM];
    match parse_request(request, &mut headers) {
        Ok(Status::Complete(spans)) => {
            if spans.len > HEAD_ROOM {
                return None;
            }
            if has_known_host(hosts, request, &headers[..spans.headers]) {
                return None;
            }
            Some(is_head_method(request, spans))
        }
        _ => None,
    }
}

/// Whether a request for another host than these is a HEAD, or of another method. None for any other request, and of bytes
/// that don't begin with a head. Without names no host is another.
pub fn method_for_other(hosts: &[&str], request: &[u8]) -> Option<bool>
    ensures exact { (head : RequestHead) (rest : List ℕ) → BeginsWith request.now head rest → result ≡ other_method (map (λ host. host.now) hosts.now) head }
    ensures only { IfSome result (λ is_head. IsForOther (map (λ host. host.now) hosts.now) request.now) }
{
    if has_names(hosts) {
        method_beside(hosts, request)
    } else {
        None
    }
}
