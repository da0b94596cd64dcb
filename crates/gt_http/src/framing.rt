ghost use Rattle.gt_http.specs.Head as spec;
ghost use Rattle.httparse.specs.Spans.{header_bytes, IsHeaderWithin};
ghost use Rattle.std.specs.Prelude.{All, length, map, option_map, ◌≡◌, ◌≤◌};
ghost use Rattle.std.specs.Str.{all_ascii_digits, str_eq_ignore_ascii_case};

use crate::fields::{count_named, is_named, value_of};
use httparse::spans::HeaderSpan;
use std::str;

/// Where the body ends: its length, or none where the framing is bad.
#[tactic(auto, unfolding(crate::specs::Head::framing_of))]
pub(crate) fn framing(bytes: &[u8], headers: &[HeaderSpan]) -> Option<u64>
    requires { All (IsHeaderWithin (length bytes.now)) headers.now }
    ensures { result ≡ spec.framing_of (map (header_bytes bytes.now) headers.now) }
{
    if !is_plain(bytes, headers) {
        return None;
    }
    match value_of(bytes, headers, b"Content-Length") {
        Some(value) => number(value),
        None => Some(0),
    }
}

// No coding of the body, and no second length or authorization.
fn is_plain(bytes: &[u8], headers: &[HeaderSpan]) -> bool
    requires { All (IsHeaderWithin (length bytes.now)) headers.now }
    ensures { result ≡ spec.is_plain (map (header_bytes bytes.now) headers.now) }
{
    count_named(bytes, headers, b"Transfer-Encoding") == 0
        && count_named(bytes, headers, b"Content-Length") <= 1
        && count_named(bytes, headers, b"Authorization") <= 1
}

// The number that 1 to 19 digits write.
#[tactic(auto, unfolding(crate::specs::Head::number_of))]
fn number(value: &[u8]) -> Option<u64>
    ensures { result ≡ spec.number_of value.now }
{
    if value.is_empty() || value.len() > 19 || !are_digits(value) {
        return None;
    }
    match str::from_utf8(value) {
        Ok(text) => match text.parse::<u64>() {
            Ok(number) => Some(number),
            Err(_) => unreachable!(),
        },
        Err(_) => unreachable!(),
    }
}

fn are_digits(text: &[u8]) -> bool
    ensures { result ≡ all_ascii_digits text.now }
{
    for byte in text {
        if !byte.is_ascii_digit() {
            return false;
        }
    }
    true
}

/// The token of the caller: what follows `Bearer ` in the authorization, where that is a text.
pub(crate) fn token<'b>(bytes: &'b [u8], headers: &[HeaderSpan]) -> Option<&'b str>
    requires { All (IsHeaderWithin (length bytes.now)) headers.now }
    ensures { option_map (λ t. t.now) result
        ≡ spec.token_of (map (header_bytes bytes.now) headers.now) }
{
    match value_of(bytes, headers, b"Authorization") {
        Some(value) => bearer(value),
        None => None,
    }
}

#[tactic(auto, unfolding(crate::specs::Head::bearer_of))]
fn bearer(value: &[u8]) -> Option<&str>
    ensures { option_map (λ t. t.now) result ≡ spec.bearer_of value.now }
{
    if !value.starts_with(b"Bearer ") {
        return None;
    }
    match str::from_utf8(&value[7..]) {
        Ok(token) => Some(token),
        Err(_) => None,
    }
}

/// Whether the connection is to be closed.
#[tactic(auto, unfolding(crate::specs::Head::close_of))]
pub(crate) fn close(bytes: &[u8], headers: &[HeaderSpan], minor: u8) -> bool
    requires { All (IsHeaderWithin (length bytes.now)) headers.now }
    ensures { result ≡ spec.close_of minor (map (header_bytes bytes.now) headers.now) }
{
    if minor == 0 {
        return true;
    }
    for header in headers {
        if says_close(bytes, *header) {
            return true;
        }
    }
    false
}

// Whether this is a `Connection` field that says `close`, and no more.
fn says_close(bytes: &[u8], header: HeaderSpan) -> bool
    requires { IsHeaderWithin (length bytes.now) header }
    ensures { result ≡ spec.says_close (header_bytes bytes.now header) }
{
    is_named(bytes, header, b"Connection") && header.value.of(bytes).eq_ignore_ascii_case(b"close")
}
