//! What the fields of a head say.
ghost use Rattle.std.specs.Prelude.{◌≡◌, ◌≤◌, ◌<◌, ◌&&◌, nat_lt, ℕ, Some, None, length, map, min, reverse, All, codes, if◌then◌else◌, IsTrue, IfOk};
ghost use Rattle.std.specs.List.{list_any, list_all};
ghost use Rattle.std.specs.Option.{option_map};
ghost use Rattle.std.specs.Str.{str_eq_ignore_ascii_case};
ghost use Rattle.std.specs.Char.{is_ascii_digit};
ghost use Rattle.std.specs.Str.Parse.{digits_value};
ghost use Rattle.httparse.specs.Grammar.{skip_ows, trim_ows};
ghost use Rattle.httparse.specs.Spans.{header_bytes, span_bytes, IsHeaderWithin};
ghost use Rattle.http_session.specs.Fields.{values_of, number_of, given_len, is_some_value, has_close, body_len, asks_close};

use crate::report::HeadFault;
use httparse::spans::{HeaderSpan, Span};

/// Whether the bytes are that name, in any ASCII case.
fn is_text(bytes: &[u8], name: &[u8]) -> bool
    ensures { result ≡ str_eq_ignore_ascii_case bytes.now name.now }
{
    bytes.eq_ignore_ascii_case(name)
}

/// The number that these decimal digits write, up to 65,537.
fn capped_value(digits: &[u8]) -> usize
    requires { IsTrue (list_all is_ascii_digit digits.now) }
    ensures { result ≡ min (digits_value 10 digits.now) 65537 }
{
    let mut number = 0usize;
    for digit in digits {
        number = (number * 10 + (*digit - b'0') as usize).min(65537);
    }
    number
}

fn are_digits(value: &[u8]) -> bool
    ensures { result ≡ list_all is_ascii_digit value.now }
{
    value.iter().all(|b| b.is_ascii_digit())
}

/// The number that one or more decimal digits write, up to 65,537.
fn number(value: &[u8]) -> Option<usize>
    ensures { result ≡ option_map (λ n. min n 65537) (number_of value.now) }
{
    if value.is_empty() {
        return None;
    }
    if !are_digits(value) {
        return None;
    }
    Some(capped_value(value))
}

/// Whether a field has that name, in any ASCII case.
fn is_named(head: &[u8], header: &HeaderSpan, name: &[u8]) -> bool
    requires { IsHeaderWithin (length head.now) header.now }
    ensures { result ≡ str_eq_ignore_ascii_case (header_bytes head.now header.now).0 name.now }
{
    is_text(header.name.of(head), name)
}

/// Whether there is a field of that name.
fn has_field(head: &[u8], headers: &[HeaderSpan], name: &[u8]) -> bool
    requires { All (IsHeaderWithin (length head.now)) headers.now }
    ensures { result ≡ is_some_value (values_of name.now (map (header_bytes head.now) headers.now)) }
{
    for header in headers {
        if is_named(head, header, name) {
            return true;
        }
    }
    false
}

/// The length that the fields give, up to 65,537, or none where they are malformed.
fn content_length(head: &[u8], headers: &[HeaderSpan]) -> Option<usize>
    requires { All (IsHeaderWithin (length head.now)) headers.now }
    ensures { result ≡ option_map (λ n. min n 65537) (given_len (values_of (codes "content-length") (map (header_bytes head.now) headers.now))) }
{
    let mut found = None;
    for header in headers {
        if is_named(head, header, b"content-length") {
            if found.is_some() {
                return None;
            }
            found = Some(header.value);
        }
    }
    match found {
        None => Some(0),
        Some(value) => number(value.of(head)),
    }
}

/// The length of the body, or the fault of the fields.
pub(crate) fn body_of(head: &[u8], headers: &[HeaderSpan]) -> Result<usize, HeadFault>
    requires { All (IsHeaderWithin (length head.now)) headers.now }
    ensures len { result ≡ body_len (map (header_bytes head.now) headers.now) }
    ensures bound { IfOk result (λ n. n ≤ 65536) }
{
    let length = content_length(head, headers);
    let coded = has_field(head, headers, b"transfer-encoding");
    match length {
        None => Err(HeadFault::BadLength),
        Some(_) if coded => Err(HeadFault::TransferEncoding),
        Some(count) if count > 65536 => Err(HeadFault::BodyTooLarge),
        Some(count) => Ok(count),
    }
}

/// The bytes without the spaces and tabs at their front.
fn skip_front(mut value: &[u8]) -> &[u8]
    ensures { result.now ≡ skip_ows value.entry.now }
{
    while let [b' ' | b'\t', rest @ ..] = value {
        value = rest;
    }
    value
}

/// The bytes without the spaces and tabs at their end.
fn skip_end(mut value: &[u8]) -> &[u8]
    ensures { result.now ≡ reverse (skip_ows (reverse value.entry.now)) }
{
    while let [rest @ .., b' ' | b'\t'] = value {
        value = rest;
    }
    value
}

/// A value without the spaces and tabs round it.
#[tactic(auto, unfolding(httparse::specs::Grammar::trim_ows))]
fn trimmed(value: &[u8]) -> &[u8]
    ensures { result.now ≡ trim_ows value.now }
{
    skip_end(skip_front(value))
}

/// Whether `close` is among the parts between commas.
fn says_close(value: &[u8]) -> bool
    ensures { result ≡ has_close value.now }
{
    value
        .split(|b| *b == b',')
        .any(|part| is_text(trimmed(part), b"close"))
}

/// Whether a `Connection` field has `close` among its parts.
pub(crate) fn connection_closes(head: &[u8], headers: &[HeaderSpan]) -> bool
    requires { All (IsHeaderWithin (length head.now)) headers.now }
    ensures { result ≡ list_any has_close (values_of (codes "connection") (map (header_bytes head.now) headers.now)) }
{
    for header in headers {
        if is_named(head, header, b"connection") {
            if says_close(header.value.of(head)) {
                return true;
            }
        }
    }
    false
}
