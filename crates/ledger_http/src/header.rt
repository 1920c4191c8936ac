//! The headers of a head, by their names.
ghost use Rattle.std.specs.Prelude.{◌≡◌, ◌≤◌, ◌+◌, ◌*◌, ◌&&◌, ◌==◌, nat_lt, slice_index, true, All, length, map, min, option_map};
ghost use Rattle.std.specs.Char.{is_ascii_digit, digit_value};
ghost use Rattle.std.specs.List.{list_all, list_any};
ghost use Rattle.std.specs.Str.{str_eq_ignore_ascii_case};
ghost use Rattle.httparse.specs.Spans.{IsHeaderWithin, header_bytes};
ghost use Rattle.ledger_http.specs.Limits.{max_body};
ghost use Rattle.ledger_http.specs.Head.{is_canonical, number_in, is_token, has_token};
ghost use Rattle.ledger_http.specs.Header.{values_in, IsFound};

use crate::limits::MAX_BODY;
use httparse::spans::HeaderSpan;

// How often a header stands in a head.
#[derive(Clone, Copy)]
pub(crate) enum Found<'a> {
    Absent,
    Once(&'a [u8]),
    More,
}

fn is_named(name: &[u8], other: &[u8]) -> bool
    ensures { result ≡ str_eq_ignore_ascii_case name.now other.now }
{
    name.eq_ignore_ascii_case(other)
}

/// The value of the header with this name, if it stands there once.
pub(crate) fn find_header<'a>(bytes: &'a [u8], headers: &[HeaderSpan], name: &[u8]) -> Found<'a>
    requires { All (IsHeaderWithin (length bytes.now)) headers.now }
    ensures { IsFound result (values_in name.now (map (header_bytes bytes.now) headers.now)) }
{
    let mut only = None;
    for header in headers {
        if is_named(header.name.of(bytes), name) {
            if only.is_some() {
                return Found::More;
            }
            only = Some(header.value.of(bytes));
        }
    }
    match only {
        Some(value) => Found::Once(value),
        None => Found::Absent,
    }
}

// Whether a part of a list is a token.
fn is_token(part: &[u8], token: &[u8]) -> bool
    ensures { result ≡ is_token token.now part.now }
{
    is_named(part.trim_ascii(), token)
}

// Whether a list has a token.
fn has_token(list: &[u8], token: &[u8]) -> bool
    ensures { result ≡ has_token token.now list.now }
{
    list.split(|byte| *byte == b',')
        .any(|part| is_token(part, token))
}

/// Whether a header with this name has the token in its list.
pub(crate) fn lists_token(bytes: &[u8], headers: &[HeaderSpan], name: &[u8], token: &[u8]) -> bool
    requires { All (IsHeaderWithin (length bytes.now)) headers.now }
    ensures { result ≡ list_any (has_token token.now)
        (values_in name.now (map (header_bytes bytes.now) headers.now)) }
{
    for header in headers {
        if is_named(header.name.of(bytes), name) && has_token(header.value.of(bytes), token) {
            return true;
        }
    }
    false
}

fn are_digits(text: &[u8]) -> bool
    ensures { result ≡ list_all is_ascii_digit text.now }
{
    text.iter().all(|byte| byte.is_ascii_digit())
}

fn has_idle_zero(text: &[u8]) -> bool
    ensures { result ≡ (nat_lt 1 (length text.now) && slice_index text.now 0 == 48) }
{
    text.len() > 1 && text[0] == b'0'
}

// At least one digit, and no zero in front of others.
fn is_decimal(text: &[u8]) -> bool
    ensures { result ≡ is_canonical text.now }
{
    if text.is_empty() || has_idle_zero(text) {
        return false;
    }
    are_digits(text)
}

// The number with one digit more; one that is longer than any body stands for the greater ones.
fn with_digit(number: usize, digit: u8) -> usize
    requires few { number ≤ max_body + 1 }
    requires digit { is_ascii_digit digit ≡ true }
    ensures { result ≡ min (max_body + 1) (number * 10 + digit_value digit) }
{
    (number * 10 + usize::from(digit - b'0')).min(MAX_BODY + 1)
}

/// The number that canonical decimal writes; one that is longer than any body stands for the
/// greater ones.
pub(crate) fn read_length(text: &[u8]) -> Option<usize>
    ensures { result ≡ option_map (min (max_body + 1)) (number_in text.now) }
{
    if !is_decimal(text) {
        return None;
    }
    let mut length = 0;
    for digit in text {
        length = with_digit(length, *digit);
    }
    Some(length)
}
