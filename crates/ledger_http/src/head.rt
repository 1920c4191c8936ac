//! The head of a message.
ghost use Rattle.std.specs.Prelude.{◌≡◌, ◌≤◌, ◌+◌, [], All, length, map, min, option_map, option_and_then, codes, IfOk, IfErr};
ghost use Rattle.httparse.specs.Grammar.{RequestHead, ReadsRequest};
ghost use Rattle.httparse.specs.Spans.{IsHeaderWithin, IsRequestWithin, IsRequestAt, header_bytes};
ghost use Rattle.ledger_http.specs.Limits.{max_body};
ghost use Rattle.ledger_http.specs.Head.{IsGoodHead, IsLength, sole, number_in, is_text};
ghost use Rattle.ledger_http.specs.Header.{values_in, ShowsHead};

use crate::Refusal;
use crate::header::{Found, find_header, lists_token, read_length};
use crate::limits::MAX_HEADERS;
use httparse::Status;
use httparse::spans::{EMPTY_HEADER_SPAN, HeaderSpan, RequestSpans, parse_request};

// What a message's head says.
#[derive(Clone, Copy)]
pub(crate) struct Head<'a> {
    pub(crate) method: &'a [u8],
    pub(crate) target: &'a str,
    // The length of the body, if it is stated; one that is too long stands for the longer ones.
    pub(crate) length: Option<usize>,
    // The text of the key, if it is sent once.
    pub(crate) key: Option<&'a [u8]>,
    pub(crate) wants_detail: bool,
    // Whether the connection ends after the reply.
    pub(crate) has_close: bool,
}

// Where the parts of a head of version 1.1 are that takes up all bytes.
fn spans_of(bytes: &[u8], headers: &mut [HeaderSpan]) -> Result<RequestSpans, Refusal>
    ensures within { IfOk result (IsRequestWithin bytes.now headers.new) }
    ensures good { IfOk result (λ spans. (h : RequestHead)
        × ReadsRequest bytes.now h [] × (h.minor ≡ 1) × IsRequestAt bytes.now headers.new spans h) }
    ensures bad { IfErr result (λ refusal. (refusal ≡ Refusal.BadHead)
        × ((h : RequestHead) → ReadsRequest bytes.now h [] → h.minor ≡ 1
        → length h.fields ≤ length headers.old → ⊥)) }
{
    match parse_request(bytes, headers) {
        Ok(Status::Complete(spans)) if spans.len == bytes.len() && spans.version == 1 => Ok(spans),
        _ => Err(Refusal::BadHead),
    }
}

// The length of the body, if the headers state one, in the one way that is allowed.
fn length_in(bytes: &[u8], headers: &[HeaderSpan]) -> Result<Option<usize>, Refusal>
    requires { All (IsHeaderWithin (length bytes.now)) headers.now }
    ensures good { IfOk result (λ size.
        (values_in (codes "transfer-encoding") (map (header_bytes bytes.now) headers.now) ≡ [])
        × IsLength (values_in (codes "content-length") (map (header_bytes bytes.now) headers.now))
        × (size ≡ option_map (min (max_body + 1)) (option_and_then number_in
        (sole (values_in (codes "content-length") (map (header_bytes bytes.now) headers.now)))))) }
    ensures bad { IfErr result (λ refusal. (refusal ≡ Refusal.BadHead)
        × (values_in (codes "transfer-encoding") (map (header_bytes bytes.now) headers.now) ≡ []
        → IsLength (values_in (codes "content-length") (map (header_bytes bytes.now) headers.now))
        → ⊥)) }
{
    let Found::Absent = find_header(bytes, headers, b"transfer-encoding") else {
        return Err(Refusal::BadHead);
    };
    match find_header(bytes, headers, b"content-length") {
        Found::Absent => Ok(None),
        Found::Once(text) => match read_length(text) {
            Some(length) => Ok(Some(length)),
            None => Err(Refusal::BadHead),
        },
        Found::More => Err(Refusal::BadHead),
    }
}

// The text of the key, if the headers have it once.
fn key_in<'a>(bytes: &'a [u8], headers: &[HeaderSpan]) -> Option<&'a [u8]>
    requires { All (IsHeaderWithin (length bytes.now)) headers.now }
    ensures { option_map (λ text. text.now) result
        ≡ sole (values_in (codes "x-ledger-key") (map (header_bytes bytes.now) headers.now)) }
{
    match find_header(bytes, headers, b"x-ledger-key") {
        Found::Once(text) => Some(text),
        Found::Absent | Found::More => None,
    }
}

// Whether the headers ask for detail in the reply, once.
fn wants_detail(bytes: &[u8], headers: &[HeaderSpan]) -> bool
    requires { All (IsHeaderWithin (length bytes.now)) headers.now }
    ensures { result ≡ is_text (codes "1")
        (sole (values_in (codes "x-ledger-detail") (map (header_bytes bytes.now) headers.now))) }
{
    match find_header(bytes, headers, b"x-ledger-detail") {
        Found::Once(text) => text == b"1".as_slice(),
        Found::Absent | Found::More => false,
    }
}

/// What a head says that takes up all bytes.
pub(crate) fn head_of(bytes: &[u8]) -> Result<Head<'_>, Refusal>
    ensures good { IfOk result
        (λ head. (h : RequestHead) × IsGoodHead bytes.now h × ShowsHead head h) }
    ensures bad { IfErr result (λ refusal. (refusal ≡ Refusal.BadHead)
        × ((h : RequestHead) → IsGoodHead bytes.now h → ⊥)) }
{
    let mut room = [EMPTY_HEADER_SPAN; MAX_HEADERS];
    let spans = spans_of(bytes, &mut room)?;
    let headers = &room[..spans.headers];
    let length = length_in(bytes, headers)?;
    Ok(Head {
        method: spans.method.of(bytes),
        target: str::from_utf8(spans.path.of(bytes)).unwrap(),
        length,
        key: key_in(bytes, headers),
        wants_detail: wants_detail(bytes, headers),
        has_close: lists_token(bytes, headers, b"connection", b"close"),
    })
}
