//! A body as a tree that borrows its text.
ghost use Rattle.std.specs.Prelude.{◌≡◌, ◌≢◌, ◌==◌, ◌<◌, None, Some, IfErr, IfOk, IsTrue};
ghost use Rattle.std.specs.Prelude.{false, true, is_some, length, option_and_then, option_map, slice_index};
ghost use Rattle.std.specs.List.{list_all};
ghost use Rattle.json.specs.Lex.{tokens};
ghost use Rattle.json.specs.Reads.{token_of};
ghost use Rattle.serde_json.specs.Find.{as_array, as_number, as_object, as_str, as_u64, get};
ghost use Rattle.serde_json.specs.Read.{number_from, number_of, read};
ghost use Rattle.wire.specs.Body.{json_of};
ghost use Rattle.wire.specs.Trees.{fits, items_data, members_data, tree_data};

use fast_float::Numeral;
use json::{Error, Reader, Scratch, Token, Value};
use ledger_http::Refusal;
use std::alloc::{AllocError, Global};

/// How deep lists and objects may nest.
const MAX_DEPTH: usize = 127;

/// The value that a body is, in the memory of `scratch`.
pub(crate) fn read_json<'a>(
    alloc: Global,
    body: &'a [u8],
    scratch: &'a mut Scratch,
) -> Result<Value<'a>, Refusal>
    ensures ok { IfOk result (λ value. json_of body.now ≡ Some (tree_data value)) }
    ensures err { IfErr result (λ e. e ≢ Refusal.Unavailable
        → (e ≡ Refusal.BodyNotJson) × (json_of body.now ≡ None)) }
{
    let Ok(text) = str::from_utf8(body) else {
        return Err(Refusal::BodyNotJson);
    };
    read_text(alloc, text, scratch)
}

fn read_text<'a>(
    alloc: Global,
    text: &'a str,
    scratch: &'a mut Scratch,
) -> Result<Value<'a>, Refusal>
    ensures ok { IfOk result (λ value. read text.now ≡ Some (tree_data value)) }
    ensures err { IfErr result (λ e. e ≢ Refusal.Unavailable
        → (e ≡ Refusal.BodyNotJson) × (read text.now ≡ None)) }
{
    if !numbers_fit(text, scratch)? {
        return Err(Refusal::BodyNotJson);
    }
    let mut reader = Reader::new(text, scratch)?;
    match Value::read(alloc, &mut reader, MAX_DEPTH) {
        Ok(value) => match reader.next() {
            None => Ok(value),
            Some(_) => Err(Refusal::BodyNotJson),
        },
        Err(Error::Invalid) => Err(Refusal::BodyNotJson),
        Err(_) => Err(Refusal::Unavailable),
    }
}

// Whether no number in a text is beyond all floats.
fn numbers_fit(text: &str, scratch: &mut Scratch) -> Result<bool, AllocError>
    ensures { IfOk result (λ fit. fit ≡ list_all fits (tokens text.now)) }
{
    let mut reader = Reader::new(text, scratch)?;
    while let Some(token) = reader.next() {
        if !fits(&token) {
            return Ok(false);
        }
    }
    Ok(true)
}

fn fits(token: &Token<'_>) -> bool
    ensures { result ≡ fits (token_of token.now) }
{
    match token {
        Token::Number(text) => number_fits(text),
        _ => true,
    }
}

fn number_fits(text: &str) -> bool
    ensures { result ≡ is_some (number_of text.now) }
{
    let bytes = text.as_bytes();
    if has_minus(bytes) {
        negative_fits(&Numeral::scan(&bytes[1..]))
    } else {
        positive_fits(&Numeral::scan(bytes))
    }
}

fn positive_fits(numeral: &Numeral<'_>) -> bool
    ensures { result ≡ is_some (number_from false numeral.now) }
{
    numeral.to_u64().is_some() || numeral.to_float::<f64>(false).is_finite()
}

fn negative_fits(numeral: &Numeral<'_>) -> bool
    ensures { result ≡ is_some (number_from true numeral.now) }
{
    if let Some(n) = numeral.to_i64(true) {
        if n < 0 {
            return true;
        }
    }
    numeral.to_float::<f64>(true).is_finite()
}

fn has_minus(bytes: &[u8]) -> bool
    ensures value { result ≡ (slice_index bytes.now 0 == 45) }
    ensures len { IsTrue result → 0 < length bytes.now }
{
    !bytes.is_empty() && bytes[0] == b'-'
}

/// The last member of that name.
pub(crate) fn member<'v, 'a>(object: &'v Value<'a>, name: &str) -> Option<&'v Value<'a>>
    ensures { option_map (λ v. tree_data v.now) result ≡ get name.now (tree_data object.now) }
{
    object.get(name)
}

/// The items of a list.
pub(crate) fn items<'v, 'a>(value: &'v Value<'a>) -> Option<&'v [Value<'a>]>
    ensures { option_map (λ vs. items_data vs.now) result ≡ as_array (tree_data value.now) }
{
    match value {
        Value::Array(items) => Some(items.as_slice()),
        _ => None,
    }
}

/// The members of an object, in the order in which they were sent.
pub(crate) fn members<'v, 'a>(value: &'v Value<'a>) -> Option<&'v [(&'a str, Value<'a>)]>
    ensures { option_map (λ ms. members_data ms.now) result ≡ as_object (tree_data value.now) }
{
    match value {
        Value::Object(members) => Some(members.as_slice()),
        _ => None,
    }
}

pub(crate) fn text<'a>(value: &Value<'a>) -> Option<&'a str>
    ensures { option_map (λ s. s.now) result ≡ as_str (tree_data value.now) }
{
    value.as_str()
}

/// A whole number below 2^64.
pub(crate) fn whole(value: &Value<'_>) -> Option<u64>
    ensures { result ≡ option_and_then as_u64 (as_number (tree_data value.now)) }
{
    whole_in(value.as_number()?)
}

fn whole_in(text: &str) -> Option<u64>
    ensures { result ≡ option_and_then as_u64 (number_of text.now) }
{
    let bytes = text.as_bytes();
    if has_minus(bytes) {
        None
    } else {
        whole_of(&Numeral::scan(bytes))
    }
}

fn whole_of(numeral: &Numeral<'_>) -> Option<u64>
    ensures { result ≡ option_and_then as_u64 (number_from false numeral.now) }
{
    numeral.to_u64()
}
