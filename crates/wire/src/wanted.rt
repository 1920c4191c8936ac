ghost use Rattle.std.specs.Prelude.{◌≡◌, IfOk};
ghost use Rattle.std.specs.String.{string_bytes};

use ledger_http::Refusal;
use std::alloc::{AllocError, Global};

/// What a body that is refused has not.
#[derive(Clone, Copy, Debug, PartialEq, Eq)]
pub enum Wanted {
    /// The body is JSON.
    Json,
    /// A body of events or ids is a list.
    List,
    /// The list has at most 1,000 of them.
    Few,
    /// An event, a filter or a query is an object.
    Object,
    /// The name of a field is one of those known.
    KnownName,
    /// A string of decimal digits, with no zero in front, below 2^128.
    Digits128,
    /// The same, below 2^64.
    Digits64,
    /// A whole number below this one.
    WholeBelow(u64),
    /// A whole number from 1 to 1,000.
    Limit,
}

impl Wanted {
    ghost use Rattle.wire.specs.Misfits.{refusal_of};
    ghost use Rattle.wire.specs.Wants.{want_text};

    /// The refusal of a body that has it not.
    pub fn refusal(self) -> Refusal
        ensures { result ≡ refusal_of self }
    {
        match self {
            Wanted::Json => Refusal::BodyNotJson,
            Wanted::Few => Refusal::TooManyEvents,
            _ => Refusal::BadField,
        }
    }

    /// What it is, in words.
    pub fn text(self, alloc: Global) -> Result<String, AllocError>
        ensures { IfOk result (λ text. string_bytes text ≡ want_text self) }
    {
        let text = match self {
            Wanted::Json => "JSON",
            Wanted::List => "a list",
            Wanted::Few => "at most 1,000 events or ids",
            Wanted::Object => "an object",
            Wanted::KnownName => "known fields only",
            Wanted::Digits128 => "a string of decimal digits, with no zero in front, below 2^128",
            Wanted::Digits64 => "a string of decimal digits, with no zero in front, below 2^64",
            Wanted::Limit => "a whole number from 1 to 1,000",
            Wanted::WholeBelow(bound) => {
                return format!(in alloc; "a whole number below {bound}");
            }
        };
        String::from_str(alloc, text)
    }
}
