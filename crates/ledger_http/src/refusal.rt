ghost use Rattle.std.specs.Prelude.{◌≡◌};
ghost use Rattle.ledger_http.specs.declared.refusal.Refusal.TheVariants.{Unavailable};

use http::StatusCode;
use std::alloc::{AllocError, AllocFailed};
use std::error::Error;
use std::fmt;

/// Why a message is refused, in the order in which the refusals are tested.
#[derive(Clone, Copy, Debug, PartialEq, Eq)]
pub enum Refusal {
    /// The head ends within 16,384 bytes and is not a good one.
    BadHead,
    /// The head does not end within 16,384 bytes.
    HeadTooLarge,
    /// The method is not GET, and no length is given.
    LengthRequired,
    /// The body is longer than 2,097,152 bytes.
    BodyTooLarge,
    /// The input ends inside the message.
    Truncated,
    /// No route has this path.
    NoRoute,
    /// The path has a route, for another method.
    BadMethod,
    /// The key is missing, doubled, ill-formed or unknown. Which of these it is, is not told.
    UnknownKey,
    /// The body is no JSON.
    BodyNotJson,
    /// The body, or the account of a statement, has not the form that is asked for.
    BadField,
    /// More than 1,000 events or ids, all well formed.
    TooManyEvents,
    /// There is no account with this id.
    NoAccount,
    /// The account keeps no history of its balances.
    NoHistory,
    /// The clock after the batch would pass 2^62.
    ClockExhausted,
    /// Memory ran out, or the store was not to be reached. Nothing has changed; only where its disk
    /// failed may the next opening find the whole batch.
    Unavailable,
}

// A whole reply. Its body is an object with the name, of `$length` bytes.
macro_rules! constant {
    ($status:literal, $length:literal, $name:literal) => {
        concat!(
            "HTTP/1.1 ",
            $status,
            "\r\ncontent-length: ",
            $length,
            "\r\ncontent-type: application/json\r\n\r\n{\"error\":\"",
            $name,
            "\"}"
        )
    };
}

impl Refusal {
    ghost use Rattle.ledger_http.specs.RefusalTable.{status_of, name_of};
    ghost use Rattle.ledger_http.specs.ReplyText.{refusal_text};

    pub fn status(self) -> StatusCode
        ensures { result ≡ status_of self }
    {
        match self {
            Refusal::BadHead | Refusal::Truncated | Refusal::BodyNotJson | Refusal::BadField =>
                StatusCode::BAD_REQUEST,
            Refusal::UnknownKey => StatusCode::UNAUTHORIZED,
            Refusal::NoRoute | Refusal::NoAccount => StatusCode::NOT_FOUND,
            Refusal::BadMethod => StatusCode::METHOD_NOT_ALLOWED,
            Refusal::NoHistory => StatusCode::CONFLICT,
            Refusal::LengthRequired => StatusCode::LENGTH_REQUIRED,
            Refusal::BodyTooLarge | Refusal::TooManyEvents => StatusCode::PAYLOAD_TOO_LARGE,
            Refusal::HeadTooLarge => StatusCode::REQUEST_HEADER_FIELDS_TOO_LARGE,
            Refusal::ClockExhausted | Refusal::Unavailable => StatusCode::SERVICE_UNAVAILABLE,
        }
    }

    /// The name of the refusal in a reply.
    pub fn name(self) -> &'static str
        ensures { result.now ≡ name_of self }
    {
        match self {
            Refusal::BadHead => "bad_head",
            Refusal::HeadTooLarge => "head_too_large",
            Refusal::LengthRequired => "length_required",
            Refusal::BodyTooLarge => "body_too_large",
            Refusal::Truncated => "truncated",
            Refusal::NoRoute => "no_route",
            Refusal::BadMethod => "bad_method",
            Refusal::UnknownKey => "unknown_key",
            Refusal::BodyNotJson => "body_not_json",
            Refusal::BadField => "bad_field",
            Refusal::TooManyEvents => "too_many_events",
            Refusal::NoAccount => "no_account",
            Refusal::NoHistory => "no_history",
            Refusal::ClockExhausted => "clock_exhausted",
            Refusal::Unavailable => "unavailable",
        }
    }

    /// The whole reply, from its status line on.
    pub fn reply(self) -> &'static str
        ensures { result.now ≡ refusal_text self }
    {
        match self {
            Refusal::BadHead => constant!("400 Bad Request", "20", "bad_head"),
            Refusal::HeadTooLarge => {
                constant!(
                    "431 Request Header Fields Too Large",
                    "26",
                    "head_too_large"
                )
            }
            Refusal::LengthRequired => constant!("411 Length Required", "27", "length_required"),
            Refusal::BodyTooLarge => constant!("413 Payload Too Large", "26", "body_too_large"),
            Refusal::Truncated => constant!("400 Bad Request", "21", "truncated"),
            Refusal::NoRoute => constant!("404 Not Found", "20", "no_route"),
            Refusal::BadMethod => constant!("405 Method Not Allowed", "22", "bad_method"),
            Refusal::UnknownKey => constant!("401 Unauthorized", "23", "unknown_key"),
            Refusal::BodyNotJson => constant!("400 Bad Request", "25", "body_not_json"),
            Refusal::BadField => constant!("400 Bad Request", "21", "bad_field"),
            Refusal::TooManyEvents => constant!("413 Payload Too Large", "27", "too_many_events"),
            Refusal::NoAccount => constant!("404 Not Found", "22", "no_account"),
            Refusal::NoHistory => constant!("409 Conflict", "22", "no_history"),
            Refusal::ClockExhausted => {
                constant!("503 Service Unavailable", "27", "clock_exhausted")
            }
            Refusal::Unavailable => constant!("503 Service Unavailable", "23", "unavailable"),
        }
    }
}

impl fmt::Display for Refusal {
    ghost use Rattle.ledger_http.specs.RefusalTable.{name_of};
    ghost use Rattle.std.specs.Prelude.{Some};

    ghost output = { λ refusal. Some (name_of refusal) };

    fn fmt<W: fmt::Write>(&self, f: &mut fmt::Formatter<W>) -> fmt::Result {
        f.write_str(self.name())
    }
}

impl Error for Refusal {}

impl From<AllocError> for Refusal {
    ghost from_gives = { λ _ refusal. refusal ≡ Unavailable };

    fn from(_error: AllocError) -> Refusal {
        Refusal::Unavailable
    }
}

impl<T: Drop> From<AllocFailed<T>> for Refusal {
    ghost from_gives = { λ _ refusal. refusal ≡ Unavailable };

    fn from(_error: AllocFailed<T>) -> Refusal {
        Refusal::Unavailable
    }
}
