//! Why a call is refused.
ghost use Rattle.std.specs.Prelude.{◌≡◌};
ghost use Rattle.control.specs.Refusals.{fault_status, status_of, word_of};
ghost use Rattle.control.specs.declared.refusal.Refusal.TheVariants.{Judged};
ghost use Rattle.command_texts.specs.declared.fault.Fault.TheVariants.{Unavailable};

use command_texts::Fault;
use http::StatusCode;
use std::alloc::AllocError;

/// Why a call is refused.
#[derive(Clone, Copy, Debug, PartialEq, Eq)]
pub(crate) enum Refusal {
    /// No call has this path.
    NoRoute,
    /// The path has calls, by other methods.
    BadMethod,
    /// The message is none, or its body is not the one that the call wants.
    BadRequest,
    /// The fault that a command would tell.
    Judged(Fault),
}

// The status of the reply that tells a fault.
fn fault_status(fault: Fault) -> StatusCode
    ensures { result ≡ fault_status fault }
{
    match fault {
        Fault::NoTenant | Fault::NoAccount => StatusCode::NOT_FOUND,
        Fault::NameTaken | Fault::DigestTaken | Fault::Exists => StatusCode::CONFLICT,
        Fault::BadName
        | Fault::BadKey
        | Fault::BadAccount
        | Fault::BadVersion
        | Fault::BadTime
        | Fault::BadFormat
        | Fault::BadAddress
        | Fault::BadRoute => StatusCode::BAD_REQUEST,
        _ => StatusCode::SERVICE_UNAVAILABLE,
    }
}

impl Refusal {
    /// The word that tells it.
    pub(crate) fn word(self) -> &'static str
        ensures { result.now ≡ word_of self }
    {
        match self {
            Refusal::NoRoute => "no_route",
            Refusal::BadMethod => "bad_method",
            Refusal::BadRequest => "bad_request",
            Refusal::Judged(fault) => fault.word(),
        }
    }

    /// The status of the reply that tells it.
    pub(crate) fn status(self) -> StatusCode
        ensures { result ≡ status_of self }
    {
        match self {
            Refusal::NoRoute => StatusCode::NOT_FOUND,
            Refusal::BadMethod => StatusCode::METHOD_NOT_ALLOWED,
            Refusal::BadRequest => StatusCode::BAD_REQUEST,
            Refusal::Judged(fault) => fault_status(fault),
        }
    }
}

impl From<Fault> for Refusal {
    ghost from_gives = { λ fault refusal. refusal ≡ Judged fault };

    fn from(fault: Fault) -> Refusal {
        Refusal::Judged(fault)
    }
}

impl From<AllocError> for Refusal {
    ghost from_gives = { λ _ refusal. refusal ≡ Judged Unavailable };

    fn from(_error: AllocError) -> Refusal {
        Refusal::Judged(Fault::Unavailable)
    }
}
