//! Under which tokens events are told.
ghost use Rattle.std.specs.Prelude.{◌≡◌, ◌≤◌, ◌+◌, ◌^◌, IfSome, IfNone};
ghost use Rattle.sockets.specs.Tokens.{owner_of};

use mio::Token;

/// The listening socket's.
pub(crate) const DOOR: Token = Token(0);

/// That of what the operator has watched.
pub(crate) const BELL: Token = Token(1);

/// Client 0's. All later tokens are clients'.
const FIRST: u64 = 2;

/// Whose an event is.
#[derive(Clone, Copy, Debug, PartialEq, Eq)]
pub(crate) enum Owner {
    /// The listening socket's.
    Door,
    /// The operator's own.
    Operator,
    /// A client's, by its number.
    Client(u64),
}

/// A client's. The last two numbers have none.
pub(crate) fn token_of(number: u64) -> Option<Token>
    ensures client { IfSome result (λ token. owner_of token.0 ≡ Owner.Client number) }
    ensures none { IfNone result (2 ^ 64 ≤ number + 2) }
{
    match number.checked_add(FIRST) {
        Some(token) => Some(Token(token as usize)),
        None => None,
    }
}

/// Whose events are told under a token.
pub(crate) fn owner_of(token: Token) -> Owner
    ensures { result ≡ owner_of token.0 }
{
    if token == DOOR {
        return Owner::Door;
    }
    if token == BELL {
        return Owner::Operator;
    }
    Owner::Client((token.0 as u64).saturating_sub(FIRST))
}
