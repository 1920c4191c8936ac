//! Work that only reads, asked for as a read.

ghost use Rattle.std.specs.Prelude.{◌≡◌};
ghost use Rattle.chain.specs.Looks.{account_answer, read_answer};

use crate::{BatchFault, ReadFault};

/// Why a question about an account has no answer.
#[derive(Clone, Copy, Debug, PartialEq, Eq)]
pub(crate) enum AccountFault {
    /// There is no account with this id.
    NoAccount,
    /// The account keeps no history of its balances.
    NoHistory,
}

/// The answer of a batch, as a read.
pub(crate) fn read_answer<T>(told: Result<T, BatchFault>) -> Result<T, ReadFault>
    ensures { result ≡ read_answer told }
{
    match told {
        Ok(answer) => Ok(answer),
        Err(BatchFault::UnknownKey) => Err(ReadFault::UnknownKey),
        Err(BatchFault::Unavailable(why)) => Err(ReadFault::Unavailable(why)),
    }
}

/// The answer of a batch to a question about an account, as a read.
pub(crate) fn account_answer<T>(
    told: Result<Result<T, AccountFault>, BatchFault>,
) -> Result<T, ReadFault>
    ensures { result ≡ account_answer told }
{
    match read_answer(told)? {
        Ok(answer) => Ok(answer),
        Err(AccountFault::NoAccount) => Err(ReadFault::NoAccount),
        Err(AccountFault::NoHistory) => Err(ReadFault::NoHistory),
    }
}
