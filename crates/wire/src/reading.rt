ghost use Rattle.std.specs.Prelude.{◌≡◌, ◌≢◌, Ok, Err, IfOk, IfErr};
ghost use Rattle.wire.specs.Meaning.{meaning_of, account_in, HasFew};

use crate::body::{read_accounts, read_ids, read_one, read_transfers};
use crate::fields::read_number;
use crate::{Items, Query, Read, Request};
use ledger_http::{Asked, Refusal, Route};
use std::alloc::Global;

/// What a request with a good key means. The body counts on the routes of POST alone, and the
/// account's text on the one of a statement. `Unavailable` is want of memory, and says nothing of
/// the request; each other refusal is the first that applies, and none stands for want of memory.
pub fn meaning(alloc: Global, asked: &Asked) -> Result<Request, Refusal>
    ensures ok { IfOk result (λ request.
        meaning_of asked.now.route asked.now.account.now asked.now.body.now ≡ Ok request) }
    ensures few { IfOk result HasFew }
    ensures err { IfErr result (λ e. e ≢ Refusal.Unavailable
        → meaning_of asked.now.route asked.now.account.now asked.now.body.now ≡ Err e) }
{
    Ok(Request::Read(match asked.route {
        Route::Accounts => return Ok(Request::Accounts(read_accounts(alloc, asked.body)?.into())),
        Route::Transfers => return Ok(Request::Transfers(read_transfers(
            alloc, asked.body,
        )?.into())),
        Route::LookupAccounts => Read::LookupAccounts(read_ids(alloc, asked.body)?.into()),
        Route::LookupTransfers => Read::LookupTransfers(read_ids(alloc, asked.body)?.into()),
        Route::HistoryTransfers => Read::HistoryTransfers(read_one(alloc, asked.body)?),
        Route::HistoryBalances => Read::HistoryBalances(read_one(alloc, asked.body)?),
        Route::QueryAccounts => Read::Query(Query::Accounts(read_one(alloc, asked.body)?)),
        Route::QueryTransfers => Read::Query(Query::Transfers(read_one(alloc, asked.body)?)),
        Route::LookupPending => Read::LookupPending(read_ids(alloc, asked.body)?.into()),
        Route::OpenPending => Read::Query(Query::OpenPending(read_one(alloc, asked.body)?)),
        Route::Statement => Read::Statement(read_account(asked.account)?),
        Route::LintAccounts => Read::Lint(read_accounts(alloc, asked.body)?.len()),
        Route::LintTransfers => Read::Lint(read_transfers(alloc, asked.body)?.len()),
    }))
}

// The account in the path of a statement.
fn read_account(text: &str) -> Result<u128, Refusal>
    ensures { result ≡ account_in text.now }
{
    read_number(text).ok_or(Refusal::BadField)
}
