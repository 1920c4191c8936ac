//! Which route a path has.
ghost use Rattle.std.specs.Prelude.{◌≡◌, ◌≢◌, Err, IfErr, OnOk, IfOk, ok_or};
ghost use Rattle.matchit.specs.Route.{parse_route};
ghost use Rattle.ledger_http.specs.Routes.{path_of, rows_with, service_rows, route_of, account_text};
ghost use Rattle.ledger_http.specs.Routing.{CanAdd};

use crate::{Refusal, Route};
use matchit::{InsertError, Router};
use std::alloc::Global;

fn add(router: &mut Router<Route>, route: Route) -> Result<(), Refusal>
    requires { CanAdd router.old route }
    ensures ok { OnOk result
        (router.new ≡ rows_with router.old route (parse_route (path_of route))) }
    ensures err { IfErr result (λ refusal. refusal ≡ Refusal.Unavailable) }
{
    match router.insert(route.path(), route) {
        Ok(()) => Ok(()),
        Err(InsertError::OutOfMemory) => Err(Refusal::Unavailable),
        Err(_) => unreachable!(),
    }
}

fn service_router(alloc: Global) -> Result<Router<Route>, Refusal>
    ensures ok { IfOk result (λ router. router ≡ service_rows) }
    ensures err { IfErr result (λ refusal. refusal ≡ Refusal.Unavailable) }
{
    let mut router = Router::new(alloc);
    add(&mut router, Route::Accounts)?;
    add(&mut router, Route::Transfers)?;
    add(&mut router, Route::LookupAccounts)?;
    add(&mut router, Route::LookupTransfers)?;
    add(&mut router, Route::HistoryTransfers)?;
    add(&mut router, Route::HistoryBalances)?;
    add(&mut router, Route::QueryAccounts)?;
    add(&mut router, Route::QueryTransfers)?;
    add(&mut router, Route::LookupPending)?;
    add(&mut router, Route::OpenPending)?;
    add(&mut router, Route::Statement)?;
    add(&mut router, Route::LintAccounts)?;
    add(&mut router, Route::LintTransfers)?;
    Ok(router)
}

/// The route that a path has, whatever the method. Transfers are asked for most, so their path is
/// compared first: making a router costs a tenth of what a single transfer does.
#[tactic(auto, unfolding(crate::specs::Routes::route_of))]
pub(crate) fn find_route(alloc: Global, path: &str) -> Result<Route, Refusal>
    ensures { result ≢ Err Refusal.Unavailable
        → result ≡ ok_or (route_of path.now) Refusal.NoRoute }
{
    if path == Route::Transfers.path() {
        return Ok(Route::Transfers);
    }
    let router = service_router(alloc)?;
    match router.at(path) {
        Ok(found) => Ok(*found.value),
        Err(_) => Err(Refusal::NoRoute),
    }
}

/// The account in the path of a statement; empty for other paths.
pub(crate) fn account_in(path: &str) -> &str
    ensures { result.now ≡ account_text path.now }
{
    path.strip_prefix("/statement/").unwrap_or("")
}
