ghost use Rattle.std.specs.Prelude.{◌≡◌};
ghost use Rattle.ledger_http.specs.Routes.{path_of, method_of, posted_route, is_lint};

/// What a request asks for.
#[derive(Clone, Copy, Debug, PartialEq, Eq)]
pub enum Route {
    /// A batch of account events.
    Accounts,
    /// A batch of transfer events.
    Transfers,
    /// Accounts by their ids.
    LookupAccounts,
    /// Transfers by their ids.
    LookupTransfers,
    /// An account's transfers.
    HistoryTransfers,
    /// An account's balances after its transfers.
    HistoryBalances,
    /// A page of accounts by what they are marked with.
    QueryAccounts,
    /// A page of transfers by what they are marked with.
    QueryTransfers,
    /// What has become of pending transfers, by their ids.
    LookupPending,
    /// A page of the pending transfers that are open.
    OpenPending,
    /// An account's statement.
    Statement,
    /// Whether a body of account events is good. Nothing is booked.
    LintAccounts,
    /// The same of a body of transfer events.
    LintTransfers,
}

impl Route {
    /// The path; braces stand round what is not fixed.
    pub fn path(self) -> &'static str
        ensures { result.now ≡ path_of self }
    {
        match self {
            Route::Accounts => "/accounts",
            Route::Transfers => "/transfers",
            Route::LookupAccounts => "/accounts/lookup",
            Route::LookupTransfers => "/transfers/lookup",
            Route::HistoryTransfers => "/history/transfers",
            Route::HistoryBalances => "/history/balances",
            Route::QueryAccounts => "/query/accounts",
            Route::QueryTransfers => "/query/transfers",
            Route::LookupPending => "/pending/lookup",
            Route::OpenPending => "/pending/open",
            Route::Statement => "/statement/{account}",
            Route::LintAccounts => "/lint/accounts",
            Route::LintTransfers => "/lint/transfers",
        }
    }

    pub fn method(self) -> &'static [u8]
        ensures { result.now ≡ method_of self }
    {
        match self {
            Route::Statement => b"GET",
            _ => b"POST",
        }
    }

    /// Whether it judges a body alone. Such a route always says where it refuses the body.
    pub fn is_lint(self) -> bool
        ensures { result ≡ is_lint self }
    {
        matches!(self, Route::LintAccounts | Route::LintTransfers)
    }

    /// The route of a path to which bodies are posted, or none.
    pub fn posted_at(path: &str) -> Option<Route>
        ensures { result ≡ posted_route path.now }
    {
        match path {
            "/accounts" => Some(Route::Accounts),
            "/transfers" => Some(Route::Transfers),
            "/accounts/lookup" => Some(Route::LookupAccounts),
            "/transfers/lookup" => Some(Route::LookupTransfers),
            "/history/transfers" => Some(Route::HistoryTransfers),
            "/history/balances" => Some(Route::HistoryBalances),
            "/query/accounts" => Some(Route::QueryAccounts),
            "/query/transfers" => Some(Route::QueryTransfers),
            "/pending/lookup" => Some(Route::LookupPending),
            "/pending/open" => Some(Route::OpenPending),
            "/lint/accounts" => Some(Route::LintAccounts),
            "/lint/transfers" => Some(Route::LintTransfers),
            _ => None,
        }
    }
}
