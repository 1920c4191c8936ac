use crate::Items;
use records::{AccountFilter, PageFilter, QueryFilter};

/// Which records a page is asked for.
#[derive(Clone, Copy, Debug, PartialEq, Eq)]
pub enum Query {
    Accounts(QueryFilter),
    Transfers(QueryFilter),
    /// The pending transfers that are open.
    OpenPending(PageFilter),
}

/// What a request that changes nothing asks for, route by route.
#[derive(Debug, Drop)]
pub enum Read {
    /// The ids of the accounts that are looked up.
    LookupAccounts(Items<u128>),
    /// The ids of the transfers that are looked up.
    LookupTransfers(Items<u128>),
    HistoryTransfers(AccountFilter),
    HistoryBalances(AccountFilter),
    Query(Query),
    /// The ids of the pending transfers that are looked up.
    LookupPending(Items<u128>),
    /// The id of the account.
    Statement(u128),
    /// How many events a good body has that is judged and not booked.
    Lint(usize),
}
