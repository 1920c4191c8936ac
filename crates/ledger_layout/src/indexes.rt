//! The trees of a ledger's tables and keys.

use sqlite_sql::query::Index;
use sqlite_value::keys::Order;

pub(crate) const SCHEMA: u32 = 0;

pub(crate) const TENANT: u32 = 1;

pub(crate) const CLOCK: u32 = 4;

pub(crate) const ACCOUNT: u32 = 5;

pub(crate) const TRANSFER: u32 = 8;

pub(crate) const BALANCE: u32 = 11;

pub(crate) const STATUS: u32 = 13;

pub(crate) const HISTORY: u32 = 15;

pub(crate) const FAILED: u32 = 17;

pub(crate) const TENANT_BY_NAME: Index<'static> = Index {
    tree: 2,
    table: TENANT,
    columns: &[2],
    order: Order::PLAIN,
};

pub(crate) const TENANT_BY_DIGEST: Index<'static> = Index {
    tree: 3,
    table: TENANT,
    columns: &[3],
    order: Order::PLAIN,
};

pub(crate) const ACCOUNT_BY_ID: Index<'static> = Index {
    tree: 6,
    table: ACCOUNT,
    columns: &[1, 2],
    order: Order::PLAIN,
};

pub(crate) const ACCOUNT_BY_TIME: Index<'static> = Index {
    tree: 7,
    table: ACCOUNT,
    columns: &[1, 9],
    order: Order::PLAIN,
};

pub(crate) const TRANSFER_BY_ID: Index<'static> = Index {
    tree: 9,
    table: TRANSFER,
    columns: &[1, 2],
    order: Order::PLAIN,
};

pub(crate) const TRANSFER_BY_TIME: Index<'static> = Index {
    tree: 10,
    table: TRANSFER,
    columns: &[1, 14],
    order: Order::PLAIN,
};

pub(crate) const BALANCE_BY_ID: Index<'static> = Index {
    tree: 12,
    table: BALANCE,
    columns: &[1, 2],
    order: Order::PLAIN,
};

pub(crate) const STATUS_BY_ID: Index<'static> = Index {
    tree: 14,
    table: STATUS,
    columns: &[1, 2],
    order: Order::PLAIN,
};

pub(crate) const HISTORY_BY_ENTRY: Index<'static> = Index {
    tree: 16,
    table: HISTORY,
    columns: &[1, 2, 3],
    order: Order::PLAIN,
};

pub(crate) const FAILED_BY_ID: Index<'static> = Index {
    tree: 18,
    table: FAILED,
    columns: &[1, 2],
    order: Order::PLAIN,
};
