use crate::indexes::{
    ACCOUNT, ACCOUNT_BY_ID, ACCOUNT_BY_TIME, BALANCE, BALANCE_BY_ID, CLOCK, FAILED, FAILED_BY_ID,
    HISTORY, HISTORY_BY_ENTRY, SCHEMA, STATUS, STATUS_BY_ID, TENANT, TENANT_BY_DIGEST,
    TENANT_BY_NAME, TRANSFER, TRANSFER_BY_ID, TRANSFER_BY_TIME,
};
use keyed_trees::Layout;
use sqlite_sql::query::Index;

/// The tables of the current schema, and their keys.
pub struct LedgerLayout;

impl Layout for LedgerLayout {
    ghost use Rattle.std.proofs.Common.{rules};
    ghost use Rattle.ledger_sql.specs.Schema.{ledger_schema};
    ghost use Rattle.ledger_rules.specs.Whole.{IsWhole};
    ghost use Rattle.ledger_layout.specs.Keys.{ledger_keys, ledger_tables};
    ghost use Rattle.ledger_layout.specs.Tables.{FitsTree, ListsLedger};

    ghost schema = { ledger_schema };

    ghost tables = { ledger_tables };

    ghost keys = { ledger_keys };

    ghost is_row = { FitsTree };

    ghost is_listed = { ListsLedger };

    ghost is_whole = { IsWhole };

    ghost apart = { Prim.search rules };

    ghost unlisted = { Prim.search rules };

    fn tables() -> &'static [u32] {
        &[
            SCHEMA, TENANT, CLOCK, ACCOUNT, TRANSFER, BALANCE, STATUS, HISTORY, FAILED,
        ]
    }

    fn catalog() -> &'static [Index<'static>] {
        &[
            TENANT_BY_NAME,
            TENANT_BY_DIGEST,
            ACCOUNT_BY_ID,
            ACCOUNT_BY_TIME,
            TRANSFER_BY_ID,
            TRANSFER_BY_TIME,
            BALANCE_BY_ID,
            STATUS_BY_ID,
            HISTORY_BY_ENTRY,
            FAILED_BY_ID,
        ]
    }
}
