//! The columns of each kind of rows, in their order.

use crate::indexes::{
    ACCOUNT, ACCOUNT_BY_ID, ACCOUNT_BY_TIME, BALANCE, BALANCE_BY_ID, FAILED, FAILED_BY_ID, HISTORY,
    STATUS, STATUS_BY_ID, TRANSFER, TRANSFER_BY_ID, TRANSFER_BY_TIME,
};
use crate::kind::{Identified, Kind, Timed};
use keyed_trees::{Columns, write_values};
use rows::{AccountCells, BalanceCells, HistoryCells, StatusCells, TransferCells};
use sqlite_sql::query::Index;
use sqlite_trees::error::StoreError;
use sqlite_value::row::Row;
use sqlite_value::value::ValueRef;
use std::alloc::AllocError;

/// A row of the table `failed`, without its column `tenant`.
#[derive(Clone, Copy, Debug, PartialEq, Eq)]
pub struct FailedCells {
    pub id: [u8; 16],
}

impl Kind for AccountCells {
    ghost use Rattle.std.specs.Prelude.{refl};
    ghost use Rattle.std.proofs.Common.{rules};
    ghost use Rattle.ledger_sql.specs.Schema.{account_tree};
    ghost use Rattle.ledger_sql.specs.Values.{account_values};

    ghost table = { account_tree };

    ghost others = { 7 };

    ghost values = { account_values };

    ghost shown = { λ it rowid tenant. refl };

    ghost listed = { (3, Prim.search rules, refl) };

    fn table() -> u32 {
        ACCOUNT
    }

    fn write(&self, row: &mut Row) -> Result<(), AllocError> {
        write_values(
            row,
            &[
                ValueRef::Blob(&self.id),
                ValueRef::Blob(&self.user_data_128),
                ValueRef::Blob(&self.user_data_64),
                ValueRef::Int(self.user_data_32),
                ValueRef::Int(self.ledger),
                ValueRef::Int(self.code),
                ValueRef::Int(self.flags),
                ValueRef::Int(self.timestamp),
            ],
        )
    }

    fn read(columns: &mut Columns<'_>) -> Result<AccountCells, StoreError> {
        Ok(AccountCells {
            id: columns.bytes()?,
            user_data_128: columns.bytes()?,
            user_data_64: columns.bytes()?,
            user_data_32: columns.integer()?,
            ledger: columns.integer()?,
            code: columns.integer()?,
            flags: columns.integer()?,
            timestamp: columns.integer()?,
        })
    }
}

impl Identified for AccountCells {
    ghost use Rattle.std.specs.Prelude.{refl};
    ghost use Rattle.std.proofs.Common.{rules};

    ghost keyed = { (2, Prim.search rules, refl) };

    fn id_index() -> Index<'static> {
        ACCOUNT_BY_ID
    }
}

impl Timed for AccountCells {
    ghost use Rattle.std.specs.Prelude.{refl};
    ghost use Rattle.std.proofs.Common.{rules};

    ghost time_at = { 7 };

    ghost timed = { λ row. refl };

    ghost ordered = { (3, Prim.search rules, refl) };

    fn time_index() -> Index<'static> {
        ACCOUNT_BY_TIME
    }
}

impl Kind for TransferCells {
    ghost use Rattle.std.specs.Prelude.{refl};
    ghost use Rattle.std.proofs.Common.{rules};
    ghost use Rattle.ledger_sql.specs.Schema.{transfer_tree};
    ghost use Rattle.ledger_sql.specs.Values.{transfer_values};

    ghost table = { transfer_tree };

    ghost others = { 13 };

    ghost values = { transfer_values };

    ghost shown = { λ it rowid tenant. refl };

    ghost listed = { (4, Prim.search rules, refl) };

    fn table() -> u32 {
        TRANSFER
    }

    fn write(&self, row: &mut Row) -> Result<(), AllocError> {
        write_values(
            row,
            &[
                ValueRef::Blob(&self.id),
                ValueRef::Blob(&self.debit),
                ValueRef::Blob(&self.credit),
                ValueRef::Blob(&self.amount),
                ValueRef::Blob(&self.pending_id),
                ValueRef::Blob(&self.user_data_128),
                ValueRef::Blob(&self.user_data_64),
                ValueRef::Int(self.user_data_32),
                ValueRef::Int(self.timeout),
                ValueRef::Int(self.ledger),
                ValueRef::Int(self.code),
                ValueRef::Int(self.flags),
                ValueRef::Int(self.timestamp),
                ValueRef::Int(self.at_clock),
            ],
        )
    }

    fn read(columns: &mut Columns<'_>) -> Result<TransferCells, StoreError> {
        Ok(TransferCells {
            id: columns.bytes()?,
            debit: columns.bytes()?,
            credit: columns.bytes()?,
            amount: columns.bytes()?,
            pending_id: columns.bytes()?,
            user_data_128: columns.bytes()?,
            user_data_64: columns.bytes()?,
            user_data_32: columns.integer()?,
            timeout: columns.integer()?,
            ledger: columns.integer()?,
            code: columns.integer()?,
            flags: columns.integer()?,
            timestamp: columns.integer()?,
            at_clock: columns.integer()?,
        })
    }
}

impl Identified for TransferCells {
    ghost use Rattle.std.specs.Prelude.{refl};
    ghost use Rattle.std.proofs.Common.{rules};

    ghost keyed = { (4, Prim.search rules, refl) };

    fn id_index() -> Index<'static> {
        TRANSFER_BY_ID
    }
}

impl Timed for TransferCells {
    ghost use Rattle.std.specs.Prelude.{refl};
    ghost use Rattle.std.proofs.Common.{rules};

    ghost time_at = { 12 };

    ghost timed = { λ row. refl };

    ghost ordered = { (5, Prim.search rules, refl) };

    fn time_index() -> Index<'static> {
        TRANSFER_BY_TIME
    }
}

impl Kind for BalanceCells {
    ghost use Rattle.std.specs.Prelude.{refl};
    ghost use Rattle.std.proofs.Common.{rules};
    ghost use Rattle.ledger_sql.specs.Schema.{balance_tree};
    ghost use Rattle.ledger_sql.specs.Values.{balance_values};

    ghost table = { balance_tree };

    ghost others = { 4 };

    ghost values = { balance_values };

    ghost shown = { λ it rowid tenant. refl };

    ghost listed = { (5, Prim.search rules, refl) };

    fn table() -> u32 {
        BALANCE
    }

    fn write(&self, row: &mut Row) -> Result<(), AllocError> {
        write_values(
            row,
            &[
                ValueRef::Blob(&self.account),
                ValueRef::Blob(&self.dp),
                ValueRef::Blob(&self.dd),
                ValueRef::Blob(&self.cp),
                ValueRef::Blob(&self.cc),
            ],
        )
    }

    fn read(columns: &mut Columns<'_>) -> Result<BalanceCells, StoreError> {
        Ok(BalanceCells {
            account: columns.bytes()?,
            dp: columns.bytes()?,
            dd: columns.bytes()?,
            cp: columns.bytes()?,
            cc: columns.bytes()?,
        })
    }
}

impl Identified for BalanceCells {
    ghost use Rattle.std.specs.Prelude.{refl};
    ghost use Rattle.std.proofs.Common.{rules};

    ghost keyed = { (6, Prim.search rules, refl) };

    fn id_index() -> Index<'static> {
        BALANCE_BY_ID
    }
}

impl Kind for StatusCells {
    ghost use Rattle.std.specs.Prelude.{refl};
    ghost use Rattle.std.proofs.Common.{rules};
    ghost use Rattle.ledger_sql.specs.Schema.{status_tree};
    ghost use Rattle.ledger_sql.specs.Values.{status_values};

    ghost table = { status_tree };

    ghost others = { 2 };

    ghost values = { status_values };

    ghost shown = { λ it rowid tenant. refl };

    ghost listed = { (6, Prim.search rules, refl) };

    fn table() -> u32 {
        STATUS
    }

    fn write(&self, row: &mut Row) -> Result<(), AllocError> {
        write_values(
            row,
            &[
                ValueRef::Blob(&self.transfer),
                ValueRef::Int(self.state),
                ValueRef::Int(self.due),
            ],
        )
    }

    fn read(columns: &mut Columns<'_>) -> Result<StatusCells, StoreError> {
        Ok(StatusCells {
            transfer: columns.bytes()?,
            state: columns.integer()?,
            due: columns.integer()?,
        })
    }
}

impl Identified for StatusCells {
    ghost use Rattle.std.specs.Prelude.{refl};
    ghost use Rattle.std.proofs.Common.{rules};

    ghost keyed = { (7, Prim.search rules, refl) };

    fn id_index() -> Index<'static> {
        STATUS_BY_ID
    }
}

impl Kind for HistoryCells {
    ghost use Rattle.std.specs.Prelude.{refl};
    ghost use Rattle.std.proofs.Common.{rules};
    ghost use Rattle.ledger_sql.specs.Schema.{history_tree};
    ghost use Rattle.ledger_sql.specs.Values.{history_values};

    ghost table = { history_tree };

    ghost others = { 5 };

    ghost values = { history_values };

    ghost shown = { λ it rowid tenant. refl };

    ghost listed = { (7, Prim.search rules, refl) };

    fn table() -> u32 {
        HISTORY
    }

    fn write(&self, row: &mut Row) -> Result<(), AllocError> {
        write_values(
            row,
            &[
                ValueRef::Blob(&self.account),
                ValueRef::Int(self.timestamp),
                ValueRef::Blob(&self.dp),
                ValueRef::Blob(&self.dd),
                ValueRef::Blob(&self.cp),
                ValueRef::Blob(&self.cc),
            ],
        )
    }

    fn read(columns: &mut Columns<'_>) -> Result<HistoryCells, StoreError> {
        Ok(HistoryCells {
            account: columns.bytes()?,
            timestamp: columns.integer()?,
            dp: columns.bytes()?,
            dd: columns.bytes()?,
            cp: columns.bytes()?,
            cc: columns.bytes()?,
        })
    }
}

impl Kind for FailedCells {
    ghost use Rattle.std.specs.Prelude.{refl};
    ghost use Rattle.std.proofs.Common.{rules};
    ghost use Rattle.ledger_sql.specs.Schema.{failed_tree};
    ghost use Rattle.ledger_sql.specs.Values.{id_values};

    ghost table = { failed_tree };

    ghost others = { 0 };

    ghost values = { λ row. id_values row.id };

    ghost shown = { λ it rowid tenant. refl };

    ghost listed = { (8, Prim.search rules, refl) };

    fn table() -> u32 {
        FAILED
    }

    fn write(&self, row: &mut Row) -> Result<(), AllocError> {
        write_values(row, &[ValueRef::Blob(&self.id)])
    }

    fn read(columns: &mut Columns<'_>) -> Result<FailedCells, StoreError> {
        Ok(FailedCells {
            id: columns.bytes()?,
        })
    }
}

impl Identified for FailedCells {
    ghost use Rattle.std.specs.Prelude.{refl};
    ghost use Rattle.std.proofs.Common.{rules};

    ghost keyed = { (9, Prim.search rules, refl) };

    fn id_index() -> Index<'static> {
        FAILED_BY_ID
    }
}
