//! The tables and indexes of a ledger, in the order in which they are made.

use crate::forms::CheckForm::{Equals, Length};
use crate::forms::ColumnForm::{Bytes, Whole, Words};
use crate::forms::{IndexForm, KeyForm, TableForm};

/// How many tables say which version a file has.
pub(crate) const VERSION_TABLES: usize = 1;

/// How many of the tables and of the indexes the list schema has, and the balance schema.
pub(crate) const LIST_TABLES: usize = 5;

pub(crate) const LIST_INDEXES: usize = 6;

pub(crate) const BALANCE_TABLES: usize = 8;

pub(crate) const BALANCE_INDEXES: usize = 9;

pub(crate) const TABLES: [TableForm<'static>; 9] = [
    SCHEMA, TENANT, CLOCK, ACCOUNT, TRANSFER, BALANCE, STATUS, HISTORY, FAILED,
];

const SCHEMA: TableForm<'static> = TableForm {
    name: b"schema",
    tree: 0,
    columns: &[Whole(b"one"), Whole(b"version")],
    key: Some(0),
    primary: &[0],
    uniques: &[],
    checks: &[Equals(0, 1)],
    tenant: None,
};

const TENANT: TableForm<'static> = TableForm {
    name: b"tenant",
    tree: 1,
    columns: &[Whole(b"no"), Words(b"name"), Bytes(b"digest")],
    key: Some(0),
    primary: &[0],
    uniques: &[KeyForm(&[2]), KeyForm(&[3])],
    checks: &[Length(3, 32)],
    tenant: None,
};

const CLOCK: TableForm<'static> = TableForm {
    name: b"clock",
    tree: 4,
    columns: &[Whole(b"tenant"), Whole(b"clock")],
    key: Some(0),
    primary: &[0],
    uniques: &[],
    checks: &[],
    tenant: Some(0),
};

const ACCOUNT: TableForm<'static> = TableForm {
    name: b"account",
    tree: 5,
    columns: &[
        Whole(b"tenant"),
        Bytes(b"id"),
        Bytes(b"user_data_128"),
        Bytes(b"user_data_64"),
        Whole(b"user_data_32"),
        Whole(b"ledger"),
        Whole(b"code"),
        Whole(b"flags"),
        Whole(b"timestamp"),
    ],
    key: None,
    primary: &[1, 2],
    uniques: &[KeyForm(&[1, 2]), KeyForm(&[1, 9])],
    checks: &[Length(2, 16), Length(3, 16), Length(4, 8)],
    tenant: Some(1),
};

const TRANSFER: TableForm<'static> = TableForm {
    name: b"transfer",
    tree: 8,
    columns: &[
        Whole(b"tenant"),
        Bytes(b"id"),
        Bytes(b"debit"),
        Bytes(b"credit"),
        Bytes(b"amount"),
        Bytes(b"pending_id"),
        Bytes(b"user_data_128"),
        Bytes(b"user_data_64"),
        Whole(b"user_data_32"),
        Whole(b"timeout"),
        Whole(b"ledger"),
        Whole(b"code"),
        Whole(b"flags"),
        Whole(b"timestamp"),
        Whole(b"at_clock"),
    ],
    key: None,
    primary: &[1, 2],
    uniques: &[KeyForm(&[1, 2]), KeyForm(&[1, 14])],
    checks: &[
        Length(2, 16),
        Length(3, 16),
        Length(4, 16),
        Length(5, 16),
        Length(6, 16),
        Length(7, 16),
        Length(8, 8),
    ],
    tenant: Some(1),
};

const BALANCE: TableForm<'static> = TableForm {
    name: b"balance",
    tree: 11,
    columns: &[
        Whole(b"tenant"),
        Bytes(b"account"),
        Bytes(b"dp"),
        Bytes(b"dd"),
        Bytes(b"cp"),
        Bytes(b"cc"),
    ],
    key: None,
    primary: &[1, 2],
    uniques: &[KeyForm(&[1, 2])],
    checks: &[
        Length(2, 16),
        Length(3, 16),
        Length(4, 16),
        Length(5, 16),
        Length(6, 16),
    ],
    tenant: Some(1),
};

const STATUS: TableForm<'static> = TableForm {
    name: b"status",
    tree: 13,
    columns: &[
        Whole(b"tenant"),
        Bytes(b"transfer"),
        Whole(b"state"),
        Whole(b"due"),
    ],
    key: None,
    primary: &[1, 2],
    uniques: &[KeyForm(&[1, 2])],
    checks: &[Length(2, 16)],
    tenant: Some(1),
};

const HISTORY: TableForm<'static> = TableForm {
    name: b"history",
    tree: 15,
    columns: &[
        Whole(b"tenant"),
        Bytes(b"account"),
        Whole(b"timestamp"),
        Bytes(b"dp"),
        Bytes(b"dd"),
        Bytes(b"cp"),
        Bytes(b"cc"),
    ],
    key: None,
    primary: &[1, 2, 3],
    uniques: &[KeyForm(&[1, 2, 3])],
    checks: &[
        Length(2, 16),
        Length(4, 16),
        Length(5, 16),
        Length(6, 16),
        Length(7, 16),
    ],
    tenant: Some(1),
};

const FAILED: TableForm<'static> = TableForm {
    name: b"failed",
    tree: 17,
    columns: &[Whole(b"tenant"), Bytes(b"id")],
    key: None,
    primary: &[1, 2],
    uniques: &[KeyForm(&[1, 2])],
    checks: &[Length(2, 16)],
    tenant: Some(1),
};

/// Those of the UNIQUEs, each by the tree of its table, directly behind it.
pub(crate) const INDEXES: [IndexForm<'static>; 9] = [
    IndexForm {
        name: b"sqlite_autoindex_tenant_1",
        tree: 2,
        table: 1,
        columns: &[2],
    },
    IndexForm {
        name: b"sqlite_autoindex_tenant_2",
        tree: 3,
        table: 1,
        columns: &[3],
    },
    IndexForm {
        name: b"sqlite_autoindex_account_1",
        tree: 6,
        table: 5,
        columns: &[1, 2],
    },
    IndexForm {
        name: b"sqlite_autoindex_account_2",
        tree: 7,
        table: 5,
        columns: &[1, 9],
    },
    IndexForm {
        name: b"sqlite_autoindex_transfer_1",
        tree: 9,
        table: 8,
        columns: &[1, 2],
    },
    IndexForm {
        name: b"sqlite_autoindex_transfer_2",
        tree: 10,
        table: 8,
        columns: &[1, 14],
    },
    IndexForm {
        name: b"sqlite_autoindex_balance_1",
        tree: 12,
        table: 11,
        columns: &[1, 2],
    },
    IndexForm {
        name: b"sqlite_autoindex_status_1",
        tree: 14,
        table: 13,
        columns: &[1, 2],
    },
    IndexForm {
        name: b"sqlite_autoindex_history_1",
        tree: 16,
        table: 15,
        columns: &[1, 2, 3],
    },
];
