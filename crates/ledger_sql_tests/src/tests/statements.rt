//! The statements that make a ledger's tables, in order, and what may be different in one of them.

pub static OURS: [&str; 9] = [
    "CREATE TABLE schema (one INTEGER PRIMARY KEY NOT NULL CHECK (one = 1), \
        version INTEGER NOT NULL) STRICT",
    "CREATE TABLE tenant (no INTEGER PRIMARY KEY NOT NULL, name TEXT NOT NULL UNIQUE, \
        digest BLOB NOT NULL UNIQUE CHECK (length(digest) = 32)) STRICT",
    "CREATE TABLE clock (tenant INTEGER PRIMARY KEY NOT NULL REFERENCES tenant (no), \
        clock INTEGER NOT NULL) STRICT",
    "CREATE TABLE account (tenant INTEGER NOT NULL REFERENCES tenant (no), \
        id BLOB NOT NULL CHECK (length(id) = 16), \
        user_data_128 BLOB NOT NULL CHECK (length(user_data_128) = 16), \
        user_data_64 BLOB NOT NULL CHECK (length(user_data_64) = 8), \
        user_data_32 INTEGER NOT NULL, ledger INTEGER NOT NULL, code INTEGER NOT NULL, \
        flags INTEGER NOT NULL, timestamp INTEGER NOT NULL, \
        PRIMARY KEY (tenant, id), UNIQUE (tenant, timestamp)) STRICT",
    "CREATE TABLE transfer (tenant INTEGER NOT NULL REFERENCES tenant (no), \
        id BLOB NOT NULL CHECK (length(id) = 16), \
        debit BLOB NOT NULL CHECK (length(debit) = 16), \
        credit BLOB NOT NULL CHECK (length(credit) = 16), \
        amount BLOB NOT NULL CHECK (length(amount) = 16), \
        pending_id BLOB NOT NULL CHECK (length(pending_id) = 16), \
        user_data_128 BLOB NOT NULL CHECK (length(user_data_128) = 16), \
        user_data_64 BLOB NOT NULL CHECK (length(user_data_64) = 8), \
        user_data_32 INTEGER NOT NULL, timeout INTEGER NOT NULL, ledger INTEGER NOT NULL, \
        code INTEGER NOT NULL, flags INTEGER NOT NULL, timestamp INTEGER NOT NULL, \
        at_clock INTEGER NOT NULL, \
        PRIMARY KEY (tenant, id), UNIQUE (tenant, timestamp)) STRICT",
    "CREATE TABLE balance (tenant INTEGER NOT NULL REFERENCES tenant (no), \
        account BLOB NOT NULL CHECK (length(account) = 16), \
        dp BLOB NOT NULL CHECK (length(dp) = 16), dd BLOB NOT NULL CHECK (length(dd) = 16), \
        cp BLOB NOT NULL CHECK (length(cp) = 16), cc BLOB NOT NULL CHECK (length(cc) = 16), \
        PRIMARY KEY (tenant, account)) STRICT",
    "CREATE TABLE status (tenant INTEGER NOT NULL REFERENCES tenant (no), \
        transfer BLOB NOT NULL CHECK (length(transfer) = 16), state INTEGER NOT NULL, \
        due INTEGER NOT NULL, PRIMARY KEY (tenant, transfer)) STRICT",
    "CREATE TABLE history (tenant INTEGER NOT NULL REFERENCES tenant (no), \
        account BLOB NOT NULL CHECK (length(account) = 16), timestamp INTEGER NOT NULL, \
        dp BLOB NOT NULL CHECK (length(dp) = 16), dd BLOB NOT NULL CHECK (length(dd) = 16), \
        cp BLOB NOT NULL CHECK (length(cp) = 16), cc BLOB NOT NULL CHECK (length(cc) = 16), \
        PRIMARY KEY (tenant, account, timestamp)) STRICT",
    "CREATE TABLE failed (tenant INTEGER NOT NULL REFERENCES tenant (no), \
        id BLOB NOT NULL CHECK (length(id) = 16), PRIMARY KEY (tenant, id)) STRICT",
];

/// What a change of one statement is, at which statement, and which text it puts for which.
pub const CHANGES: [(&str, usize, &str, &str); 22] = [
    ("a check left out", 0, " CHECK (one = 1)", ""),
    ("a check against another number", 0, "one = 1", "one = 2"),
    ("a check that is less strict", 0, "one = 1", "one >= 1"),
    (
        "a unique name left out",
        1,
        "TEXT NOT NULL UNIQUE",
        "TEXT NOT NULL",
    ),
    (
        "names that differ by more than case",
        1,
        "TEXT NOT NULL UNIQUE",
        "TEXT NOT NULL UNIQUE COLLATE NOCASE",
    ),
    (
        "numbers that are never used again",
        1,
        "PRIMARY KEY NOT NULL",
        "PRIMARY KEY AUTOINCREMENT NOT NULL",
    ),
    (
        "a name in another case",
        2,
        "clock INTEGER NOT NULL)",
        "Clock INTEGER NOT NULL)",
    ),
    ("a column of another type", 2, "clock INTEGER", "clock BLOB"),
    (
        "a column more",
        2,
        "clock INTEGER NOT NULL)",
        "clock INTEGER NOT NULL, note INTEGER NOT NULL)",
    ),
    (
        "a column that may be NULL",
        2,
        "clock INTEGER NOT NULL)",
        "clock INTEGER)",
    ),
    (
        "a default",
        2,
        "clock INTEGER NOT NULL)",
        "clock INTEGER NOT NULL DEFAULT 0)",
    ),
    ("a table that is not STRICT", 2, ") STRICT", ")"),
    ("no reference", 2, " REFERENCES tenant (no)", ""),
    (
        "a reference that deletes",
        2,
        "(no)",
        "(no) ON DELETE CASCADE",
    ),
    (
        "a reference tested at the commit",
        2,
        "(no)",
        "(no) DEFERRABLE INITIALLY DEFERRED",
    ),
    (
        "columns turned round",
        3,
        "ledger INTEGER NOT NULL, code INTEGER",
        "code INTEGER NOT NULL, ledger INTEGER",
    ),
    ("a key turned round", 3, "(tenant, id)", "(id, tenant)"),
    (
        "a unique key left out",
        3,
        ", UNIQUE (tenant, timestamp)",
        "",
    ),
    (
        "a unique key of another column",
        4,
        "UNIQUE (tenant, timestamp)",
        "UNIQUE (tenant, at_clock)",
    ),
    (
        "a length of another column",
        4,
        "length(debit)",
        "length(credit)",
    ),
    (
        "bytes of another length",
        5,
        "length(cc) = 16",
        "length(cc) = 8",
    ),
    (
        "a key that is no primary key",
        8,
        "PRIMARY KEY (tenant, id)",
        "UNIQUE (tenant, id)",
    ),
];
