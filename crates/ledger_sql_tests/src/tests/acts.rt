//! What a test does to the tables of a ledger, and what it finds in them, as data. An account or a
//! transfer is told by the fields in which one differs from another; `sample` has the others.

use records::PendingState;

/// A row that has a key: its tenant first, where a test has more than one.
#[derive(Drop)]
pub enum Row {
    /// Its number, its name, and the byte that its digest repeats.
    Tenant(i64, &'static str, u8),
    Clock(i64, u32),
    /// Its id, its timestamp and its code.
    Account(i64, u128, u32, u16),
    /// A pending transfer: its id and its timestamp.
    Pending(u128, u32),
    /// The post of transfer 100 at its whole amount.
    Post,
    /// Its account, and the sums in the order of the columns.
    Balance(i64, u128, [u32; 4]),
    /// Its transfer, the state, and the timestamp of the transfer.
    Status(u128, PendingState, u32),
    Failed(i64, u128),
}

#[derive(Drop)]
pub enum Stage {
    Begin,
    Commit,
    Rollback,
    Abandon,
    Mark,
    BackToMark,
    ReleaseMark,
}

/// The tables that one call makes.
#[derive(Drop)]
pub enum Made {
    AllTables,
    SchemaTable,
    TenantTable,
    ClockTable,
    AccountTable,
    TransferTable,
    BalanceTables,
}

/// What a row becomes.
#[derive(Drop)]
pub enum Change {
    NewVersion,
    NewClock(i64, u32),
    NewBalance(u128, [u32; 4]),
    NewStatus(u128, PendingState, u32),
}

/// What an upgrade to the balance schema writes.
#[derive(Drop)]
pub enum Filled {
    BalanceCells(u128, [u32; 4]),
    StatusCells(u128, PendingState, u32),
    HistoryCells(u128, u32, u32),
    BalanceVersion,
}

/// A call that writes.
#[derive(Drop)]
pub enum Call {
    Take(Stage),
    Make(Made),
    AddVersion,
    Add(Row),
    /// Two rows at a time: the account that is debited, the one that is credited, and the amount.
    AddHistory(u32, u128, u128, u32),
    Set(Change),
    Fill(Filled),
}

/// What is read whole: what says what a file holds, or the rows of the tenant with this number.
pub enum Table {
    Versions,
    Directory,
    Clocks(i64),
    Accounts(i64),
    Transfers(i64),
    Balances(i64),
    Statuses(i64),
    Histories(i64),
    FailedIds(i64),
}

/// Which entries of an account are asked for, and in which order.
pub enum Asked {
    /// Those from a time on, oldest first.
    From(u128, i64),
    /// Those up to a time, newest first.
    Until(u128, i64),
}

/// Which rows of a tenant are asked for: the first and the last time, and how many at most.
#[derive(Clone, Copy)]
pub struct Spanned(pub i64, pub (i64, i64), pub u32);

/// The ids and times of the rows that are found, in order.
#[derive(Clone, Copy)]
pub enum Times {
    OldestAccounts(&'static [(u128, u32)]),
    NewestAccounts(&'static [(u128, u32)]),
    OldestTransfers(&'static [(u128, u32)]),
    NewestTransfers(&'static [(u128, u32)]),
}

/// Times of entries, each with the last byte of its transfer's id.
pub type Told = &'static [(i64, u8)];

pub enum Act {
    /// Each call succeeds.
    Does(&'static [Call]),
    /// Each call is refused.
    Refuses(&'static [Call]),
    /// Each row is found by its key.
    Finds(&'static [Row]),
    /// No row with such a key is found.
    Lacks(&'static [Row]),
    /// A tenant's number is found by its name, and its name by that.
    Names(&'static [(&'static str, Option<i64>)]),
    /// Each text of SQL answers a number.
    Counts(&'static [(&'static str, i64)]),
    /// All these rows, in this order: the last byte of each one's key.
    Lists(Table, &'static [u8]),
    /// The cells of the base's account 3, when all accounts of its tenant are read.
    ListsCells,
    /// All entries that are asked for.
    Entries(Asked, Told),
    /// The times of the first two.
    FirstTwo(Asked, (Option<i64>, Option<i64>)),
    /// The times of the first entries, so many at most.
    Page(Asked, u32, &'static [i64]),
    /// The accounts or transfers in a span of time.
    Span(Spanned, Times),
    /// Whether the store is told to be open, as it is not inside a transaction.
    IsOpen(bool),
    /// Adds so many rows to each table of tenant 1.
    AddMany(u16),
    /// From here on no text takes more steps.
    LimitSteps(u64),
    /// A text of SQL is refused.
    Fails(&'static str),
}
