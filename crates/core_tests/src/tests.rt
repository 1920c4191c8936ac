//! Amounts, who a tenant is, records, the decision on one event, rows of a file, their replay and
//! their audit, and batches and reads over a book in memory.
//! What is expected is of `docs/MODEL.md` and of the standards that a test names.

mod amounts;
mod asserting;
mod audits;
mod books;
mod cells;
mod decisions;
mod ledger_records;
mod replays;
mod seals;
mod stored_rows;
mod tenant_identity;
