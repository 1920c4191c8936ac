//! Accounts, transfers and events of a double-entry ledger, the results that an event can have, and
//! the plain machine that says what each of them means (`specs/`).
#![tactic(auto)]

mod accepted;
mod account;
mod account_checks;
mod account_flags;
mod account_result;
mod balances;
mod drain;
mod facts;
mod filter;
mod hold;
mod limits;
mod query;
mod reply;
mod row_sink;
mod side;
mod source;
mod statement_row;
mod streamed;
mod text_at;
mod transfer;
mod transfer_checks;
mod transfer_flags;
mod transfer_result;
mod unavailable;
mod width;

pub use accepted::{Accepted, Ending};
pub use account::{Account, AccountEvent};
pub use account_checks::{account_fields, compare_account};
pub use account_flags::AccountFlags;
pub use account_result::AccountResult;
pub use balances::{BalanceAt, Balances, Sums};
pub use drain::{Drain, put_all};
pub use facts::{
    AccountWithBalances, ExistingTransfer, PendingState, PendingTransfer, TransferFacts,
};
pub use filter::{AccountFilter, FilterFlags, Order};
pub use hold::Hold;
pub use limits::{MAX_CLOCK, MOST_AT_ONCE, SECOND};
pub use query::{MOST_LOOKED_AT, PageFilter, PageFlags, QueryFilter, Span, Tags};
pub use reply::{BatchReply, EventResult, Refusal};
pub use row_sink::{RowSink, SinkFault};
pub use side::Side;
pub use source::{Failed, Source};
pub use statement_row::{Kind, StatementRow};
pub use streamed::Streamed;
pub use transfer::{Transfer, TransferEvent};
pub use transfer_checks::{compare_transfer, transfer_fields};
pub use transfer_flags::TransferFlags;
pub use transfer_result::TransferResult;
pub use unavailable::Unavailable;
