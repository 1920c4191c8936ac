//! A tenant's accounts and transfers in a span of time, in its batch.

ghost use Rattle.std.specs.Prelude.{◌≡◌};
ghost use Rattle.records.specs.Queries.{accounts_within, transfers_within};
ghost use Rattle.ledger_tables.specs.Calls.{IfHonest};
ghost use Rattle.stored_tables.specs.Idle.{HasOpenStore, LearnsOf};

use crate::batch::TenantNumber;
use crate::bounds::{span_first, span_last};
use ledger_tables::LedgerTables;
use records::{Account, Order, Span, Transfer, Unavailable};
use rows::{read_in_order, rows_fit, rows_stand_in_order};
use std::alloc::Global;

/// The accounts in a span of time, in its order, at most so many.
pub(crate) fn accounts<T: LedgerTables>(
    alloc: Global,
    tables: &mut T,
    tenant: TenantNumber,
    span: &Span,
) -> Result<Vec<Account>, Unavailable>
    requires { IfHonest HasOpenStore (T.state tables.old) }
    ensures { LearnsOf tenant.0 (λ m found. found.items ≡ accounts_within m span.now)
        (T.state tables.old) (T.state tables.new) result }
{
    rows_fit();
    rows_stand_in_order();
    read_in_order::<Account>();
    let Some(first) = span_first(span) else {
        return Ok(Vec::new(alloc));
    };
    let last = span_last(span);
    match span.order {
        Order::Oldest => tables.oldest_accounts(alloc, tenant.0, first, last, span.most),
        Order::Newest => tables.newest_accounts(alloc, tenant.0, first, last, span.most),
    }
}

/// The transfers in a span of time, in its order, at most so many.
pub(crate) fn transfers<T: LedgerTables>(
    alloc: Global,
    tables: &mut T,
    tenant: TenantNumber,
    span: &Span,
) -> Result<Vec<Transfer>, Unavailable>
    requires { IfHonest HasOpenStore (T.state tables.old) }
    ensures { LearnsOf tenant.0 (λ m found. found.items ≡ transfers_within m span.now)
        (T.state tables.old) (T.state tables.new) result }
{
    rows_fit();
    rows_stand_in_order();
    read_in_order::<Transfer>();
    let Some(first) = span_first(span) else {
        return Ok(Vec::new(alloc));
    };
    let last = span_last(span);
    match span.order {
        Order::Oldest => tables.oldest_transfers(alloc, tenant.0, first, last, span.most),
        Order::Newest => tables.newest_transfers(alloc, tenant.0, first, last, span.most),
    }
}
