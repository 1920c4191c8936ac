//! An account's entries within a span of time, in its batch.

ghost use Rattle.std.specs.Prelude.{◌≡◌, take, false};
ghost use Rattle.chain.specs.AccountEntries.{account_entries_within};
ghost use Rattle.sqlite.specs.State.{HasCleanDisk};
ghost use Rattle.ledger_sql.specs.Calls.{LeavesRead};
ghost use Rattle.stored_tables.specs.Handing.{HandsAccount, entries_behind};
ghost use Rattle.stored_tables.specs.Idle.{HoldsTenant, LearnsOf, machine_at};

use crate::batch::TenantNumber;
use crate::bounds::span_begin;
use crate::entries_within::EntriesWithin;
use amount::columns_keep_order;
use chain::AccountEntry;
use ledger_sql::EntrySink;
use ledger_tables::LedgerTables;
use records::{Order, Span, Unavailable};
use rows::{read_in_order, rows_fit, rows_stand_in_order};
use sqlite::Row;
use std::alloc::Global;

/// An account's entries within a span of time, in its order, at most so many, each with the
/// account's balances after it.
pub(crate) fn account_entries<T: LedgerTables>(
    alloc: Global,
    tables: &mut T,
    tenant: TenantNumber,
    account: u128,
    span: &Span,
) -> Result<Vec<AccountEntry>, Unavailable>
    ensures { LearnsOf tenant.0 (λ m found. found.items ≡ account_entries_within m account span.now)
        (T.state tables.old) (T.state tables.new) result }
{
    columns_keep_order();
    rows_fit();
    rows_stand_in_order();
    let mut taken = EntriesWithin::new(alloc, *span);
    let begin = span_begin(span);
    let most = span.most;
    first_entries(tables, tenant, account, span.order, begin, most, &mut taken)?;
    taken.finish()
}

/// Hands the first entries behind a bound, so many at most, to a sink until it is full.
fn first_entries<T: LedgerTables, K: EntrySink>(
    tables: &mut T,
    tenant: TenantNumber,
    account: u128,
    order: Order,
    bound: i64,
    count: u32,
    sink: &mut K,
) -> Result<(), Unavailable>
    requires { K.is_full sink.old ≡ false }
    ensures handed { HandsAccount K.takes K.is_full
        (HasCleanDisk (T.state tables.new) × HoldsTenant tenant.0 (T.state tables.old)) account
        (take count (entries_behind (machine_at tenant.0 (T.state tables.old)) account
        order bound)) sink.old sink.new result }
    ensures reads { LeavesRead (T.state tables.old) (T.state tables.new) result }
{
    columns_keep_order();
    rows_fit();
    rows_stand_in_order();
    read_in_order::<Row>();
    match order {
        Order::Oldest => tables.first_entries_from(tenant.0, account, bound, count, sink),
        Order::Newest => tables.first_entries_until(tenant.0, account, bound, count, sink),
    }
}
