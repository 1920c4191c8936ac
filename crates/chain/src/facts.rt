ghost use Rattle.std.specs.Prelude.{◌≡◌};
ghost use Rattle.std.specs.Option.{option_map, option_and_then};
ghost use Rattle.records.specs.Machine.{transfer_with};
ghost use Rattle.records.specs.Facts.{facts_of, with_pending_amount, pending_amount_in};
ghost use Rattle.records.specs.Facts.{pending_transfer_in, account_in};
ghost use Rattle.chain.specs.Tables.{LooksUp};

use crate::Tables;
use amount::Amount;
use records::{
    AccountWithBalances, ExistingTransfer, PendingTransfer, Side, Transfer, TransferEvent,
    TransferFacts, Unavailable,
};

/// All that the verdict on a transfer event depends on. Nothing changes.
///
/// After `Unavailable` the batch is over, and all is as at its beginning.
#[tactic(auto, unfolding(records::specs::Facts::facts_of))]
pub fn transfer_facts<T: Tables>(
    tables: &mut T,
    ev: &TransferEvent,
) -> Result<TransferFacts, Unavailable>
    requires { T.means.is_usable tables.old }
    ensures { LooksUp T.means (λ m found. found ≡ facts_of m ev.now) tables.old tables.new result }
{
    let existing = existing_transfer(tables, ev.id)?;
    let failed = tables.failed(ev.id)?;
    let pending = pending_transfer(tables, ev)?;
    let debit = account_of(tables, ev.account_id(Side::Debit, &pending))?;
    let credit = account_of(tables, ev.account_id(Side::Credit, &pending))?;
    Ok(TransferFacts {
        existing,
        failed,
        pending,
        debit,
        credit,
    })
}

// The transfer with this id, with the amount of the pending transfer that it names.
fn existing_transfer<T: Tables>(
    tables: &mut T,
    id: u128,
) -> Result<Option<ExistingTransfer>, Unavailable>
    requires { T.means.is_usable tables.old }
    ensures { LooksUp T.means
        (λ m found. found ≡ option_map (with_pending_amount m) (transfer_with id m.transfers))
        tables.old tables.new result }
{
    let Some(transfer) = tables.transfer(id)? else {
        return Ok(None);
    };
    let pending_amount = pending_amount(tables, &transfer)?;
    Ok(Some(ExistingTransfer {
        transfer,
        pending_amount,
    }))
}

// The amount of the pending transfer that a post or void ended, else its own.
fn pending_amount<T: Tables>(tables: &mut T, transfer: &Transfer) -> Result<Amount, Unavailable>
    requires { T.means.is_usable tables.old }
    ensures { LooksUp T.means (λ m found. found ≡ pending_amount_in m transfer.now)
        tables.old tables.new result }
{
    if !transfer.flags.is_post_or_void() {
        return Ok(transfer.amount);
    }
    Ok(match tables.transfer(transfer.pending_id)? {
        Some(pending) => pending.amount,
        None => transfer.amount,
    })
}

// The transfer that a post or void names.
fn pending_transfer<T: Tables>(
    tables: &mut T,
    ev: &TransferEvent,
) -> Result<Option<PendingTransfer>, Unavailable>
    requires { T.means.is_usable tables.old }
    ensures { LooksUp T.means (λ m found. found ≡ pending_transfer_in m ev.now)
        tables.old tables.new result }
{
    if !ev.flags.is_post_or_void() {
        return Ok(None);
    }
    let Some(transfer) = tables.transfer(ev.pending_id)? else {
        return Ok(None);
    };
    let state = tables.pending_state(ev.pending_id)?;
    Ok(Some(PendingTransfer { transfer, state }))
}

fn account_of<T: Tables>(
    tables: &mut T,
    id: Option<u128>,
) -> Result<Option<AccountWithBalances>, Unavailable>
    requires { T.means.is_usable tables.old }
    ensures { LooksUp T.means (λ m found. found ≡ option_and_then (account_in m) id)
        tables.old tables.new result }
{
    match id {
        Some(id) => tables.account(id),
        None => Ok(None),
    }
}
