ghost use Rattle.std.specs.Prelude.{◌≡◌};
ghost use Rattle.records.specs.declared.side.Side.TheVariants.{Debit, Credit};
ghost use Rattle.records.specs.Accepted.{ending_of};
ghost use Rattle.records.specs.StoredRecord.{given_or, stored_transfer};
ghost use Rattle.records.specs.Widths.{IsTransferInWidth};
ghost use Rattle.engine.specs.Inherited.{inherited_record};
ghost use Rattle.engine.specs.Decision.{IsAfter};

use crate::after::balances_after;
use crate::amounts::actual_amount;
use records::{Accepted, Balances, Ending, Side, Transfer, TransferEvent, TransferFacts};

// What an event leaves if it is accepted. An account that is not among the facts has no balances.
pub(crate) fn accept(facts: &TransferFacts, ev: &TransferEvent, timestamp: u64, at: u64) -> Accepted
    ensures stored { result.stored ≡ stored_transfer facts.now ev.now timestamp at }
    ensures ends { result.ends ≡ ending_of result.stored }
    ensures widths { IsTransferInWidth result.stored }
    ensures debit { IsAfter Debit facts.now result }
    ensures credit { IsAfter Credit facts.now result }
{
    let stored = stored_transfer(facts, ev, timestamp, at);
    stored.widths();
    let debit = facts.debit.map_or(Balances::ZERO, |found| found.balances);
    let credit = facts.credit.map_or(Balances::ZERO, |found| found.balances);
    Accepted {
        stored,
        debit_after: balances_after(Side::Debit, &debit, &facts.pending, &stored),
        credit_after: balances_after(Side::Credit, &credit, &facts.pending, &stored),
        ends: ending_of(&stored),
    }
}

// The record of the event, in which a post or void has what it left 0 from its pending transfer.
fn stored_transfer(facts: &TransferFacts, ev: &TransferEvent, timestamp: u64, at: u64) -> Transfer
    ensures { result ≡ stored_transfer facts.now ev.now timestamp at }
{
    let given = Transfer {
        id: ev.id,
        debit_account_id: ev.debit_account_id,
        credit_account_id: ev.credit_account_id,
        amount: actual_amount(facts, ev),
        pending_id: ev.pending_id,
        user_data_128: ev.user_data_128,
        user_data_64: ev.user_data_64,
        user_data_32: ev.user_data_32,
        timeout: ev.timeout,
        ledger: ev.ledger,
        code: ev.code,
        flags: ev.flags,
        timestamp,
        at,
    };
    match &facts.pending {
        Some(pending) if ev.flags.is_post_or_void() => inherited_record(pending.transfer, given),
        _ => given,
    }
}

fn inherited_record(pending: Transfer, given: Transfer) -> Transfer
    ensures { result ≡ inherited_record pending given }
{
    Transfer {
        debit_account_id: given_or(pending.debit_account_id, given.debit_account_id),
        credit_account_id: given_or(pending.credit_account_id, given.credit_account_id),
        user_data_128: given_or(pending.user_data_128, given.user_data_128),
        user_data_64: given_or(pending.user_data_64.into(), given.user_data_64.into()) as u64,
        user_data_32: given_or(pending.user_data_32.into(), given.user_data_32.into()) as u32,
        ledger: given_or(pending.ledger.into(), given.ledger.into()) as u32,
        code: given_or(pending.code.into(), given.code.into()) as u16,
        ..given
    }
}

// What is given, or where it is 0 what the pending transfer has.
fn given_or(inherited: u128, given: u128) -> u128
    ensures { result ≡ given_or inherited given }
{
    if given == 0 { inherited } else { given }
}

// How the record ends a pending transfer, if it is a post or void.
fn ending_of(stored: &Transfer) -> Option<Ending>
    ensures { result ≡ ending_of stored.now }
{
    if stored.flags.is_post() {
        Some(Ending::Posted(stored.pending_id))
    } else if stored.flags.is_void() {
        Some(Ending::Voided(stored.pending_id))
    } else {
        None
    }
}
