//! The entries of a piece of a statement, as a body.
ghost use Rattle.std.specs.Prelude.{◌≡◌, IfOk, map};
ghost use Rattle.serde_json.specs.View.{items_view, view};
ghost use Rattle.serde_json.specs.Written.{compact_text};
ghost use Rattle.wire.specs.Reply.{member_of};
ghost use Rattle.command_texts.specs.Answered.{TellsIfAvailable};
ghost use Rattle.control.specs.Entries.{balances_in, entry_in, sums_in, transfer_in};
ghost use Rattle.control.specs.Entries.{AreEntriesTold, entries_data, entries_of, entry_data, entry_members};

use crate::numbers::{number_16_at, number_32_at, number_64_at, number_at};
use crate::reading::value_in;
use amount::Amount;
use chain::AccountEntry;
use command_texts::Fault;
use json::Writer;
use records::{Balances, Sums, Transfer, TransferFlags};
use serde_json::Value;
use std::alloc::{AllocError, Global};
use wire::{Form, Member, list_text, write_object};

/// Entries of an account, and its tenant's clock when they were read, in nanoseconds.
#[derive(Drop)]
pub struct Entries {
    pub clock: u64,
    pub entries: Vec<AccountEntry>,
}

/// An entry with the account's balances after it, each number as a text.
struct Told;

impl Form<AccountEntry> for Told {
    ghost shows = { entry_data };

    fn write(entry: &AccountEntry, writer: &mut Writer) -> Result<(), AllocError> {
        write_object(writer, members_of(entry).as_slice())
    }
}

// All that an entry has.
fn members_of(entry: &AccountEntry) -> [Member<'static>; 18]
    ensures { map member_of result ≡ entry_members entry.now }
{
    let AccountEntry { transfer, balances } = entry;
    [
        Member::u128("id", transfer.id),
        Member::u128("debit_account_id", transfer.debit_account_id),
        Member::u128("credit_account_id", transfer.credit_account_id),
        Member::u128("amount", transfer.amount.value()),
        Member::u128("pending_id", transfer.pending_id),
        Member::u128("user_data_128", transfer.user_data_128),
        Member::u64("user_data_64", transfer.user_data_64),
        Member::u64("user_data_32", u64::from(transfer.user_data_32)),
        Member::u64("timeout", u64::from(transfer.timeout)),
        Member::u64("ledger", u64::from(transfer.ledger)),
        Member::u64("code", u64::from(transfer.code)),
        Member::u64("flags", u64::from(transfer.flags.0)),
        Member::u64("timestamp", transfer.timestamp),
        Member::u64("at", transfer.at),
        Member::u128("debits_pending", balances.debits.pending.value()),
        Member::u128("debits_posted", balances.debits.posted.value()),
        Member::u128("credits_pending", balances.credits.pending.value()),
        Member::u128("credits_posted", balances.credits.posted.value()),
    ]
}

/// The body that tells entries, and the clock at which they were read.
pub fn entries_body(
    alloc: Global,
    clock: u64,
    entries: &[AccountEntry],
) -> Result<Vec<u8>, AllocError>
    ensures { IfOk result (λ body. body.items ≡ compact_text (entries_data clock entries.now)) }
{
    let clock = [Member::u64("clock", clock)];
    list_text::<_, Told>(alloc, &clock, "entries", entries, &[])
}

// The transfer that an object tells.
#[tactic(auto, unfolding(crate::specs::Entries::transfer_in))]
fn transfer_in(value: &Value) -> Option<Transfer>
    ensures { result ≡ transfer_in (view value.now) }
{
    Some(Transfer {
        id: number_at(value, "id")?,
        debit_account_id: number_at(value, "debit_account_id")?,
        credit_account_id: number_at(value, "credit_account_id")?,
        amount: Amount::new(number_at(value, "amount")?),
        pending_id: number_at(value, "pending_id")?,
        user_data_128: number_at(value, "user_data_128")?,
        user_data_64: number_64_at(value, "user_data_64")?,
        user_data_32: number_32_at(value, "user_data_32")?,
        timeout: number_32_at(value, "timeout")?,
        ledger: number_32_at(value, "ledger")?,
        code: number_16_at(value, "code")?,
        flags: TransferFlags(number_16_at(value, "flags")?),
        timestamp: number_64_at(value, "timestamp")?,
        at: number_64_at(value, "at")?,
    })
}

// The sums that two of its members tell.
#[tactic(auto, unfolding(crate::specs::Entries::sums_in))]
fn sums_in(value: &Value, pending: &str, posted: &str) -> Option<Sums>
    ensures { result ≡ sums_in pending.now posted.now (view value.now) }
{
    Some(Sums {
        pending: Amount::new(number_at(value, pending)?),
        posted: Amount::new(number_at(value, posted)?),
    })
}

// The balances that it tells.
fn balances_in(value: &Value) -> Option<Balances>
    ensures { result ≡ balances_in (view value.now) }
{
    Some(Balances {
        debits: sums_in(value, "debits_pending", "debits_posted")?,
        credits: sums_in(value, "credits_pending", "credits_posted")?,
    })
}

fn entry_in(value: &Value) -> Option<AccountEntry>
    ensures { result ≡ entry_in (view value.now) }
{
    Some(AccountEntry {
        transfer: transfer_in(value)?,
        balances: balances_in(value)?,
    })
}

// The entries of a list.
fn entries_of(alloc: Global, rows: &[Value]) -> Result<Vec<AccountEntry>, Fault>
    ensures { TellsIfAvailable result (λ entries.
        entries_of (items_view rows.now) ≡ Some entries.items) }
{
    let mut entries = Vec::new(alloc);
    for row in rows {
        let entry = entry_in(row).ok_or(Fault::Unavailable)?;
        if entries.push(entry).is_err() {
            return Err(Fault::Unavailable);
        }
    }
    Ok(entries)
}

/// The entries that a body tells, and the clock. Where it tells none it is `Unavailable`.
pub fn entries_in(alloc: Global, body: &[u8]) -> Result<Entries, Fault>
    ensures { TellsIfAvailable result (AreEntriesTold body.now) }
{
    let value = value_in(alloc, body)?.ok_or(Fault::Unavailable)?;
    let clock = number_64_at(&value, "clock").ok_or(Fault::Unavailable)?;
    match value.get("entries").and_then(Value::as_array) {
        Some(rows) => Ok(Entries {
            clock,
            entries: entries_of(alloc, rows.as_slice())?,
        }),
        None => Err(Fault::Unavailable),
    }
}
