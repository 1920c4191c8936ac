ghost use Rattle.std.specs.Prelude.{◌≡◌, map};
ghost use Rattle.serde_json.specs.Data.{Data};
ghost use Rattle.wire.specs.Reply.{account_data, account_members, balance_data, balance_members};
ghost use Rattle.wire.specs.Reply.{hold_data, member_of, result_data, result_members};
ghost use Rattle.wire.specs.Reply.{state_name, timed_hold_data};
ghost use Rattle.wire.specs.Reply.{transfer_data, transfer_members};
ghost use Rattle.wire.specs.Writing.{AddsData};

use crate::members::{Member, write_object};
use crate::reply_result::ReplyResult;
use json::Writer;
use records::{AccountWithBalances, BalanceAt, EventResult, Hold, PendingState, Transfer};
use std::alloc::AllocError;

/// What a reply's list shows as an object.
pub trait Shown {
    ghost shows: { Self → Data };

    fn write(&self, writer: &mut Writer) -> Result<(), AllocError>
        ensures { AddsData (shows self.now) writer.old writer.new result };
}

/// A form in which a reply's list shows values as objects.
pub trait Form<T> {
    ghost shows: { T → Data };

    fn write(value: &T, writer: &mut Writer) -> Result<(), AllocError>
        ensures { AddsData (shows value.now) writer.old writer.new result };
}

/// Values as they show themselves.
pub struct Plain;

impl<S: Shown> Form<S> for Plain {
    ghost shows = { S.shows };

    fn write(value: &S, writer: &mut Writer) -> Result<(), AllocError> {
        value.write(writer)
    }
}

/// Holds with the time at which they were accepted, by which a page of them goes.
pub(crate) struct Timed;

impl Form<Hold> for Timed {
    ghost shows = { timed_hold_data };

    fn write(hold: &Hold, writer: &mut Writer) -> Result<(), AllocError> {
        let members = [
            Member::u64("due", hold.due),
            Member::u128("id", hold.id),
            Member::text("state", state_name(hold.state)),
            Member::u64("timestamp", hold.timestamp),
        ];
        write_object(writer, &members)
    }
}

impl<R: ReplyResult> Shown for EventResult<R> {
    ghost shows = { result_data (λ r. (R.told_of r).0) (λ r. (R.told_of r).1) };

    fn write(&self, writer: &mut Writer) -> Result<(), AllocError> {
        write_object(writer, result_members(self).as_slice())
    }
}

fn result_members<R: ReplyResult>(event: &EventResult<R>) -> [Member<'static>; 3]
    ensures { map member_of result
        ≡ result_members (λ r. (R.told_of r).0) (λ r. (R.told_of r).1) event.now }
{
    let (number, name) = event.result.told();
    [
        Member::whole("number", u32::from(number)),
        Member::text("result", name),
        Member::u64("timestamp", event.timestamp),
    ]
}

impl Shown for AccountWithBalances {
    ghost shows = { account_data };

    fn write(&self, writer: &mut Writer) -> Result<(), AllocError> {
        write_object(writer, account_members(self).as_slice())
    }
}

fn account_members(found: &AccountWithBalances) -> [Member<'static>; 12]
    ensures { map member_of result ≡ account_members found.now }
{
    let AccountWithBalances { account, balances } = found;
    [
        Member::whole("code", u32::from(account.code)),
        Member::u128("credits_pending", balances.credits.pending.value()),
        Member::u128("credits_posted", balances.credits.posted.value()),
        Member::u128("debits_pending", balances.debits.pending.value()),
        Member::u128("debits_posted", balances.debits.posted.value()),
        Member::whole("flags", u32::from(account.flags.0)),
        Member::u128("id", account.id),
        Member::whole("ledger", account.ledger),
        Member::u64("timestamp", account.timestamp),
        Member::u128("user_data_128", account.user_data_128),
        Member::whole("user_data_32", account.user_data_32),
        Member::u64("user_data_64", account.user_data_64),
    ]
}

impl Shown for Transfer {
    ghost shows = { transfer_data };

    fn write(&self, writer: &mut Writer) -> Result<(), AllocError> {
        write_object(writer, transfer_members(self).as_slice())
    }
}

fn transfer_members(entry: &Transfer) -> [Member<'static>; 13]
    ensures { map member_of result ≡ transfer_members entry.now }
{
    [
        Member::u128("amount", entry.amount.value()),
        Member::whole("code", u32::from(entry.code)),
        Member::u128("credit_account_id", entry.credit_account_id),
        Member::u128("debit_account_id", entry.debit_account_id),
        Member::whole("flags", u32::from(entry.flags.0)),
        Member::u128("id", entry.id),
        Member::whole("ledger", entry.ledger),
        Member::u128("pending_id", entry.pending_id),
        Member::whole("timeout", entry.timeout),
        Member::u64("timestamp", entry.timestamp),
        Member::u128("user_data_128", entry.user_data_128),
        Member::whole("user_data_32", entry.user_data_32),
        Member::u64("user_data_64", entry.user_data_64),
    ]
}

impl Shown for BalanceAt {
    ghost shows = { balance_data };

    fn write(&self, writer: &mut Writer) -> Result<(), AllocError> {
        write_object(writer, balance_members(self).as_slice())
    }
}

fn balance_members(row: &BalanceAt) -> [Member<'static>; 5]
    ensures { map member_of result ≡ balance_members row.now }
{
    [
        Member::u128("credits_pending", row.balances.credits.pending.value()),
        Member::u128("credits_posted", row.balances.credits.posted.value()),
        Member::u128("debits_pending", row.balances.debits.pending.value()),
        Member::u128("debits_posted", row.balances.debits.posted.value()),
        Member::u64("timestamp", row.timestamp),
    ]
}

impl Shown for Hold {
    ghost shows = { hold_data };

    fn write(&self, writer: &mut Writer) -> Result<(), AllocError> {
        let members = [
            Member::u64("due", self.due),
            Member::u128("id", self.id),
            Member::text("state", state_name(self.state)),
        ];
        write_object(writer, &members)
    }
}

fn state_name(state: PendingState) -> &'static str
    ensures { result.now ≡ state_name state }
{
    match state {
        PendingState::Open => "open",
        PendingState::Posted => "posted",
        PendingState::Voided => "voided",
        PendingState::Expired => "expired",
    }
}
