ghost use Rattle.std.specs.Prelude.{◌≡◌, ◌-◌};
ghost use Rattle.records.specs.ActualAmount.{room_on, lowered_amount, amount_balanced};
ghost use Rattle.records.specs.ActualAmount.{amount_ended, actual_amount};
ghost use Rattle.engine.specs.After.{capped_sum, sums_without};

use amount::Amount;
use records::{AccountWithBalances, Balances, Side, Sums, TransferEvent, TransferFacts};

// The amount that is stored if the event is accepted.
pub(crate) fn actual_amount(facts: &TransferFacts, ev: &TransferEvent) -> Amount
    ensures { result ≡ actual_amount facts.now ev.now }
{
    if ev.flags.is_post_or_void() {
        return facts.pending.map_or(ev.amount, |pending| {
            amount_ended(pending.transfer.amount, ev)
        });
    }
    match (&facts.debit, &facts.credit) {
        (Some(debit), Some(credit)) => amount_balanced(debit, credit, ev),
        _ => ev.amount,
    }
}

// What a post or void moves of a pending amount: a void takes it back whole.
fn amount_ended(pending: Amount, ev: &TransferEvent) -> Amount
    ensures { result ≡ amount_ended pending ev.now }
{
    if ev.flags.is_void() {
        pending
    } else {
        ev.amount_asked(pending)
    }
}

// The event's amount, lowered to the room of the accounts that its balancing flags name.
pub(crate) fn amount_balanced(
    debit: &AccountWithBalances,
    credit: &AccountWithBalances,
    ev: &TransferEvent,
) -> Amount
    ensures { result ≡ amount_balanced debit.now credit.now ev.now }
{
    let lowered = lowered_amount(Side::Debit, debit, ev, ev.amount);
    lowered_amount(Side::Credit, credit, ev, lowered)
}

fn lowered_amount(
    side: Side,
    account: &AccountWithBalances,
    ev: &TransferEvent,
    amount: Amount,
) -> Amount
    ensures { result ≡ lowered_amount side account.now ev.now amount }
{
    if ev.flags.is_balancing_on(side) {
        amount.least(room_on(side, &account.balances))
    } else {
        amount
    }
}

// How much more a side takes before it exceeds the posted sum of the other: in two steps, since its
// pending and posted sums together may be no amount.
fn room_on(side: Side, balances: &Balances) -> Amount
    ensures { result ≡ room_on side balances.now }
{
    let sums = balances.sums_on(side);
    let limit = balances.sums_on(side.other()).posted;
    difference(difference(limit, sums.pending), sums.posted)
}

// A sum with an amount, or the greatest amount.
pub(crate) fn capped_sum(sum: Amount, amount: Amount) -> Amount
    ensures { result ≡ capped_sum sum amount }
{
    sum.checked_add(amount).unwrap_or(Amount::MAX)
}

// The sums of a side without a pending amount.
pub(crate) fn sums_without(sums: Sums, amount: Amount) -> Sums
    ensures { result ≡ sums_without sums amount }
{
    Sums {
        pending: difference(sums.pending, amount),
        ..sums
    }
}

// What is left of a sum, or nothing.
fn difference(sum: Amount, amount: Amount) -> Amount
    ensures { result ≡ sum - amount }
{
    sum.checked_sub(amount).unwrap_or(Amount::ZERO)
}
