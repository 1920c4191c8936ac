//! Worked ledgers with cells changed at random, looked at in two ways.

use super::dice::Dice;
use super::found;
use super::plain_audit::plain_find;
use super::worked_rows::{Sample, expired, posted_in_part, tenant};
use crate::tests::asserting::same;
use crate::tests::cells::column;
use std::alloc::AllocError;

fn change(sample: &mut Sample, dice: &mut Dice) {
    match dice.roll(6) {
        0 => sample.clock = Some(dice.cell()),
        1 => change_account(sample, dice),
        2 => change_transfer(sample, dice),
        3 => change_balance(sample, dice),
        4 => change_history(sample, dice),
        _ => change_status(sample, dice),
    }
}

fn change_account(sample: &mut Sample, dice: &mut Dice) {
    let account = &mut sample.accounts[dice.roll(4)];
    match dice.roll(6) {
        0 => account.id = column(dice.number()),
        1 => account.user_data_32 = dice.cell(),
        2 => account.ledger = dice.cell(),
        3 => account.code = dice.cell(),
        4 => account.flags = dice.cell(),
        _ => account.timestamp = dice.cell(),
    }
}

fn change_transfer(sample: &mut Sample, dice: &mut Dice) {
    let transfer = &mut sample.transfers[dice.roll(2)];
    match dice.roll(10) {
        0 => transfer.id = column(dice.number()),
        1 => transfer.debit = column(dice.number()),
        2 => transfer.credit = column(dice.number()),
        3 => transfer.amount = column(dice.number()),
        4 => transfer.pending_id = column(dice.number()),
        5 => transfer.timeout = dice.cell(),
        6 => transfer.ledger = dice.cell(),
        7 => transfer.flags = dice.cell(),
        8 => transfer.timestamp = dice.cell(),
        _ => transfer.at_clock = dice.cell(),
    }
}

fn change_balance(sample: &mut Sample, dice: &mut Dice) {
    let balance = &mut sample.balances[dice.roll(4)];
    match dice.roll(5) {
        0 => balance.account = column(dice.number()),
        1 => balance.dp = column(dice.number()),
        2 => balance.dd = column(dice.number()),
        3 => balance.cp = column(dice.number()),
        _ => balance.cc = column(dice.number()),
    }
}

fn change_history(sample: &mut Sample, dice: &mut Dice) {
    let history = &mut sample.history[dice.roll(4)];
    match dice.roll(6) {
        0 => history.account = column(dice.number()),
        1 => history.timestamp = dice.cell(),
        2 => history.dp = column(dice.number()),
        3 => history.dd = column(dice.number()),
        4 => history.cp = column(dice.number()),
        _ => history.cc = column(dice.number()),
    }
}

fn change_status(sample: &mut Sample, dice: &mut Dice) {
    let id = Some(dice.number());
    let status = &mut sample.statuses[0];
    match dice.roll(4) {
        0 => status.transfer = column(dice.number()),
        1 => status.state = dice.cell(),
        2 => status.due = dice.cell(),
        _ => sample.failed = [id, None, None],
    }
}

fn changed(dice: &mut Dice) -> Sample {
    let mut sample = if dice.roll(2) == 0 {
        posted_in_part()
    } else {
        expired()
    };
    change(&mut sample, dice);
    if dice.roll(2) == 0 {
        change(&mut sample, dice);
    }
    sample
}

#[test]
fn one_or_two_cells_changed(rt: HostRuntime) -> Result<(), AllocError> {
    let mut dice = Dice(7);
    for round in 0..400 {
        let sample = changed(&mut dice);
        let version = [1, 2, 3][dice.roll(3)];
        let rows = tenant(rt.alloc(), version, 1, &sample)?.rows;
        let plain = plain_find(rt.alloc(), version, &rows)?;
        let told = found(rt.alloc(), version, &sample)?;
        same(&rt, "the round", (round, told), (round, plain));
    }
    Ok(())
}
