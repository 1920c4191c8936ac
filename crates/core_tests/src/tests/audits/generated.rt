//! A ledger of many transfers, kept by plain running sums that know nothing of the machine.

use super::dice::Dice;
use super::plain_audit::plain_find;
use super::told_alone;
use super::worked_rows::no_rows;
use crate::tests::asserting::same;
use crate::tests::cells::{account, column};
use rows::{BalanceCells, HistoryCells, StatusCells, TenantOfDigest, TenantRows, TransferCells};
use std::alloc::{AllocError, Global};
use std::mem;

// Two accounts, and an amount.
type Sides = (usize, usize, u128);

#[derive(Clone, Copy)]
struct Pending {
    id: u128,
    sides: Sides,
    // In nanoseconds; 0 is never.
    due: u64,
    is_open: bool,
}

#[derive(Drop)]
struct Maker {
    dice: Dice,
    clock: u64,
    next_id: u128,
    // Of each account, in the order of the columns.
    sums: [[u128; 4]; 4],
    // One for each status row.
    pending: Vec<Pending>,
    // The history is in order of time.
    rows: TenantRows,
}

impl Maker {
    // One transfer more, at a clock of its own.
    fn step(&mut self) -> Result<(), AllocError> {
        let jump = if self.dice.roll(8) == 0 {
            700_000_000
        } else {
            1
        };
        self.clock = self.clock.wrapping_add(jump);
        for i in 0..self.pending.len() {
            if let Some(pending) = self.pending.get(i).copied() {
                let has_come = pending.due != 0 && pending.due <= self.clock;
                if pending.is_open && has_come {
                    self.close(i, 3);
                }
            }
        }
        match self.dice.roll(4) {
            0 => self.single(),
            1 => self.hold(),
            2 => self.post(),
            _ => self.void(),
        }
    }

    // A pending transfer is not open any more.
    fn close(&mut self, i: usize, state: i64) {
        if let Some(pending) = self.pending.get_mut(i) {
            pending.is_open = false;
            let (debit, credit, amount) = pending.sides;
            self.add((debit, credit, amount.wrapping_neg()), 0);
        }
        if let Some(status) = self.rows.statuses.get_mut(i) {
            status.state = state;
        }
    }

    // So much more is pending, or posted.
    fn add(&mut self, (debit, credit, pending): Sides, posted: u128) {
        if let Some(sums) = self.sums.get_mut(debit) {
            sums[0] = sums[0].wrapping_add(pending);
            sums[1] = sums[1].wrapping_add(posted);
        }
        if let Some(sums) = self.sums.get_mut(credit) {
            sums[2] = sums[2].wrapping_add(pending);
            sums[3] = sums[3].wrapping_add(posted);
        }
    }

    fn sides(&mut self) -> Sides {
        let debit = self.dice.roll(4);
        let credit = (debit + 1 + self.dice.roll(3)) % 4;
        let amount = self.dice.roll(50) as u128 + 1;
        (debit, credit, amount)
    }

    fn single(&mut self) -> Result<(), AllocError> {
        let (debit, credit, amount) = self.sides();
        self.add((debit, credit, 0), amount);
        self.enter((debit, credit, amount), 0, 0, 0)
    }

    fn hold(&mut self) -> Result<(), AllocError> {
        let sides = self.sides();
        let timeout = self.dice.roll(3) as u64;
        let due = if timeout == 0 {
            0
        } else {
            self.clock.wrapping_add(timeout.wrapping_mul(1_000_000_000))
        };
        self.add(sides, 0);
        self.pending.push(Pending {
            id: self.next_id,
            sides,
            due,
            is_open: true,
        })?;
        self.rows.statuses.push(StatusCells {
            transfer: self.next_id.to_be_bytes(),
            state: 0,
            due: time(due),
        })?;
        self.enter(sides, 0, timeout, 2)
    }

    // The place of an open pending transfer, if it is found at once.
    fn some_open(&mut self) -> Option<(usize, Pending)> {
        if self.pending.is_empty() {
            return None;
        }
        let i = self.dice.roll(self.pending.len());
        let pending = self.pending.get(i).copied()?;
        if pending.is_open {
            Some((i, pending))
        } else {
            None
        }
    }

    fn post(&mut self) -> Result<(), AllocError> {
        let Some((i, pending)) = self.some_open() else {
            return self.single();
        };
        let (debit, credit, amount) = pending.sides;
        let part = (self.dice.roll(50) as u128 + 1).min(amount);
        self.close(i, 1);
        self.add((debit, credit, 0), part);
        self.enter((debit, credit, part), pending.id, 0, 4)
    }

    fn void(&mut self) -> Result<(), AllocError> {
        let Some((i, pending)) = self.some_open() else {
            return self.hold();
        };
        self.close(i, 2);
        self.enter(pending.sides, pending.id, 0, 8)
    }

    fn enter(
        &mut self,
        (debit, credit, amount): Sides,
        pending_id: u128,
        timeout: u64,
        flags: i64,
    ) -> Result<(), AllocError> {
        self.rows.transfers.push(TransferCells {
            id: self.next_id.to_be_bytes(),
            debit: account_id(debit),
            credit: account_id(credit),
            amount: amount.to_be_bytes(),
            pending_id: pending_id.to_be_bytes(),
            user_data_128: [0; 16],
            user_data_64: [0; 8],
            user_data_32: 0,
            timeout: time(timeout),
            ledger: 7,
            code: 1,
            flags,
            timestamp: time(self.clock),
            at_clock: time(self.clock),
        })?;
        self.next_id = self.next_id.wrapping_add(1);
        for account in [debit, credit] {
            if let Some([dp, dd, cp, cc]) = self.sums.get(account) {
                self.rows.history.push(HistoryCells {
                    account: account_id(account),
                    timestamp: time(self.clock),
                    dp: dp.to_be_bytes(),
                    dd: dd.to_be_bytes(),
                    cp: cp.to_be_bytes(),
                    cc: cc.to_be_bytes(),
                })?;
            }
        }
        Ok(())
    }

    // All rows, in order of key.
    fn into_rows(self, alloc: Global) -> Result<TenantRows, AllocError> {
        let mut rows = self.rows;
        let history = mem::replace(&mut rows.history, Vec::new(alloc));
        rows.clocks.push(time(self.clock))?;
        for (id, [dp, dd, cp, cc]) in (1..5u8).zip(self.sums) {
            rows.accounts.push(account(id, 0, i64::from(id)))?;
            rows.balances.push(BalanceCells {
                account: column(id),
                dp: dp.to_be_bytes(),
                dd: dd.to_be_bytes(),
                cp: cp.to_be_bytes(),
                cc: cc.to_be_bytes(),
            })?;
            for row in &history {
                if row.account == column(id) {
                    rows.history.push(*row)?;
                }
            }
        }
        Ok(rows)
    }
}

fn account_id(account: usize) -> [u8; 16] {
    (account as u128 + 1).to_be_bytes()
}

fn time(time: u64) -> i64 {
    i64::try_from(time).unwrap_or(0)
}

fn made(alloc: Global, seed: u64, transfers: usize) -> Result<TenantOfDigest, AllocError> {
    let mut maker = Maker {
        dice: Dice(seed),
        clock: 4,
        next_id: 100,
        sums: [[0; 4]; 4],
        pending: Vec::new(alloc),
        rows: no_rows(alloc),
    };
    for _ in 0..transfers {
        maker.step()?;
    }
    Ok(TenantOfDigest {
        digest: [0; 32],
        rows: maker.into_rows(alloc)?,
    })
}

#[test]
fn many_small_ledgers(rt: HostRuntime) -> Result<(), AllocError> {
    for seed in 0..20 {
        let one = made(rt.alloc(), seed, 30)?;
        same(&rt, "plainly", plain_find(rt.alloc(), 3, &one.rows)?, None);
        same(&rt, "by the audit", told_alone(rt.alloc(), 3, one)?, None);
    }
    Ok(())
}

// Two damages are a due time, and a sum in the history.
#[test]
fn a_ledger_of_many_transfers(rt: HostRuntime) -> Result<(), AllocError> {
    let one = made(rt.alloc(), 1, 2000)?;
    same(&rt, "undamaged", told_alone(rt.alloc(), 2, one)?, None);
    let mut one = made(rt.alloc(), 1, 2000)?;
    if let Some(status) = one.rows.statuses.get_mut(100) {
        status.due = status.due.wrapping_add(1);
    }
    if let Some(row) = one.rows.history.get_mut(50) {
        row.dd = [1; 16];
    }
    let told = told_alone(rt.alloc(), 3, one)?;
    same(&rt, "damaged", told, Some((5, 0, 100)));
    Ok(())
}
