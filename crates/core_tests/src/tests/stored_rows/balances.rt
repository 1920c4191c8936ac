use crate::tests::asserting::same;
use crate::tests::cells::column;
use rows::{BalanceCells, BalanceRow, HistoryCells, HistoryRow};
use samples::balances;

#[test]
fn one_balance(rt: HostRuntime) {
    let row = BalanceRow {
        account: 1,
        balances: balances((60, 40), (u128::MAX, 0)),
    };
    let cells = BalanceCells {
        account: column(1),
        dp: column(60),
        dd: column(40),
        cp: [0xff; 16],
        cc: [0; 16],
    };
    same(&rt, "to cells", BalanceCells::from_row(&row), cells);
    same(&rt, "from cells", cells.to_row(), row);
}

#[test]
fn one_history_row(rt: HostRuntime) {
    let row = HistoryRow {
        account: 2,
        timestamp: 5,
        balances: balances((60, 40), (u128::MAX, 0)),
    };
    let cells = HistoryCells {
        account: column(2),
        timestamp: 5,
        dp: column(60),
        dd: column(40),
        cp: [0xff; 16],
        cc: [0; 16],
    };
    same(&rt, "to cells", HistoryCells::from_row(&row), cells);
    same(&rt, "from cells", cells.to_row(), Some(row));
    let before_all = HistoryCells {
        timestamp: -5,
        ..cells
    };
    same(&rt, "a negative timestamp", before_all.to_row(), None);
}
