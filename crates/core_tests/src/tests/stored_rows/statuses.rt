use crate::tests::asserting::same;
use crate::tests::cells::column;
use records::PendingState;
use rows::{StatusCells, StatusRow};

#[test]
fn each_state(rt: HostRuntime) {
    for (state, number) in [
        (PendingState::Open, 0),
        (PendingState::Posted, 1),
        (PendingState::Voided, 2),
        (PendingState::Expired, 3),
    ] {
        let row = StatusRow {
            transfer: 100,
            state,
            due: None,
        };
        let cells = StatusCells {
            transfer: column(100),
            state: number,
            due: 0,
        };
        same(&rt, "to cells", StatusCells::from_row(&row), cells);
        same(&rt, "from cells", cells.to_row(), Some(row));
    }
}

// The status of 'posted too late'.
#[test]
fn a_due_time(rt: HostRuntime) {
    let row = StatusRow {
        transfer: 100,
        state: PendingState::Expired,
        due: Some(1_000_000_005),
    };
    let cells = StatusCells {
        transfer: column(100),
        state: 3,
        due: 1_000_000_005,
    };
    same(&rt, "to cells", StatusCells::from_row(&row), cells);
    same(&rt, "from cells", cells.to_row(), Some(row));
}

#[test]
fn no_status_outside_its_widths(rt: HostRuntime) {
    for (state, due) in [(4, 0), (-1, 0), (0, -1), (i64::MAX, 1)] {
        let cells = StatusCells {
            transfer: column(100),
            state,
            due,
        };
        same(&rt, "no such status", cells.to_row(), None);
    }
}
