ghost use Rattle.std.specs.Prelude.{◌≡◌};

use crate::tests::asserting::same;
use crate::tests::cells::transfer;
use amount::Amount;
use records::{Transfer, TransferFlags};
use rows::TransferCells;

// The transfer 101 of 'posted in part'.
fn post() -> Transfer
    ensures timestamp { result.timestamp ≡ 6 }
    ensures at { result.at ≡ 7 }
{
    Transfer {
        id: 101,
        debit_account_id: 1,
        credit_account_id: 2,
        amount: Amount::new(40),
        pending_id: 100,
        ledger: 7,
        code: 1,
        flags: TransferFlags(4),
        timestamp: 6,
        at: 7,
        ..Transfer::default()
    }
}

#[test]
fn one_transfer(rt: HostRuntime) {
    let cells = transfer(101, 100, 40, 4, 6);
    let told = TransferCells::from_transfer(&post());
    same(&rt, "to cells", told, cells);
    same(&rt, "from cells", cells.to_transfer(), Some(post()));
}

#[test]
fn no_transfer_outside_its_widths(rt: HostRuntime) {
    for (case, number) in [
        ("user_data_32", 4294967296),
        ("timeout", -1),
        ("ledger", -7),
        ("code", 65536),
        ("flags", 65540),
        ("timestamp", -6),
        ("at_clock", -1),
    ] {
        let mut cells = transfer(101, 100, 40, 4, 6);
        match case {
            "user_data_32" => cells.user_data_32 = number,
            "timeout" => cells.timeout = number,
            "ledger" => cells.ledger = number,
            "code" => cells.code = number,
            "flags" => cells.flags = number,
            "timestamp" => cells.timestamp = number,
            _ => cells.at_clock = number,
        }
        same(&rt, case, cells.to_transfer(), None);
    }
}
