ghost use Rattle.std.specs.Prelude.{◌≡◌};

use crate::tests::asserting::same;
use crate::tests::cells::account;
use records::{Account, AccountFlags};
use rows::AccountCells;

// Account 3 of the model's base, with user data.
fn third_account() -> Account
    ensures { result.timestamp ≡ 3 }
{
    Account {
        id: 3,
        user_data_128: u128::MAX,
        user_data_64: 258,
        user_data_32: 4294967295,
        ledger: 7,
        code: 10,
        flags: AccountFlags(10),
        timestamp: 3,
    }
}

// The cells of that account.
fn its_cells() -> AccountCells {
    AccountCells {
        user_data_128: [0xff; 16],
        user_data_64: [0, 0, 0, 0, 0, 0, 1, 2],
        user_data_32: 4294967295,
        ..account(3, 10, 3)
    }
}

#[test]
fn one_account(rt: HostRuntime) {
    let cells = its_cells();
    let told = AccountCells::from_account(&third_account());
    same(&rt, "to cells", told, cells);
    same(&rt, "from cells", cells.to_account(), Some(third_account()));
}

#[test]
fn no_account_outside_its_widths(rt: HostRuntime) {
    for (case, number) in [
        ("user_data_32", -1),
        ("ledger", 4294967296),
        ("code", 65536),
        ("flags", -10),
        ("timestamp", i64::MIN),
    ] {
        let mut cells = its_cells();
        match case {
            "user_data_32" => cells.user_data_32 = number,
            "ledger" => cells.ledger = number,
            "code" => cells.code = number,
            "flags" => cells.flags = number,
            _ => cells.timestamp = number,
        }
        same(&rt, case, cells.to_account(), None);
    }
}
