//! Statements of periods, on a host file.
use super::files::Step::{Posts, Refuses, SendsBack, Tells};
use super::files::{Step, take_steps};
use std::test::Fail;

// A wide statement of these rows.
macro_rules! wide_text {
    ($($row:literal),*) => {
        concat!(
            "timestamp,transfer_id,side,kind,amount,",
            "debits_pending,debits_posted,credits_pending,credits_posted,",
            "other_account,pending_id,code,user_data_128,user_data_64,user_data_32\n"
            $(, $row)*
        )
    };
}

const EXTRACTS: [Step; 9] = [
    Posts,
    Tells(
        "statement --tenant=a --account=1 --from=6 --balances",
        0,
        statement_text!(
            "0,0,,opening,0,100,0,0,0\n",
            "6,101,debit,post,40,0,40,0,0\n",
            "0,0,,closing,0,0,40,0,0\n"
        ),
    ),
    Tells(
        "statement --tenant=a --account=1 --to=5 --balances",
        0,
        statement_text!(
            "0,0,,opening,0,0,0,0,0\n",
            "5,100,debit,pending,100,100,0,0,0\n",
            "0,0,,closing,0,100,0,0,0\n"
        ),
    ),
    Tells(
        "statement --tenant=a --account=1 --wide --reversed --from=1970-01-01 --to=1970-01-01",
        0,
        wide_text!(
            "6,101,debit,post,40,0,40,0,0,2,100,1,0,0,0\n",
            "5,100,debit,pending,100,100,0,0,0,2,0,1,0,0,0\n"
        ),
    ),
    Tells(
        "statement --tenant=a --account=2 --from=1970-01-02 --balances",
        0,
        statement_text!("0,0,,opening,0,0,0,0,40\n", "0,0,,closing,0,0,0,0,40\n"),
    ),
    Tells(
        "statement --tenant=a --account=1 --format=csv --to=9999-12-31",
        0,
        statement_text!(
            "5,100,debit,pending,100,100,0,0,0\n",
            "6,101,debit,post,40,0,40,0,0\n"
        ),
    ),
    Tells(
        "statement --tenant=a --account=2 --format=json --to=5",
        0,
        concat!(
            "{\"timestamp\":\"5\",\"transfer_id\":\"100\",\"side\":\"credit\",",
            "\"kind\":\"pending\",\"amount\":\"100\",\"debits_pending\":\"0\",",
            "\"debits_posted\":\"0\",\"credits_pending\":\"100\",\"credits_posted\":\"0\"}",
            "\n"
        ),
    ),
    Refuses("statement --tenant=b --account=1 --wide", 1, "no_tenant"),
    Refuses(
        "statement --tenant=a --account=9 --balances",
        1,
        "no_account",
    ),
];

// Two entries on the first day, and one at the last nanosecond of the second.
const DAYS: [Step; 9] = [
    Posts,
    SendsBack(172799999999998),
    Tells(
        "statement --tenant=a --account=1 --from=1970-01-02 --to=1970-01-02 --balances",
        0,
        statement_text!(
            "0,0,,opening,0,0,40,0,0\n",
            "172799999999999,340282366920938463463374607431768211454,credit,single,7,0,40,0,7\n",
            "0,0,,closing,0,0,40,0,7\n"
        ),
    ),
    Tells(
        "statement --tenant=a --account=1 --from=1970-01-01 --to=1970-01-01 --balances",
        0,
        statement_text!(
            "0,0,,opening,0,0,0,0,0\n",
            "5,100,debit,pending,100,100,0,0,0\n",
            "6,101,debit,post,40,0,40,0,0\n",
            "0,0,,closing,0,0,40,0,0\n"
        ),
    ),
    Tells(
        "statement --tenant=a --account=1 --from=172799999999999 --to=6 --balances",
        0,
        statement_text!("0,0,,opening,0,0,40,0,0\n", "0,0,,closing,0,0,40,0,0\n"),
    ),
    Tells(
        "statement --tenant=a --account=2 --from=7 --to=172799999999998",
        0,
        statement_text!(),
    ),
    Tells(
        "statement --tenant=a --account=1 --from=7 --wide --format=sheet",
        0,
        wide_text!(
            "\"=\"\"172799999999999\"\"\"",
            ",\"=\"\"340282366920938463463374607431768211454\"\"\",credit,single",
            ",\"=\"\"7\"\"\",\"=\"\"0\"\"\",\"=\"\"40\"\"\",\"=\"\"0\"\"\",\"=\"\"7\"\"\"",
            ",\"=\"\"2\"\"\",\"=\"\"0\"\"\",\"=\"\"3\"\"\"",
            ",\"=\"\"340282366920938463463374607431768211453\"\"\"",
            ",\"=\"\"18446744073709551615\"\"\",\"=\"\"9\"\"\"\n"
        ),
    ),
    Tells(
        "statement --tenant=a --account=1 --from=7 --wide --balances --format=json --reversed",
        0,
        concat!(
            "{\"timestamp\":\"0\",\"transfer_id\":\"0\",\"side\":\"\",\"kind\":\"opening\"",
            ",\"amount\":\"0\",\"debits_pending\":\"0\",\"debits_posted\":\"40\"",
            ",\"credits_pending\":\"0\",\"credits_posted\":\"0\",\"other_account\":\"0\"",
            ",\"pending_id\":\"0\",\"code\":\"0\",\"user_data_128\":\"0\"",
            ",\"user_data_64\":\"0\",\"user_data_32\":\"0\"}\n",
            "{\"timestamp\":\"172799999999999\"",
            ",\"transfer_id\":\"340282366920938463463374607431768211454\",\"side\":\"credit\"",
            ",\"kind\":\"single\",\"amount\":\"7\",\"debits_pending\":\"0\"",
            ",\"debits_posted\":\"40\",\"credits_pending\":\"0\",\"credits_posted\":\"7\"",
            ",\"other_account\":\"2\",\"pending_id\":\"0\",\"code\":\"3\"",
            ",\"user_data_128\":\"340282366920938463463374607431768211453\"",
            ",\"user_data_64\":\"18446744073709551615\",\"user_data_32\":\"9\"}\n",
            "{\"timestamp\":\"0\",\"transfer_id\":\"0\",\"side\":\"\",\"kind\":\"closing\"",
            ",\"amount\":\"0\",\"debits_pending\":\"0\",\"debits_posted\":\"40\"",
            ",\"credits_pending\":\"0\",\"credits_posted\":\"7\",\"other_account\":\"0\"",
            ",\"pending_id\":\"0\",\"code\":\"0\",\"user_data_128\":\"0\"",
            ",\"user_data_64\":\"0\",\"user_data_32\":\"0\"}\n"
        ),
    ),
    Tells(
        "statement --tenant=a --account=2 --from=172799999999999 --to=1970-01-03 --wide",
        0,
        wide_text!(
            "172799999999999,340282366920938463463374607431768211454,debit,single,7,0,7,0,40",
            ",1,0,3,340282366920938463463374607431768211453,18446744073709551615,9\n"
        ),
    ),
];

#[test]
fn writes_statements_of_periods(rt: HostRuntime) -> Result<(), Fail> {
    take_steps(&rt, "extract.db", &EXTRACTS)?;
    take_steps(&rt, "days.db", &DAYS)
}
