//! What replies spell.
use crate::tests::asserting::same;
use amount::Amount;
use ledger_http::Refusal;
use records::{
    Account, AccountFlags, AccountResult, AccountWithBalances, BalanceAt, Balances, EventResult,
    Sums, Transfer, TransferFlags, TransferResult,
};
use std::alloc::{AllocError, Global};
use std::process::Abort;
use std::test::Fail;
use wire::{Items, Outcome, batch_text_accounts, batch_text_transfers, refusal_text, reply_bytes};

const FAILED: EventResult<TransferResult> = EventResult {
    result: TransferResult::IdAlreadyFailed,
    timestamp: u64::MAX,
};

const OPENED: [EventResult<AccountResult>; 2] = [
    EventResult {
        result: AccountResult::Accepted,
        timestamp: 1001,
    },
    EventResult {
        result: AccountResult::Accepted,
        timestamp: 1002,
    },
];

/// The clock, the results, and the length and the text of the reply's body.
type Results<R> = (u64, &'static [EventResult<R>], &'static str, &'static str);

const TRANSFER_RESULTS: [Results<TransferResult>; 2] = [
    (1000, &[], "29", r#"{"clock":"1000","results":[]}"#),
    (
        u64::MAX,
        &[FAILED],
        "122",
        concat!(
            r#"{"clock":"18446744073709551615","results":[{"number":60,"#,
            r#""result":"id_already_failed","timestamp":"18446744073709551615"}]}"#
        ),
    ),
];

#[test]
fn tells_results_of_transfers(rt: HostRuntime) -> Result<(), Fail> {
    for (clock, results, length, body) in TRANSFER_RESULTS {
        let results = items(rt.alloc(), results)?;
        let outcome = Outcome::TransferResults { clock, results };
        is_json(&rt, outcome, length, body)?;
    }
    Ok(())
}

#[test]
fn tells_results_of_accounts(rt: HostRuntime) -> Result<(), Fail> {
    let outcome = Outcome::AccountResults {
        clock: 1002,
        results: items(rt.alloc(), &OPENED)?,
    };
    let body = concat!(
        r#"{"clock":"1002","results":[{"number":0,"result":"ok","timestamp":"1001"},"#,
        r#"{"number":0,"result":"ok","timestamp":"1002"}]}"#
    );
    is_json(&rt, outcome, "120", body)
}

/// An account with nothing but what each has.
pub(super) const PLAIN: AccountWithBalances = AccountWithBalances {
    account: Account {
        id: 1,
        user_data_128: 0,
        user_data_64: 0,
        user_data_32: 0,
        ledger: 7,
        code: 10,
        flags: AccountFlags(0),
        timestamp: 1,
    },
    balances: Balances::ZERO,
};

#[test]
fn tells_accounts(rt: HostRuntime) -> Result<(), Fail> {
    let outcome = Outcome::Accounts {
        clock: 4,
        accounts: items(rt.alloc(), &[])?,
    };
    is_json(&rt, outcome, "27", r#"{"accounts":[],"clock":"4"}"#)?;
    let full = AccountWithBalances {
        account: Account {
            id: u128::MAX,
            user_data_128: 5,
            user_data_64: 7,
            user_data_32: 6,
            ledger: u32::MAX,
            code: u16::MAX,
            flags: AccountFlags(15),
            timestamp: u64::MAX,
        },
        balances: balances([1, 2, 3, 4]),
    };
    let outcome = Outcome::Accounts {
        clock: 4,
        accounts: items(rt.alloc(), &[PLAIN, full])?,
    };
    let body = concat!(
        r#"{"accounts":[{"code":10,"credits_pending":"0","credits_posted":"0","#,
        r#""debits_pending":"0","debits_posted":"0","flags":0,"id":"1","ledger":7,"#,
        r#""timestamp":"1","user_data_128":"0","user_data_32":0,"user_data_64":"0"},"#,
        r#"{"code":65535,"credits_pending":"3","credits_posted":"4","debits_pending":"1","#,
        r#""debits_posted":"2","flags":15,"id":"340282366920938463463374607431768211455","#,
        r#""ledger":4294967295,"timestamp":"18446744073709551615","user_data_128":"5","#,
        r#""user_data_32":6,"user_data_64":"7"}],"clock":"4"}"#
    );
    is_json(&rt, outcome, "492", body)
}

/// A post.
pub(super) const SMALL: Transfer = Transfer {
    id: 5,
    debit_account_id: 3,
    credit_account_id: 2,
    amount: Amount::MAX,
    pending_id: 7,
    user_data_128: 10,
    user_data_64: 12,
    user_data_32: 11,
    timeout: 8,
    ledger: 6,
    code: 1,
    flags: TransferFlags(4),
    timestamp: 9,
    at: 13,
};

/// A transfer whose fields are as wide as they can be, all but its amount.
const LARGE: Transfer = Transfer {
    id: u128::MAX,
    debit_account_id: u128::MAX,
    credit_account_id: u128::MAX,
    amount: Amount::ZERO,
    pending_id: u128::MAX,
    user_data_128: u128::MAX,
    user_data_64: u64::MAX,
    user_data_32: u32::MAX,
    timeout: u32::MAX,
    ledger: u32::MAX,
    code: u16::MAX,
    flags: TransferFlags(u16::MAX),
    timestamp: u64::MAX,
    at: u64::MAX,
};

#[test]
fn tells_transfers(rt: HostRuntime) -> Result<(), Fail> {
    let outcome = Outcome::Transfers {
        clock: 9,
        transfers: items(rt.alloc(), &[SMALL, LARGE])?,
    };
    let body = concat!(
        r#"{"clock":"9","transfers":[{"amount":"340282366920938463463374607431768211455","#,
        r#""code":1,"credit_account_id":"2","debit_account_id":"3","flags":4,"id":"5","#,
        r#""ledger":6,"pending_id":"7","timeout":8,"timestamp":"9","user_data_128":"10","#,
        r#""user_data_32":11,"user_data_64":"12"},{"amount":"0","code":65535,"#,
        r#""credit_account_id":"340282366920938463463374607431768211455","#,
        r#""debit_account_id":"340282366920938463463374607431768211455","flags":65535,"#,
        r#""id":"340282366920938463463374607431768211455","ledger":4294967295,"#,
        r#""pending_id":"340282366920938463463374607431768211455","timeout":4294967295,"#,
        r#""timestamp":"18446744073709551615","#,
        r#""user_data_128":"340282366920938463463374607431768211455","#,
        r#""user_data_32":4294967295,"user_data_64":"18446744073709551615"}]}"#
    );
    is_json(&rt, outcome, "735", body)
}

#[test]
fn tells_balances(rt: HostRuntime) -> Result<(), Fail> {
    let rows = [
        BalanceAt {
            timestamp: 5,
            balances: balances([1, 2, 3, 4]),
        },
        BalanceAt {
            timestamp: 6,
            balances: balances([0, u128::MAX, u128::MAX, 0]),
        },
    ];
    let outcome = Outcome::Balances {
        clock: 8,
        balances: items(rt.alloc(), &rows)?,
    };
    let body = concat!(
        r#"{"balances":[{"credits_pending":"3","credits_posted":"4","debits_pending":"1","#,
        r#""debits_posted":"2","timestamp":"5"},"#,
        r#"{"credits_pending":"340282366920938463463374607431768211455","credits_posted":"0","#,
        r#""debits_pending":"0","debits_posted":"340282366920938463463374607431768211455","#,
        r#""timestamp":"6"}],"clock":"8"}"#
    );
    is_json(&rt, outcome, "306", body)
}

#[test]
fn tells_statements(rt: HostRuntime) -> Result<(), Fail> {
    let chunks = concat!(
        "80\r\n",
        "timestamp,transfer_id,side,kind,amount,",
        "debits_pending,debits_posted,credits_pending,credits_posted\n",
        "3,1,debit,single,10,0,10,0,0\n",
        "\r\n0\r\n\r\n"
    );
    let outcome = Outcome::Statement(items(rt.alloc(), chunks.as_bytes())?);
    let head = "HTTP/1.1 200 OK\r\ncontent-type: text/csv\r\ntransfer-encoding: chunked\r\n\r\n";
    let text = format!(in rt.alloc(); "{head}{chunks}")?;
    is_reply(&rt, outcome, text.as_str())
}

#[test]
fn tells_how_many_events_are_good(rt: HostRuntime) -> Result<(), Fail> {
    for (events, length, body) in [
        (0, "12", r#"{"events":0}"#),
        (1000, "15", r#"{"events":1000}"#),
    ] {
        is_json(&rt, Outcome::Linted(events), length, body)?;
    }
    Ok(())
}

#[test]
fn tells_refusals(rt: HostRuntime) -> Result<(), Fail> {
    let text = concat!(
        "HTTP/1.1 401 Unauthorized\r\ncontent-length: 23\r\n",
        "content-type: application/json\r\n\r\n",
        r#"{"error":"unknown_key"}"#
    );
    is_reply(&rt, Outcome::Refused(Refusal::UnknownKey), text)
}

#[test]
fn writes_bodies_alone(rt: HostRuntime) -> Result<(), Fail> {
    let refused = refusal_text(rt.alloc(), "body_not_json")?;
    let wanted = r#"{"error":"body_not_json"}"#;
    assert_eq!(rt; refused.as_slice(), wanted.as_bytes());
    let exists = EventResult {
        result: TransferResult::Exists,
        timestamp: 4,
    };
    let told = batch_text_transfers(rt.alloc(), 4, &[exists])?;
    let wanted = r#"{"clock":"4","results":[{"number":18,"result":"exists","timestamp":"4"}]}"#;
    assert_eq!(rt; told.as_slice(), wanted.as_bytes());
    let refused = EventResult {
        result: AccountResult::IdMustNotBeZero,
        timestamp: 1,
    };
    let told = batch_text_accounts(rt.alloc(), 1, &[refused])?;
    let wanted = concat!(
        r#"{"clock":"1","results":"#,
        r#"[{"number":5,"result":"id_must_not_be_zero","timestamp":"1"}]}"#
    );
    assert_eq!(rt; told.as_slice(), wanted.as_bytes());
    Ok(())
}

pub(super) fn items<T: Copy>(alloc: Global, values: &[T]) -> Result<Items<T>, AllocError> {
    Ok(Vec::from_slice(alloc, values)?.into())
}

// Debits pending and posted, and then credits.
fn balances(sums: [u128; 4]) -> Balances {
    let [
        debits_pending,
        debits_posted,
        credits_pending,
        credits_posted,
    ] = sums.map(Amount::new);
    Balances {
        debits: Sums {
            pending: debits_pending,
            posted: debits_posted,
        },
        credits: Sums {
            pending: credits_pending,
            posted: credits_posted,
        },
    }
}

/// Ends the test where this is not replied by a text.
fn is_reply<R: Abort + AllocGlobal>(rt: &R, outcome: Outcome, text: &str) -> Result<(), Fail> {
    let reply = reply_bytes(rt.alloc(), &outcome)?;
    same(rt, text, reply.bytes(), text.as_bytes());
    Ok(())
}

pub(super) fn is_json<R: Abort + AllocGlobal>(
    rt: &R,
    outcome: Outcome,
    length: &str,
    body: &str,
) -> Result<(), Fail> {
    let text = format!(in rt.alloc();
        "HTTP/1.1 200 OK\r\ncontent-length: {length}\r\ncontent-type: application/json\r\n\r\n{body}"
    )?;
    is_reply(rt, outcome, text.as_str())
}
