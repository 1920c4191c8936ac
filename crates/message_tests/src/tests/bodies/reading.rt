//! What bodies mean, and which are refused.
use crate::tests::asserting::{holds, same};
use amount::Amount;
use ledger_http::{Asked, Refusal, Route};
use records::{
    AccountEvent, AccountFilter, AccountFlags, FilterFlags, TransferEvent, TransferFlags,
};
use std::alloc::{AllocError, Global};
use std::process::Abort;
use std::test::Fail;
use tenants::Key;
use wire::{Read, Request, meaning, read_accounts, read_transfers};

pub(super) const POSTS: [Route; 12] = [
    Route::Accounts,
    Route::Transfers,
    Route::LookupAccounts,
    Route::LookupTransfers,
    Route::HistoryTransfers,
    Route::HistoryBalances,
    Route::QueryAccounts,
    Route::QueryTransfers,
    Route::LookupPending,
    Route::OpenPending,
    Route::LintAccounts,
    Route::LintTransfers,
];

const NOT_JSON: [&[u8]; 10] = [
    b"",
    b"[1",
    b"\xff",
    b"[\"\xff\"]",
    b"\xef\xbb\xbf[]",
    b"[\"\\ud800\"]",
    b"[\"\x01\"]",
    b"[{\"amount\":1e400}]",
    b"[{\"x\":1e400}]",
    b"{\"limit\":1e400}",
];

const BAD_EVENTS: [&[u8]; 15] = [
    b"{}",
    b"null",
    b"[null]",
    b"[1]",
    b"[[]]",
    br#"[{"x":1}]"#,
    br#"[{"at":"1"}]"#,
    br#"[{"id":null}]"#,
    br#"[{"id":1}]"#,
    br#"[{"id":"+1"}]"#,
    br#"[{"user_data_64":"18446744073709551616"}]"#,
    br#"[{"code":65536}]"#,
    br#"[{"ledger":4294967296}]"#,
    br#"[{"ledger":-1}]"#,
    br#"[{},{"ledger":"1"}]"#,
];

const BAD_ACCOUNTS: [&[u8]; 3] = [
    br#"[{"amount":"1"}]"#,
    br#"[{"debits_posted":1}]"#,
    br#"[{"flags":65536}]"#,
];

const BAD_TRANSFERS: [&[u8]; 15] = [
    br#"[{"debits_posted":"1"}]"#,
    br#"[{"amount":"01"}]"#,
    br#"[{"amount":"-0"}]"#,
    br#"[{"amount":" 1"}]"#,
    br#"[{"amount":""}]"#,
    br#"[{"amount":"\u0661"}]"#,
    br#"[{"amount":"340282366920938463463374607431768211456"}]"#,
    br#"[{"timestamp":"18446744073709551616"}]"#,
    br#"[{"flags":65536}]"#,
    br#"[{"timeout":4294967296}]"#,
    br#"[{"timeout":18446744073709551616}]"#,
    br#"[{"timeout":-0}]"#,
    br#"[{"timeout":1.0}]"#,
    br#"[{"timeout":1e0}]"#,
    br#"[{"timeout":"1"}]"#,
];

const BAD_IDS: [&[u8]; 15] = [
    b"{}",
    b"null",
    br#""1""#,
    br#"[1]"#,
    br#"[null]"#,
    br#"[["1"]]"#,
    br#"[{"id":"1"}]"#,
    br#"["01"]"#,
    br#"["+1"]"#,
    br#"["-1"]"#,
    br#"["1 "]"#,
    br#"["1e0"]"#,
    br#"[""]"#,
    br#"["1","x"]"#,
    br#"["340282366920938463463374607431768211456"]"#,
];

/// Bodies that ask for no page at all, as their limit is none.
pub(super) const NO_LIMITS: [&[u8]; 10] = [
    b"{}",
    b"[]",
    b"null",
    br#"[{"limit":1}]"#,
    br#"{"limit":0}"#,
    br#"{"limit":1001}"#,
    br#"{"limit":4294967297}"#,
    br#"{"limit":"1"}"#,
    br#"{"limit":1.0}"#,
    br#"{"limit":null}"#,
];

const BAD_FILTERS: [&[u8]; 9] = [
    br#"{"limit":1,"flags":8}"#,
    br#"{"limit":1,"flags":65536}"#,
    br#"{"limit":1,"flags":-1}"#,
    br#"{"limit":1,"account_id":1}"#,
    br#"{"limit":1,"account_id":"01"}"#,
    br#"{"limit":1,"account_id":"340282366920938463463374607431768211456"}"#,
    br#"{"limit":1,"timestamp_min":"18446744073709551616"}"#,
    br#"{"limit":1,"timestamp_max":"18446744073709551616"}"#,
    br#"{"limit":1,"id":"1"}"#,
];

/// A field that is missing is 0, and escapes are resolved in names and in numbers.
const LISTS: [(Route, &[u8], &[u128]); 5] = [
    (Route::Accounts, EVENTS, &[0, 1]),
    (Route::Transfers, EVENTS, &[0, 1]),
    (Route::LookupAccounts, IDS, &[2, 0, 2, u128::MAX]),
    (Route::LookupTransfers, IDS, &[2, 0, 2, u128::MAX]),
    (Route::LookupPending, IDS, &[2, 0, 2, u128::MAX]),
];

/// Two events.
pub(super) const EVENTS: &[u8] = br#" [{}, {"\u0069d":"\u0031"}] "#;

const IDS: &[u8] = br#"["2","0","\u0032","340282366920938463463374607431768211455"]"#;

/// A field that is missing is 0, but no limit is 0.
const FILTERS: [(Route, &[u8], AccountFilter); 2] = [
    (
        Route::HistoryTransfers,
        br#"{"account_id":"1","timestamp_min":"18446744073709551615",
            "timestamp_max":"3","flags":7,"limit":1000}"#,
        AccountFilter {
            account_id: 1,
            timestamp_min: u64::MAX,
            timestamp_max: 3,
            limit: 1000,
            flags: FilterFlags(7),
        },
    ),
    (
        Route::HistoryBalances,
        br#"{"limit":1}"#,
        AccountFilter {
            account_id: 0,
            timestamp_min: 0,
            timestamp_max: 0,
            limit: 1,
            flags: FilterFlags(0),
        },
    ),
];

/// The account of a statement, and its id, if it is one.
const STATEMENTS: [(&str, Option<u128>); 9] = [
    ("0", Some(0)),
    ("340282366920938463463374607431768211455", Some(u128::MAX)),
    ("", None),
    ("01", None),
    ("+1", None),
    ("1?x", None),
    ("%31", None),
    ("é", None),
    ("340282366920938463463374607431768211456", None),
];

// What a body that is posted to a route means.
pub(super) fn meant<R: Abort + AllocGlobal>(
    rt: &R,
    route: Route,
    body: &[u8],
) -> Result<Request, Refusal> {
    meaning(rt.alloc(), &posted(rt, route, body))
}

// The route of a request for a list, and the ids in it.
fn listed(alloc: Global, request: Request) -> Result<Option<(Route, Vec<u128>)>, AllocError> {
    let mut ids = Vec::new(alloc);
    Ok(match request {
        Request::Accounts(events) => {
            for event in events.as_slice() {
                ids.push(event.id)?;
            }
            Some((Route::Accounts, ids))
        }
        Request::Transfers(events) => {
            for event in events.as_slice() {
                ids.push(event.id)?;
            }
            Some((Route::Transfers, ids))
        }
        Request::Read(read) => match read {
            Read::LookupAccounts(ids) => Some((Route::LookupAccounts, ids.into_vec())),
            Read::LookupTransfers(ids) => Some((Route::LookupTransfers, ids.into_vec())),
            Read::LookupPending(ids) => Some((Route::LookupPending, ids.into_vec())),
            _ => None,
        },
    })
}

// The route of a request with a filter, and the filter.
fn filtered(request: Request) -> Option<(Route, AccountFilter)> {
    match request {
        Request::Read(Read::HistoryTransfers(asked)) => Some((Route::HistoryTransfers, asked)),
        Request::Read(Read::HistoryBalances(asked)) => Some((Route::HistoryBalances, asked)),
        _ => None,
    }
}

#[test]
fn understands_lists(rt: HostRuntime) -> Result<(), Fail> {
    for (route, body, want) in LISTS {
        match listed(rt.alloc(), meant(&rt, route, body)?)? {
            Some((told, ids)) => holds(&rt, route, told == route && ids.as_slice() == want),
            None => panic!(rt; "a list"),
        }
    }
    Ok(())
}

#[test]
fn understands_filters(rt: HostRuntime) -> Result<(), Fail> {
    for (route, body, want) in FILTERS {
        assert_eq!(rt; filtered(meant(&rt, route, body)?), Some((route, want)));
    }
    Ok(())
}

// A body that comes with it is not looked at.
#[test]
fn understands_the_account_of_a_statement(rt: HostRuntime) {
    for (account, want) in STATEMENTS {
        let asked = Asked {
            account,
            ..posted(&rt, Route::Statement, b"\xff")
        };
        let told = match meaning(rt.alloc(), &asked) {
            Ok(Request::Read(Read::Statement(id))) => Ok(id),
            Ok(_) => Err(Refusal::NoRoute),
            Err(refusal) => Err(refusal),
        };
        same(&rt, account, told, want.ok_or(Refusal::BadField));
    }
}

#[test]
fn reads_every_field_of_a_transfer(rt: HostRuntime) -> Result<(), Fail> {
    let body = concat!(
        r#"[{"id":"1","debit_account_id":"2","credit_account_id":"3","amount":"4","#,
        r#""pending_id":"5","user_data_128":"340282366920938463463374607431768211455","#,
        r#""user_data_64":"18446744073709551615","user_data_32":4294967295,"timeout":6,"#,
        r#""ledger":7,"code":8,"flags":65535,"timestamp":"9"}]"#
    );
    let events = read_transfers(rt.alloc(), body.as_bytes())?;
    let event = TransferEvent {
        id: 1,
        debit_account_id: 2,
        credit_account_id: 3,
        amount: Amount::new(4),
        pending_id: 5,
        user_data_128: u128::MAX,
        user_data_64: u64::MAX,
        user_data_32: u32::MAX,
        timeout: 6,
        ledger: 7,
        code: 8,
        flags: TransferFlags(65535),
        timestamp: 9,
    };
    assert_eq!(rt; events.as_slice(), [event].as_slice());
    Ok(())
}

#[test]
fn reads_every_field_of_an_account(rt: HostRuntime) -> Result<(), Fail> {
    let body = concat!(
        r#"[{"id":"1","debits_pending":"2","debits_posted":"3","credits_pending":"4","#,
        r#""credits_posted":"5","user_data_128":"6","user_data_64":"7","user_data_32":8,"#,
        r#""ledger":9,"code":10,"flags":11,"timestamp":"12"}]"#
    );
    let events = read_accounts(rt.alloc(), body.as_bytes())?;
    let event = AccountEvent {
        id: 1,
        debits_pending: Amount::new(2),
        debits_posted: Amount::new(3),
        credits_pending: Amount::new(4),
        credits_posted: Amount::new(5),
        user_data_128: 6,
        user_data_64: 7,
        user_data_32: 8,
        ledger: 9,
        code: 10,
        flags: AccountFlags(11),
        timestamp: 12,
    };
    assert_eq!(rt; events.as_slice(), [event].as_slice());
    Ok(())
}

#[test]
fn refuses_bad_bodies(rt: HostRuntime) {
    for route in POSTS {
        refuses(&rt, route, &NOT_JSON, Refusal::BodyNotJson);
    }
    for route in [Route::Accounts, Route::LintAccounts] {
        refuses(&rt, route, &BAD_EVENTS, Refusal::BadField);
        refuses(&rt, route, &BAD_ACCOUNTS, Refusal::BadField);
    }
    for route in [Route::Transfers, Route::LintTransfers] {
        refuses(&rt, route, &BAD_EVENTS, Refusal::BadField);
        refuses(&rt, route, &BAD_TRANSFERS, Refusal::BadField);
    }
    for route in [
        Route::LookupAccounts,
        Route::LookupTransfers,
        Route::LookupPending,
    ] {
        refuses(&rt, route, &BAD_IDS, Refusal::BadField);
    }
    for route in [Route::HistoryTransfers, Route::HistoryBalances] {
        refuses(&rt, route, &NO_LIMITS, Refusal::BadField);
        refuses(&rt, route, &BAD_FILTERS, Refusal::BadField);
    }
}

/// A route, an item that is well formed, and one that is not.
const ITEMS: [(Route, &[u8], &[u8]); 5] = [
    (Route::Accounts, b"{}", b"{\"id\":\"01\"}"),
    (Route::Transfers, b"{}", b"{\"amount\":\"01\"}"),
    (Route::LookupAccounts, b"\"1\"", b"1"),
    (Route::LookupTransfers, b"\"1\"", b"1"),
    (Route::LookupPending, b"\"1\"", b"1"),
];

// Only a list whose items are all well formed has too many.
#[test]
fn refuses_long_bodies(rt: HostRuntime) -> Result<(), Fail> {
    for (route, item, bad) in ITEMS {
        let most = list(rt.alloc(), item, 999, item)?;
        assert!(rt; meant(&rt, route, &most).is_ok());
        for (last, refusal) in [(item, Refusal::TooManyEvents), (bad, Refusal::BadField)] {
            refuses(&rt, route, &[&list(rt.alloc(), item, 1000, last)?], refusal);
        }
    }
    Ok(())
}

pub(super) fn refuses<R: Abort + AllocGlobal>(
    rt: &R,
    route: Route,
    bodies: &[&[u8]],
    refusal: Refusal,
) {
    for body in bodies {
        let told = meaning(rt.alloc(), &posted(rt, route, body)).err();
        same(rt, body, told, Some(refusal));
    }
}

fn posted<'a>(rt: &impl Abort, route: Route, body: &'a [u8]) -> Asked<'a> {
    Asked {
        route,
        account: "",
        key: Key::read(&[b'0'; 64]).expect(rt, "64 digits are a key"),
        detail: false,
        body,
    }
}

// A list of so many items, and then a last one.
fn list(alloc: Global, item: &[u8], count: usize, last: &[u8]) -> Result<Vec<u8>, AllocError> {
    let mut text = Vec::from_slice(alloc, b"[")?;
    for _ in 0..count {
        text.extend_from_slice(item)?;
        text.extend_from_slice(b",")?;
    }
    text.extend_from_slice(last)?;
    text.extend_from_slice(b"]")?;
    Ok(text)
}
